//! The sink over a writer.

use io_edges::{Failed, OutSink, Sink};
use std::io;
use std::io::Write;

/// A writer that takes at most one octet a call, and none once it is stuck. It counts its flushes, which fail once it is
/// broken.
#[derive(Drop)]
struct Slow {
    taken: Vec<u8>,
    stuck: bool,
    broken: bool,
    flushes: u32,
}

impl Write for Slow {
    fn write(&mut self, bytes: &[u8]) -> io::Result<usize> {
        match bytes.first() {
            Some(octet) if !self.stuck => {
                self.taken.push(*octet)?;
                Ok(1)
            }
            _ => Ok(0),
        }
    }

    fn flush(&mut self) -> io::Result<()> {
        self.flushes = self.flushes.wrapping_add(1);
        if self.broken {
            return Err(io::Error::from(io::ErrorKind::BrokenPipe));
        }
        Ok(())
    }
}

// No clause tells of a flush. The writer takes one octet of two, the other one, and then nothing of nothing. Where it takes
// an octet and its flush fails, the sink fails too.
#[test]
fn what_a_writer_takes_is_flushed_at_each_call(rt: HostRuntime) {
    let mut slow = Slow {
        taken: Vec::new(rt.alloc()),
        stuck: false,
        broken: false,
        flushes: 0,
    };
    assert!(rt; comes_to(&mut slow, b"ab", Ok(1)));
    assert!(rt; comes_to(&mut slow, b"b", Ok(1)));
    assert!(rt; comes_to(&mut slow, b"", Ok(0)));
    assert!(rt; slow.taken.as_slice() == b"ab".as_slice());
    assert!(rt; slow.flushes == 3);
    slow.broken = true;
    assert!(rt; comes_to(&mut slow, b"c", Err(Failed)));
    assert!(rt; slow.flushes == 4);
    slow.stuck = true;
    assert!(rt; comes_to(&mut slow, b"d", Err(Failed)));
}

/// Whether a call of a sink over the writer comes to this.
fn comes_to(slow: &mut Slow, bytes: &[u8], wanted: Result<usize, Failed>) -> bool {
    OutSink::new(slow).write(bytes) == wanted
}
