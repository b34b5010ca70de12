//! A sink in memory.

ghost use Rattle.std.specs.Prelude.{◌≡◌, ◌↔◌, ◌<◌, ◌≤◌, length, take, IsTrue, IsErr, OnErr, IfOk};
ghost use Rattle.std.specs.Io.KnownBytes.{Appends, Keeps};
ghost use Rattle.io_edges.specs.Counts.{Rose};
ghost use Rattle.io_edges.specs.Passed.{PassedFront};
ghost use Rattle.io_edges.specs.MemorySink.{told_taken, room_for, refuses_next, after_write, nothing_taken};

use crate::calls::Calls;
use crate::counts::raise;
use crate::failed::Failed;
use crate::sink::Sink;
use dns_data::{List, NoMemory};
use std::alloc::Global;
use std::marker::Model;

/// A sink in memory, which tells its bytes. A call fails where its number is listed, or where no
/// room is left for a piece that isn't empty, and nowhere else.
#[derive(Drop)]
pub struct MemorySink {
    bytes: Vec<u8>,
    room: usize,
    failures: u64,
    calls: Calls,
}

impl Model for MemorySink {
    ghost use Rattle.std.specs.Prelude.{◌≤◌, vec_len, vec_capacity};
    ghost use Rattle.io_edges.specs.MemorySink.{SinkInMemory, sink_code};

    ghost Value = { SinkInMemory };

    ghost coded = { sink_code };

    ghost view = { λ s. record {
      taken = s.bytes.items;
      room = s.room;
      failures = s.failures;
      fails = s.calls.fails;
      calls = s.calls.made;
    } };

    ghost invariant = { λ s. (vec_len s.bytes ≤ s.room) × (s.room ≤ vec_capacity s.bytes) };
}

impl MemorySink {
    /// A sink that has taken nothing and has this much room, in octets, which it reserves. The
    /// calls of `write` with these numbers fail, the first call being 1.
    pub fn new(alloc: Global, room: u32, fails: List<u32>) -> Result<MemorySink, NoMemory>
        ensures { IfOk result (λ sink. sink ≡ nothing_taken room fails) }
    {
        Ok(MemorySink {
            bytes: Vec::with_capacity(alloc, room as usize)?,
            room: room as usize,
            failures: 0,
            calls: Calls::new(fails),
        })
    }

    /// The octets taken, in order.
    pub fn taken(&self) -> &[u8]
        ensures { result.now ≡ self.now.taken }
    {
        self.bytes.as_slice()
    }
}

impl Sink for MemorySink {
    ghost taken = { told_taken };

    ghost passed = { told_taken };

    ghost faults = { λ s. s.failures };

    fn write(&mut self, bytes: &[u8]) -> Result<usize, Failed>
        ensures fits { IfOk result (λ count. count ≤ length bytes.now) }
        ensures some { IfOk result (λ count. 0 < length bytes.now → 0 < count) }
        ensures appends { IfOk result (λ count.
            Appends (told_taken self.old) (told_taken self.new) (take count bytes.now)) }
        ensures err { OnErr result (Keeps (told_taken self.old) (told_taken self.new)) }
        ensures passes { IfOk result (λ count.
            Appends (told_taken self.old) (told_taken self.new) (take count bytes.now)) }
        ensures passes_front { OnErr result (PassedFront (told_taken self.old) (told_taken self.new) bytes.now) }
        ensures cause { OnErr result (Rose self.old.failures self.new.failures) }
        ensures never_falls { self.old.failures ≤ self.new.failures }

        // Exactly when it fails, how much it takes, and what it leaves.
        ensures fails { IsErr result ↔ IsTrue (refuses_next self.old bytes.now) }
        ensures whole { IfOk result (λ count. count ≡ room_for self.old bytes.now) }
        ensures after { self.new ≡ after_write self.old bytes.now }
    {
        let listed = self.calls.count();
        let count = bytes.len().min(self.room - self.bytes.len());
        if listed || (count == 0 && !bytes.is_empty()) {
            self.failures = raise(self.failures);
            return Err(Failed);
        }
        match self.bytes.extend_from_slice(&bytes[..count]) {
            Ok(()) => Ok(count),
            Err(_) => unreachable!(),
        }
    }
}
