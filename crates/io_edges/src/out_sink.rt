//! A sink over a writer.

ghost use Rattle.std.specs.Prelude.{◌≡◌, ◌<◌, ◌≤◌, length, take, OnErr, IfOk};
ghost use Rattle.std.specs.Io.KnownBytes.{Appends};
ghost use Rattle.io_edges.specs.Counts.{Rose};
ghost use Rattle.io_edges.specs.Passed.{PassedFront};

use crate::counts::raise;
use crate::failed::Failed;
use crate::sink::Sink;
use std::io::Write;
use std::marker::Model;

/// A sink that passes what it takes on to a writer, and flushes it at each call. As a sink it tells
/// nothing of what it took, since a flush may fail after the writer took a piece. What it passed on is
/// what the writer holds, where the writer tells it. Every error of the
/// writer is a failure, and so is a writer that takes nothing of a piece that isn't empty.
#[derive(Drop)]
pub struct OutSink<W: Write> {
    writer: W,
    failures: u64,
}

impl<W: Write> Model for OutSink<W> {
    ghost use Rattle.io_edges.specs.OutSink.{SinkOverWriter};

    ghost Value = { SinkOverWriter };

    ghost view = { λ s. record { contents = W.contents s.writer; failures = s.failures } };
}

impl<W: Write> OutSink<W> {
    /// A sink over this writer, with no failure so far.
    pub fn new(writer: W) -> OutSink<W>
        ensures { result ≡ record { contents = W.contents writer; failures = 0 } }
    {
        OutSink {
            writer,
            failures: 0,
        }
    }
}

impl<W: Write> Sink for OutSink<W> {
    ghost use Rattle.std.specs.Prelude.{None};

    ghost taken = { λ _. None };

    ghost passed = { λ s. s.contents };

    ghost faults = { λ s. s.failures };

    fn write(&mut self, bytes: &[u8]) -> Result<usize, Failed>
        ensures fits { IfOk result (λ count. count ≤ length bytes.now) }
        ensures some { IfOk result (λ count. 0 < length bytes.now → 0 < count) }
        ensures cause { OnErr result (Rose self.old.failures self.new.failures) }
        ensures never_falls { self.old.failures ≤ self.new.failures }

        // What it answers is what the writer took. After a failure the writer took a front.
        ensures passes { IfOk result (λ count.
            Appends self.old.contents self.new.contents (take count bytes.now)) }
        ensures passes_front { OnErr result (PassedFront self.old.contents self.new.contents bytes.now) }
    {
        match self.writer.write(bytes) {
            Ok(count) if (count > 0 || bytes.is_empty()) && self.writer.flush().is_ok() => {
                Ok(count)
            }
            _ => {
                self.failures = raise(self.failures);
                Err(Failed)
            }
        }
    }
}
