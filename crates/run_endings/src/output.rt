//! Writing whole texts.

ghost use Rattle.std.specs.Prelude.{◌≡◌, ◌≤◌, OnOk, OnErr};
ghost use Rattle.std.specs.Io.KnownBytes.{Appends};
ghost use Rattle.std.specs.List.{flat_map};
ghost use Rattle.io_edges.specs.Counts.{Rose};
ghost use Rattle.io_edges.specs.Passed.{PassedFront};
ghost use Rattle.run_endings.specs.Endings.{no_memory};
ghost use Rattle.run_endings.specs.Runs.{IsWritten, output_of};
ghost use Rattle.run_endings.specs.Writing.{TookProperFront, TookLine, PassedLine};

use crate::ending::Ending;
use crate::status::Status;
use crate::text::{OutText, TextForm};
use dns_data::Octets;
use io_edges::{Failed, Sink};

/// Writes all of a text: the sink takes it once, and passes it on once. After a failure the sink took a proper front of it,
/// and passed on a front.
pub fn write_all<S: Sink>(sink: &mut S, text: &[u8]) -> Result<(), Failed>
    ensures ok { OnOk result (Appends (S.taken sink.old) (S.taken sink.new) text.now) }
    ensures err { OnErr result (TookProperFront (S.taken sink.old) (S.taken sink.new) text.now) }
    ensures passes { OnOk result (Appends (S.passed sink.old) (S.passed sink.new) text.now) }
    ensures passes_front { OnErr result (PassedFront (S.passed sink.old) (S.passed sink.new) text.now) }
    ensures cause { OnErr result (Rose (S.faults sink.old) (S.faults sink.new)) }
    ensures never_falls { S.faults sink.old ≤ S.faults sink.new }
{
    let mut rest = text;
    while !rest.is_empty() {
        let count = sink.write(rest)?;
        let (_, left) = rest.split_at(count);
        rest = left;
    }
    Ok(())
}

/// Writes all of a text for out, piece by piece where it stands in pieces. After a failure the sink took a proper front of
/// it, and passed on a front.
pub(crate) fn write_text<S: Sink>(sink: &mut S, text: &OutText) -> Result<(), Failed>
    ensures ok { OnOk result (Appends (S.taken sink.old) (S.taken sink.new) text.now) }
    ensures err { OnErr result (TookProperFront (S.taken sink.old) (S.taken sink.new) text.now) }
    ensures passes { OnOk result (Appends (S.passed sink.old) (S.passed sink.new) text.now) }
    ensures passes_front { OnErr result (PassedFront (S.passed sink.old) (S.passed sink.new) text.now) }
    ensures cause { OnErr result (Rose (S.faults sink.old) (S.faults sink.new)) }
    ensures never_falls { S.faults sink.old ≤ S.faults sink.new }
{
    match text.form() {
        TextForm::Whole(octets) => write_all(sink, octets.items()),
        TextForm::Pieces(pieces) => write_pieces(sink, pieces.items()),
    }
}

/// Writes all pieces, each behind the one before. After a failure the sink took a proper front of their octets, and passed
/// on a front.
fn write_pieces<S: Sink>(sink: &mut S, pieces: &[Octets]) -> Result<(), Failed>
    ensures ok { OnOk result (Appends (S.taken sink.old) (S.taken sink.new) (flat_map (λ piece. piece) pieces.now)) }
    ensures err { OnErr result (TookProperFront (S.taken sink.old) (S.taken sink.new) (flat_map (λ piece. piece) pieces.now)) }
    ensures passes { OnOk result (Appends (S.passed sink.old) (S.passed sink.new) (flat_map (λ piece. piece) pieces.now)) }
    ensures passes_front { OnErr result (PassedFront (S.passed sink.old) (S.passed sink.new) (flat_map (λ piece. piece) pieces.now)) }
    ensures cause { OnErr result (Rose (S.faults sink.old) (S.faults sink.new)) }
    ensures never_falls { S.faults sink.old ≤ S.faults sink.new }
{
    for piece in pieces {
        write_all(sink, piece.items())?;
    }
    Ok(())
}

/// Writes the text of an ending on out, and tells its line on err. The status is the ending's; or, where out fails, that of
/// a failed writing, of which err is told in place of the line.
pub fn write_ending<O: Sink, E: Sink>(out: &mut O, err: &mut E, ending: Ending) -> Status
    ensures { IsWritten ending (output_of O.taken O.passed O.faults out.old out.new) (output_of E.taken E.passed E.faults err.old err.new) result }
{
    match write_text(out, &ending.out) {
        Ok(()) => {
            tell(err, ending.err.octets());
            ending.status
        }
        Err(Failed) => {
            tell(err, b"output failed\n");
            Status::WriteFault
        }
    }
}

/// Tells a line on err. A failure to do so changes nothing else.
pub fn tell<E: Sink>(err: &mut E, line: &[u8])
    ensures took { TookLine (E.taken err.old) (E.taken err.new) (E.faults err.old) (E.faults err.new) line.now }
    ensures passed { PassedLine (E.passed err.old) (E.passed err.new) (E.faults err.old) (E.faults err.new) line.now }
{
    // Nowhere is left to tell of a failure.
    let _ = write_all(err, line);
}

/// Tells on err that memory ran out, where a run ends before anything is done, and gives the status that says so.
pub fn tell_no_memory<E: Sink>(err: &mut E) -> Status
    ensures status { result ≡ Status.NoMemory }
    ensures took { TookLine (E.taken err.old) (E.taken err.new) (E.faults err.old) (E.faults err.new) no_memory.err }
    ensures passed { PassedLine (E.passed err.old) (E.passed err.new) (E.faults err.old) (E.faults err.new) no_memory.err }
{
    tell(err, b"no memory\n");
    Status::NoMemory
}
