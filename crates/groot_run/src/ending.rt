//! How a run of groot ends where no other program ends so, before anything is written.

ghost use Rattle.std.specs.Prelude.{◌≡◌, ◌⊎◌, ◌++◌, codes, decimal, IfOk};
ghost use Rattle.run_endings.specs.Endings.{no_memory};
ghost use Rattle.groot_run.specs.Outcome as outcome;

use crate::ask::MOST_WALKS;
use dns_data::NoMemory;
use groot_line::{Program, usage_line};
use itoa::Buffer;
use plain_resolver::MOST_WALKS_FOLLOWED;
use run_endings::{Ending, EndingLine, Status, more_than, refusal_line};
use std::alloc::Global;

/// The words are no job of the program.
pub(crate) fn usage(program: Program) -> Ending
    ensures { result ≡ outcome.usage program }
{
    Ending::usage(usage_line(program))
}

/// The query has more walks than are written.
pub(crate) fn too_many_walks(alloc: Global) -> Ending
    ensures { (result ≡ outcome.too_many_walks) ⊎ (result ≡ no_memory) }
{
    match more_than(alloc, b"walks: more than ", MOST_WALKS) {
        Ok(line) => Ending::without_output(Status::Walks, line),
        Err(NoMemory) => Ending::no_memory(),
    }
}

/// The file has no report.
pub(crate) fn not_report(alloc: Global, file: &str) -> Ending
    ensures { (result ≡ outcome.not_report file.now) ⊎ (result ≡ no_memory) }
{
    match refusal_line(alloc, file, 0, "not-report") {
        Ok(line) => Ending::without_output(Status::Refused, line),
        Err(NoMemory) => Ending::no_memory(),
    }
}

/// The query of the entry with this number has more walks than are followed; with the number 0, a server's name has more.
pub(crate) fn too_many_to_check(alloc: Global, entry: u64) -> Ending
    ensures { (result ≡ outcome.too_many_to_check entry) ⊎ (result ≡ no_memory) }
{
    match more_than_for_entry(alloc, b"walks: more than ", MOST_WALKS_FOLLOWED, entry) {
        Ok(line) => Ending::without_output(Status::Walks, line),
        Err(NoMemory) => Ending::no_memory(),
    }
}

/// A line that says what there is more of than a limit, and for the entry of which number.
fn more_than_for_entry<'a>(
    alloc: Global,
    front: &'a [u8],
    limit: u32,
    entry: u64,
) -> Result<EndingLine, NoMemory>
    ensures { IfOk result (λ line. line ≡ front.now ++ (decimal limit ++ (codes " for entry " ++ (decimal entry ++ codes "\n")))) }
{
    let mut digits = Buffer::new();
    let mut numeral = Buffer::new();
    EndingLine::of_pieces(
        alloc,
        &[
            front,
            digits.format(limit).as_bytes(),
            b" for entry ",
            numeral.format(entry).as_bytes(),
            b"\n",
        ],
    )
}
