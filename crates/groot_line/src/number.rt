//! Numbers on the command line.

ghost use Rattle.std.specs.Prelude.{◌≡◌};
ghost use Rattle.groot_line.specs.Number.{number_to};

use crate::program::Program;
use dns_data::read_number;

/// The number from 1 up to the most that a word writes in no more digits than the program reads.
pub(crate) fn number_to(program: Program, most: u32, word: &[u8]) -> Option<u32>
    ensures { result ≡ number_to program most word.now }
{
    match read_number(word, program.most_digits(), most) {
        Some(0) => None,
        number => number,
    }
}
