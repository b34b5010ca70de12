//! Reading the file of a part's names.

ghost use Rattle.std.specs.Prelude.{◌+◌, ◌<◌, ◌^◌, length};
ghost use Rattle.dns_data.specs.Answers.{AnswersOr};
ghost use Rattle.part_names.specs.PartNames.{names_in};

use crate::fault::NamesFault;
use crate::lines::first_line;
use crate::names::PartNames;
use std::alloc::Global;

/// The names of a part that a file's octets tell, with fewer than 4,294,967,295 octets. It is `Line` with the number of
/// the first line that tells none.
pub fn read_part_names(alloc: Global, octets: &[u8]) -> Result<PartNames, NamesFault>
    requires { length octets.now + 1 < 2 ^ 32 }
    ensures { AnswersOr NamesFault.NoMemory result (names_in octets.now) }
{
    let mut names = PartNames::new(alloc);
    let mut number = 1;
    let mut rest = octets;
    loop {
        let (line, behind) = first_line(rest);
        if !names.put_line(alloc, line)? {
            return Err(NamesFault::Line(number));
        }
        match behind {
            Some(text) => rest = text,
            None => return Ok(names),
        }
        number += 1;
    }
}
