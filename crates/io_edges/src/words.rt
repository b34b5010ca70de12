//! The words of the command line.

ghost use Rattle.std.specs.Prelude.{◌≡◌, map, IfOk};
ghost use Rattle.std.specs.String.{string_bytes};

use dns_data::NoMemory;
use std::alloc::Global;
use std::io::{self, ErrorKind};
use std::{env, rt};

/// The words behind the program's name, or none where one of them isn't UTF-8. An error means that memory ran out.
pub fn command_words<R: rt::Env + AllocGlobal>(rt: &R) -> Result<Vec<String>, NoMemory> {
    match words_behind_name(rt) {
        Ok(words) => Ok(words),
        Err(error) => match error.kind() {
            ErrorKind::OutOfMemory => Err(NoMemory),
            _ => Ok(Vec::new(rt.alloc())),
        },
    }
}

/// The words behind the program's name. A word that isn't UTF-8 is an error.
fn words_behind_name<R: rt::Env + AllocGlobal>(rt: &R) -> io::Result<Vec<String>> {
    let mut words = Vec::new(rt.alloc());
    for word in env::args(rt)?.skip(1) {
        words.push(word)?;
    }
    Ok(words)
}

/// The same words in the same order, borrowed. An error means that memory ran out.
pub fn borrowed_words<'a>(alloc: Global, words: &'a [String]) -> Result<Vec<&'a str>, NoMemory>
    ensures { IfOk result (λ all. map (λ word. word.now) all.items ≡ map string_bytes words.now) }
{
    let mut all = Vec::new(alloc);
    for word in words {
        all.push(word.as_str())?;
    }
    Ok(all)
}
