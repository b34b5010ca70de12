//! The words behind a command that are neither options nor their values.

ghost use Rattle.std.specs.Prelude.{◌≡◌, map};
ghost use Rattle.dns_data.specs.Answers.{AnswersOr};
ghost use Rattle.groot_line.specs.Operands.{asked_file, asked_name, asked_type, only_meta, two_files, drill_number};

use crate::fault::LineFault;
use crate::number::number_to;
use crate::program::Program;
use dns_data::{Name, NameFault, RrType, Text};
use std::alloc::Global;

/// The most zones that a drill makes files of.
const MOST_ZONES: u32 = 5_000;

/// The metadata file, if its word is the only operand.
pub(crate) fn only_meta(alloc: Global, operands: &[&str]) -> Result<Text, LineFault>
    ensures { AnswersOr LineFault.NoMemory result (only_meta (map (λ word. word.now) operands.now)) }
{
    match operands {
        [meta] => asked_file(alloc, meta),
        _ => Err(LineFault::Usage),
    }
}

/// The two files, in order, if their words are the only operands.
pub(crate) fn two_files(alloc: Global, operands: &[&str]) -> Result<(Text, Text), LineFault>
    ensures { AnswersOr LineFault.NoMemory result (two_files (map (λ word. word.now) operands.now)) }
{
    let [first, second] = operands else {
        return Err(LineFault::Usage);
    };
    let first = asked_file(alloc, first)?;
    let second = asked_file(alloc, second)?;
    Ok((first, second))
}

/// The file that a word names. The word has an octet.
pub(crate) fn asked_file(alloc: Global, word: &str) -> Result<Text, LineFault>
    ensures { AnswersOr LineFault.NoMemory result (asked_file word.now) }
{
    if word.is_empty() {
        return Err(LineFault::Usage);
    }
    Ok(Text::from_str(alloc, word)?)
}

/// The query name that a word stands for under the root.
pub(crate) fn asked_name(alloc: Global, word: &str) -> Result<Name, LineFault>
    ensures { AnswersOr LineFault.NoMemory result (asked_name word.now) }
{
    match Name::from_text(alloc, word.as_bytes(), &Name::root()) {
        Ok(name) => Ok(name),
        Err(NameFault::NoMemory) => Err(LineFault::NoMemory),
        Err(_) => Err(LineFault::Usage),
    }
}

/// The type with this word, in any case.
pub(crate) fn asked_type(word: &str) -> Result<RrType, LineFault>
    ensures { result ≡ asked_type word.now }
{
    match RrType::from_word(word.as_bytes()) {
        Some(rtype) => Ok(rtype),
        None => Err(LineFault::Usage),
    }
}

/// The number of zones of a drill, if the word for it is the only operand.
pub(crate) fn drill_number(program: Program, operands: &[&str]) -> Result<u32, LineFault>
    ensures { result ≡ drill_number program (map (λ word. word.now) operands.now) }
{
    let [word] = operands else {
        return Err(LineFault::Usage);
    };
    match number_to(program, MOST_ZONES, word.as_bytes()) {
        Some(number) => Ok(number),
        None => Err(LineFault::Usage),
    }
}
