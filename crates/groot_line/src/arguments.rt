//! The words behind a command, which `clap` reads: options with their values, and operands.

ghost use Rattle.std.specs.Prelude.{◌≡◌, ◌⊎◌, map, IfOk, IfErr, Ok, Err};
ghost use Rattle.std.specs.List.{list_all};
ghost use Rattle.clap.specs.Simple.{app_of};
ghost use Rattle.clap.specs.Values.{kind_of};
ghost use Rattle.groot_line.specs.Arguments.{arguments_of, value_given};
ghost use Rattle.groot_line.specs.Line.{command_line, with_option};
ghost use Rattle.groot_line.specs.Matches.{refusal_by, is_in_form, arguments_in};
ghost use Rattle.groot_line.specs.Number.{number_by};

use crate::command::Command;
use crate::fault::LineFault;
use crate::line_option::LineOption;
use crate::number::number_to;
use crate::program::Program;
use clap::error::ErrorKind;
use clap::{Arg, ArgAction, ArgMatches, Error};
use std::alloc::{AllocError, Global};

/// What the words behind a command say.
pub(crate) fn read_arguments<'a>(
    alloc: Global,
    command: Command,
    words: &'a [&'a str],
) -> Result<ArgMatches<'a>, LineFault>
    ensures ok { IfOk result (λ matches. arguments_of command (map (λ word. word.now) words.now) ≡ Ok (arguments_in matches)) }
    ensures err { IfErr result (λ fault. (fault ≡ LineFault.NoMemory)
        ⊎ (arguments_of command (map (λ word. word.now) words.now) ≡ Err fault)) }
{
    if !are_in_form(words) {
        return Err(LineFault::Usage);
    }
    let line = command_line(alloc, command)?;
    match line.try_get_matches_from(words) {
        Ok(matches) => Ok(matches),
        Err(error) => Err(refusal_by(&error)),
    }
}

/// The fault of an error of `clap`.
fn refusal_by(error: &Error) -> LineFault
    ensures { result ≡ refusal_by (kind_of error.now) }
{
    match error.kind() {
        ErrorKind::OutOfMemory => LineFault::NoMemory,
        _ => LineFault::Usage,
    }
}

/// Whether all words are in form.
fn are_in_form(words: &[&str]) -> bool
    ensures { result ≡ list_all (λ word. is_in_form word.now) words.now }
{
    words.iter().all(|word| is_in_form(word))
}

/// Whether the word begins with no dash, or with two and something behind them: `clap` would take `--`, and `-` as an
/// operand.
fn is_in_form(word: &str) -> bool
    ensures { result ≡ is_in_form word.now }
{
    match word.as_bytes() {
        [b'-', b'-', _, ..] => true,
        [b'-', ..] => false,
        _ => true,
    }
}

/// The command as `clap` is told it.
fn command_line<'a>(alloc: Global, command: Command) -> Result<clap::Command<'a>, AllocError>
    ensures { IfOk result (λ line. app_of line ≡ command_line command) }
{
    let line = clap::Command::new(alloc, "groot")
        .no_binary_name(true)
        .disable_help_flag(true);
    let line = with_option(alloc, command, LineOption::Workers, line)?;
    let line = with_option(alloc, command, LineOption::Classes, line)?;
    let line = with_option(alloc, command, LineOption::Rewrites, line)?;
    line.arg(Arg::new(alloc, "operands").action(ArgAction::Append))
}

/// With an option, if the command has it.
fn with_option<'a>(
    alloc: Global,
    command: Command,
    option: LineOption,
    line: clap::Command<'a>,
) -> Result<clap::Command<'a>, AllocError>
    ensures { IfOk result (λ more. app_of more ≡ with_option command option (app_of line.entry)) }
{
    if !command.has(option) {
        return Ok(line);
    }
    line.arg(Arg::new(alloc, option.name()).long(option.name()))
}

/// The number of an option.
pub(crate) fn number(
    program: Program,
    matches: &ArgMatches<'_>,
    option: LineOption,
) -> Result<u32, LineFault>
    ensures { result ≡ number_by program option (value_given option (arguments_in matches.now)) }
{
    match matches.get_str(option.name()) {
        None => Ok(option.unsaid(program)),
        Some(value) => {
            number_to(program, option.most(program), value.as_bytes()).ok_or(LineFault::Usage)
        }
    }
}
