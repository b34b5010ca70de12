//! What the words of the command line ask for.

ghost use Rattle.std.specs.Prelude.{map};
ghost use Rattle.dns_data.specs.Answers.{AnswersOr};
ghost use Rattle.groot_line.specs.Matches.{arguments_in};
ghost use Rattle.groot_line.specs.Job.{job_of, job_asked, job_by, asked, asked_scope};

use crate::arguments::{number, read_arguments};
use crate::command::Command;
use crate::fault::LineFault;
use crate::line_option::LineOption;
use crate::operands::{asked_file, asked_name, asked_type, drill_number, only_meta, two_files};
use crate::program::Program;
use clap::ArgMatches;
use dns_data::{Name, RrType, Text};
use std::alloc::Global;

/// What the words of the command line ask for.
#[derive(Debug, Drop)]
pub enum Job {
    /// What is asked of the configuration that a metadata file gives.
    OfConfig { meta: Text, task: Task },
    /// The report of this many zones that are made for it.
    Drill { n: u32, workers: u32 },
    /// Whether the entries of a report are right in the configuration that a metadata file gives.
    Recheck { meta: Text, report: Text },
    /// Whether the configurations that two metadata files give have the same answers.
    Same { first: Text, second: Text },
    /// The reports on the queries at or below each name of a file, in the configuration that a metadata file gives.
    Scopes { meta: Text, names: Text },
}

/// What is asked of one configuration.
#[derive(Debug, Drop)]
pub enum Task {
    /// The report of the configuration.
    Check {
        workers: u32,
        classes: u32,
        rewrites: u32,
    },
    /// All walks of one query.
    Ask {
        name: Name,
        rtype: RrType,
    },
    /// The classes of query names.
    Classes {
        classes: u32,
    },
    /// What the checks of sites find in the configuration.
    Site,
    /// The report on the queries at or below a name, and what the checks of sites find in their classes.
    Scope {
        name: Name,
    },
}

/// The job that the words ask of `groot`, as of `read_words_of`.
pub fn read_words(alloc: Global, words: &[&str]) -> Result<Job, LineFault>
    ensures { AnswersOr LineFault.NoMemory result (job_of (map (λ word. word.now) words.now)) }
{
    read_words_of(alloc, Program::Groot, words)
}

/// The job that the words ask of the program. It is `Usage` exactly for the words that the format doesn't have.
pub fn read_words_of(alloc: Global, program: Program, words: &[&str]) -> Result<Job, LineFault>
    ensures { AnswersOr LineFault.NoMemory result (job_asked program (map (λ word. word.now) words.now)) }
{
    let [first, words @ ..] = words else {
        return Err(LineFault::Usage);
    };
    let Some(command) = Command::from_word(program, first.as_bytes()) else {
        return Err(LineFault::Usage);
    };
    let matches = read_arguments(alloc, command, words)?;
    job_by(alloc, program, command, &matches)
}

/// The job of a command and the words behind it.
fn job_by(
    alloc: Global,
    program: Program,
    command: Command,
    matches: &ArgMatches<'_>,
) -> Result<Job, LineFault>
    ensures { AnswersOr LineFault.NoMemory result (job_by program command (arguments_in matches.now)) }
{
    let operands = matches.get_strs("operands").unwrap_or(&[]);
    match command {
        Command::Check => Ok(Job::OfConfig {
            meta: only_meta(alloc, operands)?,
            task: Task::Check {
                workers: number(program, matches, LineOption::Workers)?,
                classes: number(program, matches, LineOption::Classes)?,
                rewrites: number(program, matches, LineOption::Rewrites)?,
            },
        }),
        Command::Ask => asked(alloc, operands),
        Command::Classes => Ok(Job::OfConfig {
            meta: only_meta(alloc, operands)?,
            task: Task::Classes {
                classes: number(program, matches, LineOption::Classes)?,
            },
        }),
        Command::Drill => Ok(Job::Drill {
            n: drill_number(program, operands)?,
            workers: number(program, matches, LineOption::Workers)?,
        }),
        Command::Site => Ok(Job::OfConfig {
            meta: only_meta(alloc, operands)?,
            task: Task::Site,
        }),
        Command::Recheck => {
            let (meta, report) = two_files(alloc, operands)?;
            Ok(Job::Recheck { meta, report })
        }
        Command::Same => {
            let (first, second) = two_files(alloc, operands)?;
            Ok(Job::Same { first, second })
        }
        Command::Scope => asked_scope(alloc, operands),
        Command::Scopes => {
            let (meta, names) = two_files(alloc, operands)?;
            Ok(Job::Scopes { meta, names })
        }
    }
}

/// The query that operands ask.
fn asked(alloc: Global, operands: &[&str]) -> Result<Job, LineFault>
    ensures { AnswersOr LineFault.NoMemory result (asked (map (λ word. word.now) operands.now)) }
{
    let [meta, name, rtype] = operands else {
        return Err(LineFault::Usage);
    };
    let meta = asked_file(alloc, meta)?;
    let name = asked_name(alloc, name)?;
    let rtype = asked_type(rtype)?;
    Ok(Job::OfConfig {
        meta,
        task: Task::Ask { name, rtype },
    })
}

/// The scope that operands name.
fn asked_scope(alloc: Global, operands: &[&str]) -> Result<Job, LineFault>
    ensures { AnswersOr LineFault.NoMemory result (asked_scope (map (λ word. word.now) operands.now)) }
{
    let [meta, name] = operands else {
        return Err(LineFault::Usage);
    };
    let meta = asked_file(alloc, meta)?;
    let name = asked_name(alloc, name)?;
    Ok(Job::OfConfig {
        meta,
        task: Task::Scope { name },
    })
}
