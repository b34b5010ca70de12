//! What the words of the command line ask for.

ghost use Rattle.std.specs.Prelude.{◌≡◌, ◌&&◌, ◌==◌, ◌∷◌, not, codes, length, map, Ok, IfOk};
ghost use Rattle.std.specs.List.{list_all};
ghost use Rattle.dns_data.specs.Rdata.{octets_eq};
ghost use Rattle.parts_run.specs.Words.{is_file, job_of, part_asked, part_by, usage_line};

use dns_data::{List, NoMemory, Text};
use groot_line::{Job, LineFault, Program, Task, read_words_of};
use report_run::CheckLimits;
use std::alloc::Global;

/// What the words ask for.
#[derive(Debug, Drop)]
pub(crate) enum PartsJob {
    /// The report of the whole, from the reports that the files of these names hold, in order.
    Merge {
        files: List<Text>,
    },
    /// The report of the part whose names stand in a file, of the configuration that a metadata file gives.
    Part {
        meta: Text,
        names: Text,
        limits: CheckLimits,
    },
}

/// What the words ask for, or `None` where they ask for nothing.
pub(crate) fn read_words(alloc: Global, words: &[&str]) -> Result<Option<PartsJob>, NoMemory>
    ensures { IfOk result (λ job. job ≡ job_of (map (λ word. word.now) words.now)) }
{
    let Some((word, rest)) = words.split_first() else {
        return Ok(None);
    };
    if asks_merge(word, rest) {
        let files = texts_of(alloc, rest)?;
        return Ok(Some(PartsJob::Merge { files }));
    }
    if asks_part(word) {
        return part_asked(alloc, rest);
    }
    Ok(None)
}

/// Whether this word, with these behind it, asks that the reports of some files be merged.
fn asks_merge(word: &str, files: &[&str]) -> bool
    ensures { result ≡ (octets_eq word.now (codes "merge") && (not (length files.now == 0) && list_all (λ file. is_file file.now) files.now)) }
{
    word.as_bytes() == b"merge".as_slice() && !files.is_empty() && are_files(files)
}

/// Whether this word asks for the report of a part.
fn asks_part(word: &str) -> bool
    ensures { result ≡ octets_eq word.now (codes "part") }
{
    word.as_bytes() == b"part".as_slice()
}

/// Whether each word names a file.
fn are_files(words: &[&str]) -> bool
    ensures { result ≡ list_all (λ word. is_file word.now) words.now }
{
    words.iter().all(|word| is_file(word))
}

/// Whether the word names a file.
fn is_file(word: &str) -> bool
    ensures { result ≡ is_file word.now }
{
    !word.is_empty() && !word.as_bytes().starts_with(b"-")
}

/// The report of a part, if the words behind `part` ask for one: a metadata file, the file of the part's names, and the
/// options of a check.
fn part_asked(alloc: Global, words: &[&str]) -> Result<Option<PartsJob>, NoMemory>
    ensures { IfOk result (λ job. job ≡ part_asked (map (λ word. word.now) words.now)) }
{
    let [meta, names, options @ ..] = words else {
        return Ok(None);
    };
    if !is_file(names) {
        return Ok(None);
    }
    let line = check_line(alloc, meta, options)?;
    match read_words_of(alloc, Program::GrootLarge, line.as_slice()) {
        Ok(job) => part_by(alloc, names, job),
        Err(LineFault::Usage) => Ok(None),
        Err(LineFault::NoMemory) => Err(NoMemory),
    }
}

/// The words that ask `groot-large` for a check of this metadata file, with these options.
fn check_line<'a>(
    alloc: Global,
    meta: &'a str,
    options: &[&'a str],
) -> Result<Vec<&'a str>, NoMemory>
    ensures { IfOk result (λ line. map (λ word. word.now) line.items ≡ codes "check" ∷ meta.now ∷ map (λ word. word.now) options.now) }
{
    let mut line = Vec::new(alloc);
    line.push("check")?;
    line.push(meta)?;
    for word in options {
        line.push(*word)?;
    }
    Ok(line)
}

/// The report of the part that has the names in this file, if the job is a check.
fn part_by(alloc: Global, names: &str, job: Job) -> Result<Option<PartsJob>, NoMemory>
    ensures { IfOk result (λ found. found ≡ part_by names.now (Ok job)) }
{
    let names = Text::from_str(alloc, names)?;
    match job {
        Job::OfConfig { meta, task } => match task {
            Task::Check {
                workers,
                classes,
                rewrites,
            } => {
                let limits = CheckLimits {
                    workers,
                    classes,
                    rewrites,
                };
                Ok(Some(PartsJob::Part {
                    meta,
                    names,
                    limits,
                }))
            }
            _ => Ok(None),
        },
        _ => Ok(None),
    }
}

/// The words, copied.
fn texts_of(alloc: Global, words: &[&str]) -> Result<List<Text>, NoMemory>
    ensures { IfOk result (λ texts. texts ≡ map (λ word. word.now) words.now) }
{
    let mut texts = List::new(alloc);
    for word in words {
        texts.push(Text::from_str(alloc, word)?)?;
    }
    Ok(texts)
}

/// The line on err where the words ask for nothing, with its line feed.
pub(crate) fn usage_line() -> &'static str
    ensures { result.now ≡ usage_line }
{
    "usage: groot-parts part META NAMES [--workers N] [--classes N] [--rewrites K] | merge REPORT ..\n"
}
