//! Reading the reports of parts.

ghost use Rattle.std.specs.Prelude.{[], Ok, map};
ghost use Rattle.dns_data.specs.Answers.{AnswersOr};
ghost use Rattle.config_load.specs.Sources.{HasAnswered};
ghost use Rattle.config_load.specs.declared.fault.LoadFault.TheVariants.{NoMemory as out_of_memory};
ghost use Rattle.part_form.specs.Stated.{part_in, part_of};
ghost use Rattle.parts_run.specs.Answered.{answered};
ghost use Rattle.parts_run.specs.Reading.{report_or, report_read, reports_read};

use crate::fault::ReadFault;
use config_load::{Limits, read_file};
use dns_data::{List, Text};
use io_edges::Files;
use part_form::{StatedPart, read_part};
use std::alloc::Global;

/// The reports that the files of these names hold, in order. It is `NotReport` with the first that holds none.
pub(crate) fn read_reports<F: Files>(
    alloc: Global,
    files: &mut F,
    names: &[Text],
) -> Result<List<StatedPart>, ReadFault>
    ensures { HasAnswered (F.told files.old) (F.told files.new) (F.faults files.old) (F.faults files.new) (reports_read [] names.now) (answered (map part_of) result) }
{
    let mut parts = List::new(alloc);
    for name in names {
        let part = read_report(alloc, files, name.as_str())?;
        parts.push(part)?;
    }
    Ok(parts)
}

/// The report that the file of this name holds.
fn read_report<F: Files>(alloc: Global, files: &mut F, name: &str) -> Result<StatedPart, ReadFault>
    ensures { HasAnswered (F.told files.old) (F.told files.new) (F.faults files.old) (F.faults files.new) (report_read name.now) (answered part_of result) }
{
    let octets = read_file(alloc, Limits::largest(), files, name)?;
    report_in(alloc, name, octets.items())
}

/// The report that a file's octets are.
fn report_in(alloc: Global, name: &str, octets: &[u8]) -> Result<StatedPart, ReadFault>
    ensures { AnswersOr out_of_memory (answered part_of result) (Ok (report_or name.now (part_in octets.now))) }
{
    match read_part(alloc, octets)? {
        Some(part) => Ok(part),
        None => Err(ReadFault::NotReport(Text::from_str(alloc, name)?)),
    }
}
