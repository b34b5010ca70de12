//! The zone of a row.

ghost use Rattle.std.specs.Prelude.{◌≡◌, ◌⊎◌, IfOk};
ghost use Rattle.std.specs.Option.{option_map};
ghost use Rattle.dns_data.specs.Answers.{AnswersOr, with_fault};
ghost use Rattle.net_model.specs.Configured.{KeepsWithin};
ghost use Rattle.zone_rules.specs.ZoneOf.{zone_of};
ghost use Rattle.config_load.specs.Conf.{zone_read};
ghost use Rattle.config_load.specs.Faults.{name_numbered, of_rule};
ghost use Rattle.config_load.specs.Sources.{HasAnswered};
ghost use Rattle.zone_rules.specs.declared.fault.RuleFault.TheVariants.{At};

use crate::fault::LoadFault;
use crate::limits::Limits;
use crate::zone_files::read_zone_files;
use dns_data::{List, Name, NoMemory, Rr, Text};
use io_edges::Files;
use meta_read::MetaRow;
use net_model::Zone;
use std::alloc::Global;
use zone_rules::{RuleCause, RuleFault, check_zone};

/// A zone, the names of its files in the order in which they were opened, and what reading it left.
#[derive(Drop)]
pub(crate) struct ReadZone {
    pub zone: Zone,
    pub names: List<Text>,
    pub left: Limits,
}

/// The zone of a row, by the rules of zones, where so much may still be read.
pub(crate) fn read_zone<F: Files>(
    alloc: Global,
    files: &mut F,
    meta: &str,
    row: &MetaRow,
    left: Limits,
) -> Result<ReadZone, LoadFault>
    ensures reads { HasAnswered (F.told files.old) (F.told files.new) (F.faults files.old) (F.faults files.new) (zone_read meta.now row.now left) result }
    ensures within { IfOk result (λ read. KeepsWithin read.zone) }
{
    let read = read_zone_files(alloc, files, meta, row, left)?;
    let left = left.behind(read.text.seen, read.text.included);
    let names = read.names;
    let zone = checked(alloc, &names, row.origin.as_ref(), read.text.rrs)?;
    Ok(ReadZone { zone, names, left })
}

/// An equal zone.
pub(crate) fn copied_zone(alloc: Global, zone: &Zone) -> Result<Zone, NoMemory>
    ensures { IfOk result (λ copy. copy ≡ zone.now) }
{
    let origin = zone.origin.copy(alloc)?;
    let rrs = copied_records(alloc, zone.rrs.items())?;
    Ok(Zone { origin, rrs })
}

/// Equal records, in their order.
fn copied_records(alloc: Global, rrs: &[Rr]) -> Result<List<Rr>, NoMemory>
    ensures { IfOk result (λ copies. copies ≡ rrs.now) }
{
    let mut copies = Vec::with_capacity(alloc, rrs.len())?;
    for rr in rrs {
        copies.push(rr.copy(alloc)?)?;
    }
    Ok(List::from_vec(copies))
}

/// The zone of the records of files with these names.
fn checked(
    alloc: Global,
    names: &List<Text>,
    origin: Option<&Name>,
    rrs: List<Rr>,
) -> Result<Zone, LoadFault>
    ensures answers { AnswersOr LoadFault.NoMemory result
        (with_fault (of_rule names.now) (zone_of (option_map (λ name. name.now) origin.entry) rrs)) }
    ensures within { IfOk result KeepsWithin }
{
    match check_zone(alloc, origin, rrs) {
        Ok(zone) => Ok(zone),
        Err(RuleFault::At { file, line, cause }) => Err(broken(alloc, names, file, line, cause)),
        Err(RuleFault::NoMemory) => Err(LoadFault::NoMemory),
    }
}

/// The fault of a rule that a record of the file of this number breaks, told with the file's name.
fn broken(alloc: Global, names: &List<Text>, file: u32, line: u32, cause: RuleCause) -> LoadFault
    ensures { (result ≡ of_rule names.now (At file line cause)) ⊎ (result ≡ LoadFault.NoMemory) }
{
    match copied_name(alloc, names, file) {
        Ok(file) => LoadFault::Rule { file, line, cause },
        Err(NoMemory) => LoadFault::NoMemory,
    }
}

/// The name of the file of this number.
fn copied_name(alloc: Global, names: &List<Text>, number: u32) -> Result<Text, NoMemory>
    ensures { IfOk result (λ name. name ≡ name_numbered names.now number) }
{
    match names.items().get(number as usize) {
        Some(name) => name.copy(alloc),
        None => Ok(Text::from_string(String::new(alloc))),
    }
}
