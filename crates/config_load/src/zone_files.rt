//! The files of a zone.

ghost use Rattle.std.specs.Prelude.{◌≡◌, [], ◌∷◌, ◌++◌, false, IfOk, IfErr, OnOk, unwrap_or};
ghost use Rattle.config_load.specs.Conf.{zone_files};
ghost use Rattle.config_load.specs.Faults.{FailedAt, name_numbered};
ghost use Rattle.config_load.specs.Fed.{HasFed, FailsToRead};
ghost use Rattle.config_load.specs.Joined.{joined};
ghost use Rattle.config_load.specs.ReadFiles.{read_files};
ghost use Rattle.config_load.specs.Sources.{HasAnswered, ReadsOnly};

use crate::fault::LoadFault;
use crate::file::feed_whole;
use crate::joined::joined_name;
use crate::limits::Limits;
use dns_data::{List, Name, NoMemory, Text};
use io_edges::Files;
use master_read::{AfterFile, TextFault, ZoneReader, ZoneText};
use meta_read::MetaRow;
use std::alloc::Global;

/// The files of a zone, which were read: their names, in the order in which they were opened, and what they gave.
#[derive(Drop)]
pub(crate) struct ZoneFiles {
    pub names: List<Text>,
    pub text: ZoneText,
}

/// The files of a row's zone: its file, and those that are included.
pub(crate) fn read_zone_files<F: Files>(
    alloc: Global,
    files: &mut F,
    meta: &str,
    row: &MetaRow,
    left: Limits,
) -> Result<ZoneFiles, LoadFault>
    ensures { HasAnswered (F.told files.old) (F.told files.new) (F.faults files.old) (F.faults files.new) (zone_files meta.now row.now left) result }
{
    let origin = origin_of(alloc, row)?;
    let mut reader = ZoneReader::new(alloc, origin, left.records, left.includes);
    let mut names = List::new(alloc);
    let mut asked = feed_next(
        alloc,
        left,
        files,
        meta,
        row.file.as_str(),
        &mut names,
        &mut reader,
    )?;
    while let AfterFile::Include { file } = asked {
        asked = feed_next(
            alloc,
            left,
            files,
            meta,
            file.as_str(),
            &mut names,
            &mut reader,
        )?;
    }
    told(alloc, names, reader.finish())
}

/// Reads a file of the metadata, or an included one, to its end, and feeds its octets to the reader, whose open file it
/// is. The name under which it was opened is put behind the others. It answers what comes behind the file.
fn feed_next<F: Files>(
    alloc: Global,
    left: Limits,
    files: &mut F,
    meta: &str,
    file: &str,
    names: &mut List<Text>,
    reader: &mut ZoneReader,
) -> Result<AfterFile, LoadFault>
    requires open { reader.old.ended ≡ false }
    requires none { reader.old.fed ≡ 0 }
    ensures named { OnOk result (names.new ≡ names.old ++ joined meta.now file.now ∷ []) }
    ensures asked { IfOk result (λ asked. HasFed left (F.told files.new) (joined meta.now file.now) reader.old asked reader.new) }
    ensures fault { IfErr result (FailsToRead left (F.told files.new) (joined meta.now file.now)) }
    ensures cause { FailedAt (F.faults files.old) (F.faults files.new) result }
    ensures only { ReadsOnly (joined meta.now file.now) (F.told files.old) (F.told files.new) (F.faults files.old) (F.faults files.new) }
{
    let name = joined_name(alloc, meta, file)?;
    let asked = feed_whole(alloc, left, files, name.as_str(), reader)?;
    names.push(name)?;
    Ok(asked)
}

/// The origin of a row's file: the root, where the row states none.
fn origin_of(alloc: Global, row: &MetaRow) -> Result<Name, NoMemory>
    ensures { IfOk result (λ origin. origin ≡ unwrap_or row.now.origin []) }
{
    match &row.origin {
        Some(origin) => origin.copy(alloc),
        None => Ok(Name::root()),
    }
}

/// What the texts of files with these names gave, their fault told with the name of its file.
fn told(
    alloc: Global,
    names: List<Text>,
    given: Result<ZoneText, TextFault>,
) -> Result<ZoneFiles, LoadFault>
    ensures { result ≡ read_files names given }
{
    match given {
        Ok(text) => Ok(ZoneFiles { names, text }),
        Err(TextFault::At { file, line, cause }) => Err(LoadFault::Text {
            file: name_numbered(alloc, names, file),
            line,
            cause,
        }),
        Err(TextFault::NoMemory) => Err(LoadFault::NoMemory),
    }
}

/// Equal names of files, in their order.
pub(crate) fn copied_names(alloc: Global, names: &[Text]) -> Result<List<Text>, NoMemory>
    ensures { IfOk result (λ copies. copies ≡ names.now) }
{
    let mut copies = List::new(alloc);
    for name in names {
        copies.push(name.copy(alloc)?)?;
    }
    Ok(copies)
}

/// The name of the file of this number.
fn name_numbered(alloc: Global, names: List<Text>, number: u32) -> Text
    ensures { result ≡ name_numbered names number }
{
    let mut names = names.into_vec();
    let place = number as usize;
    if place < names.len() {
        names.swap_remove(place)
    } else {
        Text::from_string(String::new(alloc))
    }
}
