//! Reading files to their ends.

ghost use Rattle.std.specs.Prelude.{◌≡◌, ◌+◌, ◌<◌, ◌≤◌, ◌++◌, length, take, vec_len, false, IfOk, IfErr, OnOk};
ghost use Rattle.io_edges.specs.Counts.{NoneFell};
ghost use Rattle.io_edges.specs.Files.{FilesTold, Holds, StaysTold, TellsAll, first_told};
ghost use Rattle.config_load.specs.Faults.{FailedAt, IsReadOf};
ghost use Rattle.config_load.specs.Fed.{HasFed, FailsToRead, IsFed};
ghost use Rattle.config_load.specs.Load.{Gives, FailedWhereItCame, OpensNoOther};
ghost use Rattle.config_load.specs.Limits.{largest_octets};
ghost use Rattle.config_load.specs.Reading.{file_octets};
ghost use Rattle.config_load.specs.Sources.{ReadsOnly, HasAnswered};

use crate::fault::LoadFault;
use crate::limits::Limits;
use dns_data::List;
use io_edges::Files;
use master_read::{AfterFile, ZoneReader};
use std::alloc::Global;

/// How many octets a read asks for.
const PIECE: usize = 4_096;

/// The octets of the file of this name, which is opened as it stands and read to its end. It is `TooLong` where the
/// file has more octets than the limits allow.
pub fn read_file<F: Files>(
    alloc: Global,
    limits: Limits,
    files: &mut F,
    name: &str,
) -> Result<List<u8>, LoadFault>
    // What it answers is what the file gives, by what is told of it after the call and by whatever tells more.
    ensures gives { Gives (file_octets limits name.now (F.told files.new)) result }
    ensures later { (later : FilesTold) → StaysTold (F.told files.new) later → Gives (file_octets limits name.now later) result }

    // A failed read is of this file, and has its cause in a count.
    ensures cause { FailedAt (F.faults files.old) (F.faults files.new) result }
    ensures order { FailedWhereItCame (file_octets limits name.now) (F.told files.new) result }

    // What the call does to the source. One that told all from the start tells the same after the call.
    ensures stays { StaysTold (F.told files.old) (F.told files.new) }
    ensures from_the_start { TellsAll (F.told files.old) → F.told files.new ≡ F.told files.old }
    ensures opens { OpensNoOther (file_octets limits name.now) (F.told files.old) (F.told files.new) }
    ensures never_fall { NoneFell (F.faults files.old) (F.faults files.new) }
{
    read_whole(alloc, limits, files, name)
}

/// The octets of the file of this name, read to its end.
pub(crate) fn read_whole<F: Files>(
    alloc: Global,
    limits: Limits,
    files: &mut F,
    name: &str,
) -> Result<List<u8>, LoadFault>
    ensures { HasAnswered (F.told files.old) (F.told files.new) (F.faults files.old) (F.faults files.new) (file_octets limits name.now) result }
{
    let most = limits.most_octets();
    let mut octets = Vec::new(alloc);
    let mut piece = [0; PIECE];
    while octets.len() <= most {
        let room = PIECE.min(most + 1 - octets.len());
        let count = read_more(alloc, files, name, &mut octets, &mut piece[..room])?;
        if count == 0 {
            return Ok(List::from_vec(octets));
        }
    }
    Err(LoadFault::too_long(alloc, name))
}

/// Reads the octets of a file that follow those that were read, at most as many as the piece has, and answers how
/// many there were: none at the file's end.
fn read_more<F: Files>(
    alloc: Global,
    files: &mut F,
    name: &str,
    octets: &mut Vec<u8>,
    piece: &mut [u8],
) -> Result<usize, LoadFault>
    requires read { octets.old.items ≡ first_told (F.told files.old name.now) (vec_len octets.old) }
    requires some { 0 < length piece.old }
    ensures front { OnOk result (octets.new.items ≡ first_told (F.told files.new name.now) (vec_len octets.new)) }
    ensures grown { IfOk result (λ count. vec_len octets.new ≡ vec_len octets.old + count) }
    ensures fits { IfOk result (λ count. count ≤ length piece.old) }
    ensures end { IfOk result (λ count. count ≡ 0 → F.told files.new name.now ≡ Holds octets.new.items) }
    ensures fault { IfErr result (IsReadOf name.now) }
    ensures cause { FailedAt (F.faults files.old) (F.faults files.new) result }
    ensures only { ReadsOnly name.now (F.told files.old) (F.told files.new) (F.faults files.old) (F.faults files.new) }
{
    let count = read_at(alloc, files, name, octets.len(), piece)?;
    octets.extend_from_slice(&piece[..count])?;
    Ok(count)
}

/// Reads the octets of a file from the octet `at` on, up to which it was read, and answers how many there were: none at
/// the file's end.
fn read_at<F: Files>(
    alloc: Global,
    files: &mut F,
    name: &str,
    at: usize,
    piece: &mut [u8],
) -> Result<usize, LoadFault>
    requires read { length (first_told (F.told files.old name.now) at) ≡ at }
    requires some { 0 < length piece.old }
    ensures front { IfOk result (λ count. first_told (F.told files.new name.now) (at + count)
        ≡ first_told (F.told files.old name.now) at ++ take count piece.new) }
    ensures long { IfOk result (λ count. length (first_told (F.told files.new name.now) (at + count)) ≡ at + count) }
    ensures fits { IfOk result (λ count. count ≤ length piece.old) }
    ensures end { IfOk result (λ count. count ≡ 0
        → F.told files.new name.now ≡ Holds (first_told (F.told files.new name.now) at)) }
    ensures fault { IfErr result (IsReadOf name.now) }
    ensures cause { FailedAt (F.faults files.old) (F.faults files.new) result }
    ensures only { ReadsOnly name.now (F.told files.old) (F.told files.new) (F.faults files.old) (F.faults files.new) }
{
    match files.read(name, at as u64, piece) {
        Ok(count) => Ok(count),
        Err(_) => Err(LoadFault::read(alloc, name)),
    }
}

/// Reads the file of this name to its end, feeds its octets to the reader, whose open file it is, and says that it has
/// ended. It answers what comes behind it.
pub(crate) fn feed_whole<F: Files>(
    alloc: Global,
    limits: Limits,
    files: &mut F,
    name: &str,
    reader: &mut ZoneReader,
) -> Result<AfterFile, LoadFault>
    requires open { reader.old.ended ≡ false }
    requires none { reader.old.fed ≡ 0 }
    ensures asked { IfOk result (λ asked. HasFed limits (F.told files.new) name.now reader.old asked reader.new) }
    ensures fault { IfErr result (FailsToRead limits (F.told files.new) name.now) }
    ensures cause { FailedAt (F.faults files.old) (F.faults files.new) result }
    ensures only { ReadsOnly name.now (F.told files.old) (F.told files.new) (F.faults files.old) (F.faults files.new) }
{
    let most = limits.most_octets();
    let mut at = 0;
    let mut piece = [0; PIECE];
    while at <= most {
        let room = PIECE.min(most + 1 - at);
        let count = feed_more(alloc, files, name, at, reader, &mut piece[..room])?;
        if count == 0 {
            return Ok(reader.end_file(alloc)?);
        }
        at += count;
    }
    Err(LoadFault::too_long(alloc, name))
}

/// Reads the octets of a file from the octet `at` on, up to which they were fed, feeds them, and answers how many there
/// were: none at the file's end.
fn feed_more<F: Files>(
    alloc: Global,
    files: &mut F,
    name: &str,
    at: usize,
    reader: &mut ZoneReader,
    piece: &mut [u8],
) -> Result<usize, LoadFault>
    requires read { length (first_told (F.told files.old name.now) at) ≡ at }
    requires some { 0 < length piece.old }
    requires room { at + length piece.old ≤ largest_octets + 1 }
    requires open { reader.old.ended ≡ false }
    requires fed { reader.old.fed ≡ at }
    ensures stands { IfOk result (λ count. IsFed reader.old (first_told (F.told files.old name.now) at)
        reader.new (first_told (F.told files.new name.now) (at + count))) }
    ensures long { IfOk result (λ count. length (first_told (F.told files.new name.now) (at + count)) ≡ at + count) }
    ensures fed { IfOk result (λ count. reader.new.fed ≡ at + count) }
    ensures fits { IfOk result (λ count. count ≤ length piece.old) }
    ensures end { IfOk result (λ count. count ≡ 0
        → F.told files.new name.now ≡ Holds (first_told (F.told files.new name.now) at)) }
    ensures open { OnOk result (reader.new.ended ≡ false) }
    ensures fault { IfErr result (IsReadOf name.now) }
    ensures cause { FailedAt (F.faults files.old) (F.faults files.new) result }
    ensures only { ReadsOnly name.now (F.told files.old) (F.told files.new) (F.faults files.old) (F.faults files.new) }
{
    let count = read_at(alloc, files, name, at, piece)?;
    reader.feed(alloc, &piece[..count])?;
    Ok(count)
}
