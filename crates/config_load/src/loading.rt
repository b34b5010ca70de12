//! Loading a configuration.

ghost use Rattle.std.specs.Prelude.{◌≡◌, ◌≤◌, ℕ, List, [], length, IfOk};
ghost use Rattle.dns_data.specs.Answers.{AnswersOr, with_fault};
ghost use Rattle.io_edges.specs.Counts.{NoneFell};
ghost use Rattle.io_edges.specs.Files.{FilesTold, StaysTold, TellsAll};
ghost use Rattle.meta_read.specs.Metadata.{metadata_within};
ghost use Rattle.config_load.specs.Conf.{conf, conf_unless, conf_within, loaded_unless, loaded_within, metadata, row_skips};
ghost use Rattle.config_load.specs.Faults.{FailedAt, of_metadata};
ghost use Rattle.config_load.specs.Left.{HasLeft, loaded_left};
ghost use Rattle.config_load.specs.Load.{Gives, FailedWhereItCame, IsReadFault, IsAnswerTo, NoFailureIn, NoReadFailed, OpensNoOther};
ghost use Rattle.config_load.specs.Reading.{Misses, Unknown};
ghost use Rattle.config_load.specs.Sources.{HasAnswered};
ghost use Rattle.config_load.specs.Taken.{AreTaken, GivesLeft, config_left};
ghost use Rattle.net_model.specs.Reading.{zones};

use crate::fault::LoadFault;
use crate::file::read_whole;
use crate::limits::Limits;
use crate::loaded::Loaded;
use crate::rows::read_rows;
use crate::taker::{WholeZones, ZoneTaker};
use io_edges::Files;
use meta_read::{Meta, read_metadata_within};
use net_model::Config;
use std::alloc::Global;

/// What `load_within` gives within the usual limits: 16,777,216 octets a file, 10,000 rows, and 1,000,000 record entries
/// and 1,000 included files in all.
pub fn load<F: Files>(alloc: Global, files: &mut F, meta: &str) -> Result<Config, LoadFault>
    // What it answers is what the files give, by what is told of them after the call and by whatever tells more.
    ensures gives { Gives (conf meta.now (F.told files.new)) result }
    ensures later { (later : FilesTold) → StaysTold (F.told files.new) later → Gives (conf meta.now later) result }
    ensures whole { NoReadFailed meta.now (F.told files.new) (F.faults files.old) (F.faults files.new)
        → IsAnswerTo (conf meta.now (F.told files.new)) result }

    // A failed read has its cause in a count, and comes before no refusal.
    ensures cause { FailedAt (F.faults files.old) (F.faults files.new) result }
    ensures order { FailedWhereItCame (conf meta.now) (F.told files.new) result }
    ensures misses { (file : List ℕ) → conf meta.now (F.told files.new) ≡ Misses file → IsReadFault result }
    ensures unknown { (file : List ℕ) → conf meta.now (F.told files.new) ≡ Unknown file → IsReadFault result }

    // What the call does to the source. One that told all from the start tells the same after the call.
    ensures stays { StaysTold (F.told files.old) (F.told files.new) }
    ensures from_the_start { TellsAll (F.told files.old) → F.told files.new ≡ F.told files.old }
    ensures opens { OpensNoOther (conf meta.now) (F.told files.old) (F.told files.new) }
    ensures never_fall { NoneFell (F.faults files.old) (F.faults files.new) }
{
    load_within(alloc, Limits::usual(), files, meta)
}

/// The configuration that a metadata file and the files that it names give, or the first refusal, in this order: the
/// metadata file is read to its end, then the metadata are; then in the order of rows each zone file is read to its
/// end, then its entries in order, with each included file read to its end at its place; then the zone is checked by
/// its rules; then it is `ZoneTwice` where an earlier row gave its server a zone of the same origin. A file of more
/// octets than the limits allow is `TooLong`. The zone files may have as many record entries and included files in all
/// as the limits say, and the metadata as many rows. The directory of the metadata file's name stands before each name
/// that doesn't begin with `/`. Servers stand in the order of their first rows, the zones of each in the order of rows.
/// Nothing is left of what was read where it is refused.
pub fn load_within<F: Files>(
    alloc: Global,
    limits: Limits,
    files: &mut F,
    meta: &str,
) -> Result<Config, LoadFault>
    // What it answers is what the files give, by what is told of them after the call and by whatever tells more.
    ensures gives { Gives (conf_within limits meta.now (F.told files.new)) result }
    ensures later { (later : FilesTold) → StaysTold (F.told files.new) later → Gives (conf_within limits meta.now later) result }
    ensures whole { NoFailureIn (conf_within limits meta.now) (F.told files.new) (F.faults files.old) (F.faults files.new)
        → IsAnswerTo (conf_within limits meta.now (F.told files.new)) result }

    // A failed read has its cause in a count, and comes before no refusal.
    ensures cause { FailedAt (F.faults files.old) (F.faults files.new) result }
    ensures order { FailedWhereItCame (conf_within limits meta.now) (F.told files.new) result }
    ensures misses { (file : List ℕ) → conf_within limits meta.now (F.told files.new) ≡ Misses file → IsReadFault result }
    ensures unknown { (file : List ℕ) → conf_within limits meta.now (F.told files.new) ≡ Unknown file → IsReadFault result }

    // What the call does to the source. One that told all from the start tells the same after the call.
    ensures stays { StaysTold (F.told files.old) (F.told files.new) }
    ensures from_the_start { TellsAll (F.told files.old) → F.told files.new ≡ F.told files.old }
    ensures opens { OpensNoOther (conf_within limits meta.now) (F.told files.old) (F.told files.new) }
    ensures never_fall { NoneFell (F.faults files.old) (F.faults files.new) }
{
    read_config(alloc, limits, files, meta)
}

/// What `load_within` gives, and with it the rows of the metadata, in order, each with the names of its zone's files. No
/// file is read a second time.
pub fn load_with_files<F: Files>(
    alloc: Global,
    limits: Limits,
    files: &mut F,
    meta: &str,
) -> Result<Loaded, LoadFault>
    // What it answers is what the files give, by what is told of them after the call and by whatever tells more.
    ensures gives { Gives (loaded_within limits meta.now (F.told files.new)) result }
    ensures later { (later : FilesTold) → StaysTold (F.told files.new) later → Gives (loaded_within limits meta.now later) result }

    // A failed read has its cause in a count, and comes before no refusal.
    ensures cause { FailedAt (F.faults files.old) (F.faults files.new) result }
    ensures order { FailedWhereItCame (loaded_within limits meta.now) (F.told files.new) result }
    ensures misses { (file : List ℕ) → loaded_within limits meta.now (F.told files.new) ≡ Misses file → IsReadFault result }
    ensures unknown { (file : List ℕ) → loaded_within limits meta.now (F.told files.new) ≡ Unknown file → IsReadFault result }

    // What the call does to the source. One that told all from the start tells the same after the call.
    ensures stays { StaysTold (F.told files.old) (F.told files.new) }
    ensures from_the_start { TellsAll (F.told files.old) → F.told files.new ≡ F.told files.old }
    ensures opens { OpensNoOther (loaded_within limits meta.now) (F.told files.old) (F.told files.new) }
    ensures never_fall { NoneFell (F.faults files.old) (F.faults files.new) }
{
    read_loaded(alloc, limits, files, meta)
}

/// What `load_within` gives, with each zone as the taker leaves it, which takes a zone before the files of the next row are
/// opened. One that several rows name may be taken once. No file is opened for a row whose origin the taker passes over:
/// its zone has no records.
pub fn load_taken<F: Files, T: ZoneTaker>(
    alloc: Global,
    limits: Limits,
    files: &mut F,
    meta: &str,
    taker: &mut T,
) -> Result<Config, LoadFault>
    requires { T.took taker.old taker.old [] }

    // What it answers is what is left of what the files give, by what is told of them after the call and by whatever tells
    // more.
    ensures gives { GivesLeft (T.left_of taker.old) (T.took taker.old taker.new) (conf_unless (row_skips (T.skips taker.old)) limits meta.now (F.told files.new)) result }
    ensures later { (later : FilesTold) → StaysTold (F.told files.new) later
        → GivesLeft (T.left_of taker.old) (T.took taker.old taker.new) (conf_unless (row_skips (T.skips taker.old)) limits meta.now later) result }

    // A failed read has its cause in a count, and comes before no refusal.
    ensures cause { FailedAt (F.faults files.old) (F.faults files.new) result }
    ensures order { FailedWhereItCame (conf_unless (row_skips (T.skips taker.old)) limits meta.now) (F.told files.new) result }
    ensures misses { (file : List ℕ) → conf_unless (row_skips (T.skips taker.old)) limits meta.now (F.told files.new) ≡ Misses file → IsReadFault result }
    ensures unknown { (file : List ℕ) → conf_unless (row_skips (T.skips taker.old)) limits meta.now (F.told files.new) ≡ Unknown file → IsReadFault result }

    // What the call does to the source. One that told all from the start tells the same after the call.
    ensures stays { StaysTold (F.told files.old) (F.told files.new) }
    ensures from_the_start { TellsAll (F.told files.old) → F.told files.new ≡ F.told files.old }
    ensures opens { OpensNoOther (conf_unless (row_skips (T.skips taker.old)) limits meta.now) (F.told files.old) (F.told files.new) }
    ensures never_fall { NoneFell (F.faults files.old) (F.faults files.new) }
{
    read_taken(alloc, limits, files, meta, taker)
}

/// What is left of the configuration that the files give, whose zones the taker takes.
fn read_taken<F: Files, T: ZoneTaker>(
    alloc: Global,
    limits: Limits,
    files: &mut F,
    meta: &str,
    taker: &mut T,
) -> Result<Config, LoadFault>
    requires { T.took taker.old taker.old [] }
    ensures { HasLeft (F.told files.old) (F.told files.new) (F.faults files.old) (F.faults files.new) (conf_unless (row_skips (T.skips taker.old)) limits meta.now)
        (config_left (T.left_of taker.old)) (λ config. AreTaken (T.took taker.old taker.new) (zones config)) result }
{
    let all = read_left(alloc, limits, files, meta, taker)?;
    Ok(all.config)
}

/// The configuration that the files give.
fn read_config<F: Files>(
    alloc: Global,
    limits: Limits,
    files: &mut F,
    meta: &str,
) -> Result<Config, LoadFault>
    ensures { HasAnswered (F.told files.old) (F.told files.new) (F.faults files.old) (F.faults files.new) (conf_within limits meta.now) result }
{
    let all = read_loaded(alloc, limits, files, meta)?;
    Ok(all.config)
}

/// What the files give.
fn read_loaded<F: Files>(
    alloc: Global,
    limits: Limits,
    files: &mut F,
    meta: &str,
) -> Result<Loaded, LoadFault>
    ensures { HasAnswered (F.told files.old) (F.told files.new) (F.faults files.old) (F.faults files.new) (loaded_within limits meta.now) result }
{
    read_left(alloc, limits, files, meta, &mut WholeZones)
}

/// What is left of what the files give, whose zones the taker takes.
fn read_left<F: Files, T: ZoneTaker>(
    alloc: Global,
    limits: Limits,
    files: &mut F,
    meta: &str,
    taker: &mut T,
) -> Result<Loaded, LoadFault>
    requires { T.took taker.old taker.old [] }
    ensures { HasLeft (F.told files.old) (F.told files.new) (F.faults files.old) (F.faults files.new) (loaded_unless (row_skips (T.skips taker.old)) limits meta.now)
        (loaded_left (T.left_of taker.old)) (λ all. AreTaken (T.took taker.old taker.new) (zones all.config)) result }
{
    let found = read_meta(alloc, limits, files, meta)?;
    let rows = read_rows(alloc, limits, files, meta, found.rows.items(), taker)?;
    let servers = rows.servers.into_list();
    Ok(Loaded {
        config: Config {
            tops: found.tops,
            servers,
        },
        rows: rows.rows,
    })
}

/// The metadata of the metadata file.
fn read_meta<F: Files>(
    alloc: Global,
    limits: Limits,
    files: &mut F,
    meta: &str,
) -> Result<Meta, LoadFault>
    ensures reads { HasAnswered (F.told files.old) (F.told files.new) (F.faults files.old) (F.faults files.new) (metadata limits meta.now) result }
    ensures few { IfOk result (λ found. length found.rows ≤ limits.rows) }
{
    let octets = read_whole(alloc, limits, files, meta)?;
    meta_in(alloc, limits.rows, octets.items())
}

/// The metadata of the metadata file's octets, with no more rows than `most`.
fn meta_in(alloc: Global, most: u32, octets: &[u8]) -> Result<Meta, LoadFault>
    ensures answers { AnswersOr LoadFault.NoMemory result (with_fault of_metadata (metadata_within most octets.now)) }
    ensures few { IfOk result (λ found. length found.rows ≤ most) }
{
    Ok(read_metadata_within(alloc, most, octets)?)
}
