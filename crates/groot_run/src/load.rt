//! The configuration of files, or how a run ends without one.

ghost use Rattle.std.specs.Prelude.{◌≡◌, IfOk, IfErr};
ghost use Rattle.io_edges.specs.Counts.{NoneFell};
ghost use Rattle.io_edges.specs.Files.{StaysTold, TellsAll};
ghost use Rattle.config_load.specs.Load.{OpensNoOther};
ghost use Rattle.config_load.specs.Reading.{Reads};
ghost use Rattle.groot_run.specs.JobEnds.{EndsWithoutConfig};
ghost use Rattle.groot_run.specs.Programs.{conf_of, limits_of};

use config_load::{Limits, load_within};
use groot_line::Program;
use io_edges::Files;
use net_model::Config;
use run_endings::Ending;
use std::alloc::Global;

/// The limits of what the program reads.
pub(crate) fn limits_of(program: Program) -> Limits
    ensures { result ≡ limits_of program }
{
    match program {
        Program::Groot => Limits::usual(),
        Program::GrootLarge => Limits::largest(),
    }
}

/// The configuration that the metadata file of this name gives to the program, or how a run ends over files that give none.
pub(crate) fn configuration<F: Files>(
    alloc: Global,
    program: Program,
    files: &mut F,
    meta: &str,
) -> Result<Config, Ending>
    ensures ok { IfOk result (λ config. conf_of program meta.now (F.told files.new) ≡ Reads config) }
    ensures err { IfErr result (EndsWithoutConfig program meta.now (F.told files.new) (F.faults files.old) (F.faults files.new)) }
    ensures stays { StaysTold (F.told files.old) (F.told files.new) }
    ensures never_fall { NoneFell (F.faults files.old) (F.faults files.new) }
    ensures from_the_start { TellsAll (F.told files.old) → F.told files.new ≡ F.told files.old }
    ensures opens { OpensNoOther (conf_of program meta.now) (F.told files.old) (F.told files.new) }
{
    match load_within(alloc, limits_of(program), files, meta) {
        Ok(config) => Ok(config),
        Err(fault) => Err(Ending::not_loaded(alloc, meta, fault)),
    }
}

/// The configuration that the metadata file of this name gives to the program, or how a run ends over files that give none,
/// of a run that reads nothing after it: the files let go of their octets.
pub(crate) fn last_configuration<F: Files>(
    alloc: Global,
    program: Program,
    files: &mut F,
    meta: &str,
) -> Result<Config, Ending>
    ensures ok { IfOk result (λ config. conf_of program meta.now (F.told files.new) ≡ Reads config) }
    ensures err { IfErr result (EndsWithoutConfig program meta.now (F.told files.new) (F.faults files.old) (F.faults files.new)) }
    ensures stays { StaysTold (F.told files.old) (F.told files.new) }
    ensures never_fall { NoneFell (F.faults files.old) (F.faults files.new) }
    ensures from_the_start { TellsAll (F.told files.old) → F.told files.new ≡ F.told files.old }
    ensures opens { OpensNoOther (conf_of program meta.now) (F.told files.old) (F.told files.new) }
{
    let config = configuration(alloc, program, files, meta);
    files.let_go_of_all();
    config
}
