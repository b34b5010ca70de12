//! What the definitions say of what files give.

ghost use Rattle.std.specs.Prelude.{◌≡◌, ◌≢◌, ℕ, Bool, List};
ghost use Rattle.dns_data.specs.Name.{Labels};
ghost use Rattle.io_edges.specs.Files.{FilesTold};
ghost use Rattle.config_load.specs.Conf.{conf_unless, conf_within, config_of, loaded_within, row_skips};
ghost use Rattle.config_load.specs.Load.{IsSteady};
ghost use Rattle.config_load.specs.Reading.{Reads, Refuses, file_octets};
ghost use Rattle.config_load.specs.RowZones.{RowsHaveZones};
ghost use Rattle.config_load.specs.Skipped.{GivesUnless};
ghost use Rattle.config_load.specs.declared.limits.Limits.{Limits};
ghost use Rattle.config_load.specs.declared.loaded.Loaded.{Loaded};
ghost use Rattle.meta_read.specs.declared.meta.MetaRow.{MetaRow};
ghost use Rattle.net_model.specs.declared.config.Config.{Config};

use crate::fault::LoadFault;

/// Files are refused for what they say, never for a failed read or because memory ran out: those answers are a call's
/// alone.
pub fn files_want_nothing()
    ensures read { (limits : Limits) (meta : List ℕ) (told : FilesTold) (file : List ℕ) → conf_within limits meta told ≢ Refuses (LoadFault.Read file) }
    ensures memory { (limits : Limits) (meta : List ℕ) (told : FilesTold) → conf_within limits meta told ≢ Refuses LoadFault.NoMemory }
{}

/// What the files of a metadata file give, and what one file gives, they give by whatever is told later, unless the reading
/// stopped at a name of which nothing was told and now is.
pub fn readings_stay()
    ensures conf { (limits : Limits) (meta : List ℕ) → IsSteady (conf_within limits meta) }
    ensures unless { (skips : MetaRow → Bool) (limits : Limits) (meta : List ℕ) → IsSteady (conf_unless skips limits meta) }
    ensures file { (limits : Limits) (name : List ℕ) → IsSteady (file_octets limits name) }
{}

/// Where files give a configuration, they give it also if rows are skipped, but for the records of zones whose rows give
/// origins that are skipped.
pub fn rows_may_be_skipped()
    ensures { (skips : Labels → Bool) (limits : Limits) (meta : List ℕ) (told : FilesTold) (whole : Config)
        → conf_within limits meta told ≡ Reads whole → GivesUnless skips whole (conf_unless (row_skips skips) limits meta told) }
{}

/// What the files give with the names of files is what they give without these.
pub fn rows_tell_files()
    ensures config { (limits : Limits) (meta : List ℕ) (told : FilesTold) → conf_within limits meta told ≡ config_of (loaded_within limits meta told) }
{}

/// In what files give, each row has the zone that was read from its files, and each zone of the configuration is that
/// of one row. So the records of the rows are those of the configuration.
pub fn rows_have_zones()
    ensures { (limits : Limits) (meta : List ℕ) (told : FilesTold) (all : Loaded)
        → loaded_within limits meta told ≡ Reads all → RowsHaveZones limits meta told all }
{}
