//! What the files of a drill give.

ghost use Rattle.std.specs.Prelude.{◌≡◌, ℕ, ◌≤◌, codes};
ghost use Rattle.config_load.specs.Conf.{conf_within};
ghost use Rattle.config_load.specs.Limits.{AreUsual};
ghost use Rattle.config_load.specs.Reading.{Reads};
ghost use Rattle.config_load.specs.declared.limits.Limits.{Limits};
ghost use Rattle.net_model.specs.declared.config.Config.{Config};
ghost use Rattle.zone_maker.specs.Source.{drill_told};

/// The files of a drill of 1 to 5,000 zones give a configuration within the usual limits, and within larger ones: none of
/// them is refused, and none is missed.
pub fn drill_files_read()
    ensures { (limits : Limits) → AreUsual limits → (zones : ℕ) → 1 ≤ zones → zones ≤ 5000
        → (config : Config) × (conf_within limits (codes "meta.json") (drill_told zones) ≡ Reads config) }
{}
