//! What the definitions say of configurations of which rows are skipped.

ghost use Rattle.std.specs.Prelude.{◌≡◌, ◌↔◌, true, Contains};
ghost use Rattle.config_load.specs.Skipped.{IsConfigUnless};
ghost use Rattle.dns_data.specs.Name.{Labels};
ghost use Rattle.net_model.specs.Reading.{ground_of};
ghost use Rattle.net_model.specs.declared.config.Config.{Config};
ghost use Rattle.part_checks.specs.Parts.{held_by};
ghost use Rattle.part_checks.specs.Rules.{Keeps};
ghost use Rattle.part_checks.specs.Skipped.{is_skipped};
ghost use Rattle.part_checks.specs.declared.fault.PartRule.{PartRule};
ghost use Rattle.part_laws.specs.Part.{IsPart, restricted};
ghost use Rattle.part_names.specs.PartNames.{is_own};
ghost use Rattle.part_names.specs.declared.names.PartNames.{PartNames};

/// Zones that a part skips are as good as zones without records: the same is left, and the part asks the same.
pub fn zones_may_be_skipped()
    ensures left { (names : PartNames) (whole config : Config) → IsConfigUnless (is_skipped names) whole config
        → restricted (held_by names) config ≡ restricted (held_by names) whole }
    ensures rules { (names : PartNames) (whole config : Config) → IsConfigUnless (is_skipped names) whole config
        → (rule : PartRule) → Keeps config names rule ↔ Keeps whole names rule }

    // Where all rules are kept, the names make a part of the whole, and hold its own base names.
    ensures part { (names : PartNames) (whole config : Config) → IsConfigUnless (is_skipped names) whole config
        → ((rule : PartRule) → Keeps config names rule) → IsPart config (held_by names) → IsPart whole (held_by names) }
    ensures own { (names : PartNames) (whole config : Config) → IsConfigUnless (is_skipped names) whole config
        → ((rule : PartRule) → Keeps config names rule) → (name : Labels) → Contains (ground_of whole).names name → is_own names name ≡ true
        → Contains (held_by names) name }
{}
