//! What is left of a configuration whose zones were taken.

ghost use Rattle.std.specs.Prelude.{◌≡◌, true, map, Contains, IfOk, IfErr, OnOk};
ghost use Rattle.dns_data.specs.Name.{Labels};
ghost use Rattle.net_model.specs.Reading.{ground_of};
ghost use Rattle.part_laws.specs.Part.{restricted, IsPart};
ghost use Rattle.part_names.specs.PartNames.{is_own};
ghost use Rattle.part_checks.specs.Outside.{IsBelowHeld};
ghost use Rattle.part_checks.specs.Parts.{held_by};
ghost use Rattle.part_checks.specs.Rules.{IsRefused, Keeps};
ghost use Rattle.part_checks.specs.Taking.{IsLeftWhole, IsTakenWhole, with_held_zones};
ghost use Rattle.part_checks.specs.declared.fault.PartRule.{PartRule};

use crate::fault::PartFault;
use crate::left::left_servers;
use crate::limits::{check_apart, check_short};
use crate::sets::NameSets;
use crate::starts::check_met;
use crate::taker::PartTaker;
use crate::targets::check_targets;
use crate::zones::zones_of;
use dns_data::{Name, NoMemory};
use net_model::Config;
use std::alloc::Global;

impl<'a> PartTaker<'a> {
    /// What is left of a configuration, the whole, whose zones were taken, where the names of the part are held, if they
    /// make a part and all own names of the whole are held; else a condition that doesn't hold, with a name of which it
    /// doesn't.
    pub fn part_of(&self, alloc: Global, taken: Config) -> Result<Config, PartFault>
        ensures left { (whole : Config) → IsTakenWhole self.now whole taken → IfOk result (λ left. left ≡ restricted (held_by self.now.names) whole) }
        ensures kept { (whole : Config) → IsTakenWhole self.now whole taken → OnOk result ((rule : PartRule) → Keeps whole self.now.names rule) }
        ensures part { (whole : Config) → IsTakenWhole self.now whole taken → OnOk result (IsPart whole (held_by self.now.names)) }
        ensures own { (whole : Config) → IsTakenWhole self.now whole taken
            → OnOk result ((name : Labels) → Contains (ground_of whole).names name → is_own self.now.names name ≡ true → Contains (held_by self.now.names) name) }
        ensures refused { (whole : Config) → IsTakenWhole self.now whole taken → IfErr result (IsRefused whole self.now.names) }
    {
        if let Some((rule, name)) = &self.broken {
            return Err(PartFault::Breaks(*rule, name.copy(alloc)?));
        }
        let left = left_of(alloc, &self.sets, taken)?;
        check_part(alloc, &left, &self.sets, self.outside.items())?;
        Ok(left)
    }
}

/// What is left of a configuration whose zones were taken: the zones go whose origins aren't held.
fn left_of(alloc: Global, sets: &NameSets<'_>, taken: Config) -> Result<Config, NoMemory>
    ensures { IfOk result (λ left. left ≡ record { tops = taken.tops; servers = map (with_held_zones (held_by sets.now)) taken.servers }) }
{
    let Config { tops, servers } = taken;
    let servers = left_servers(alloc, sets, servers)?;
    Ok(Config { tops, servers })
}

/// Checks what is asked of what is left of a configuration whose zones were taken, of which these are the names outside.
fn check_part(
    alloc: Global,
    left: &Config,
    sets: &NameSets<'_>,
    outside: &[Name],
) -> Result<(), PartFault>
    requires { (name : Labels) → Contains outside.now name → IsBelowHeld sets.now name }
    ensures kept { (whole : Config) → IsLeftWhole sets.now outside.now whole left.now → OnOk result ((rule : PartRule) → Keeps whole sets.now rule) }
    ensures refused { (whole : Config) → IsLeftWhole sets.now outside.now whole left.now → IfErr result (IsRefused whole sets.now) }
{
    let of_left = zones_of(alloc, left)?;
    let zones = of_left.as_slice();
    check_met(alloc, zones, sets.names().held.items())?;
    check_targets(alloc, sets, left, zones)?;
    check_apart(alloc, zones, outside)?;
    check_short(alloc, left, outside)
}
