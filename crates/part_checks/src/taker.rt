//! Taking the zones of a configuration while it is read.

ghost use Rattle.std.specs.Prelude.{◌≡◌, ◌⊎◌, [], Contains, IfOk, OnOk, refl};
ghost use Rattle.dns_data.specs.Name.{Labels, is_among};
ghost use Rattle.dns_data.specs.declared.rdata.Rr.{Rr};
ghost use Rattle.dns_data.proofs.Membership.{from_filter};
ghost use Rattle.part_checks.specs.Outside.{HasOutside, IsBelowHeld};
ghost use Rattle.part_checks.specs.Parts.{held_by};
ghost use Rattle.part_checks.specs.Skipped.{is_skipped};
ghost use Rattle.part_checks.specs.Taking.{AreSeen, HasNoted, HasTaken, PassesZone, SeesZone};
ghost use Rattle.part_laws.specs.Part.{restricted_zone};

use crate::fault::{PartFault, PartRule};
use crate::lasting::check_lasting;
use crate::left::left_zone;
use crate::outside::{outside_of, put_outside};
use crate::owners::held_owners;
use crate::sets::NameSets;
use crate::skipped::is_skipped;
use config_load::ZoneTaker;
use dns_data::{List, Name, NoMemory};
use net_model::Zone;
use part_names::PartNames;
use std::alloc::Global;
use std::marker::Model;

/// What takes the zones of a configuration, the whole, one after the other, and leaves of each what a part holds. It knows
/// where the names of the zones leave the held ones, and the first rule that it found broken, with a name of which it
/// doesn't hold.
#[derive(Drop)]
pub struct PartTaker<'a> {
    pub(crate) sets: NameSets<'a>,
    pub(crate) outside: List<Name>,
    pub(crate) broken: Option<(PartRule, Name)>,
}

impl<'a> Model for PartTaker<'a> {
    ghost use Rattle.std.specs.Prelude.{Contains};
    ghost use Rattle.dns_data.specs.Name.{Labels};
    ghost use Rattle.part_checks.specs.Outside.{IsBelowHeld};
    ghost use Rattle.part_checks.specs.Taking.{Taking};

    ghost Value = { Taking };

    ghost view = { λ taker. record { names = taker.sets; outside = taker.outside; broken = taker.broken } };

    ghost invariant = { λ taker. (name : Labels) → Contains taker.outside name → IsBelowHeld taker.sets name };
}

impl<'a> PartTaker<'a> {
    /// What leaves of zones what the part holds that has these names. It took none.
    pub fn new(alloc: Global, names: &'a PartNames) -> Result<PartTaker<'a>, NoMemory>
        ensures names { IfOk result (λ taker. taker.names ≡ names.now) }
        ensures none { IfOk result (λ taker. AreSeen taker []) }
    {
        let sets = NameSets::build(alloc, names)?;
        Ok(PartTaker {
            sets,
            outside: List::new(alloc),
            broken: None,
        })
    }

    /// Notes where the names of a zone leave the held ones, unless a rule is broken: then it is noted.
    fn note(&mut self, seen: Result<List<Name>, PartFault>) -> Result<(), NoMemory>
        requires { IfOk seen (λ fronts. (name : Labels) → Contains fronts name → IsBelowHeld self.old.names name) }
        ensures names { self.new.names ≡ self.old.names }
        ensures noted { OnOk result (HasNoted seen self.old self.new) }
    {
        match seen {
            Ok(fronts) => put_all(fronts, &mut self.outside),
            Err(PartFault::Breaks(rule, name)) => {
                self.broken = Some((rule, name));
                Ok(())
            }
            Err(PartFault::NoMemory) => Err(NoMemory),
        }
    }
}

/// Puts names where those of a zone leave the held ones to the others.
fn put_all(fronts: List<Name>, outside: &mut List<Name>) -> Result<(), NoMemory>
    ensures there { OnOk result ((front : Labels) → Contains fronts front → HasOutside outside.new front) }
    ensures stays { OnOk result ((name : Labels) → Contains outside.old name → Contains outside.new name) }
    ensures added { (name : Labels) → Contains outside.new name → Contains outside.old name ⊎ Contains fronts name }
{
    for front in fronts {
        put_outside(front, outside)?;
    }
    Ok(())
}

/// Where the names of a zone leave the held ones, of which this is left where its origin is held: there the names above
/// exist.
fn lasting_outside(
    alloc: Global,
    sets: &NameSets<'_>,
    left: &Zone,
    fronts: Result<List<Name>, PartFault>,
) -> Result<List<Name>, PartFault>
    ensures { (zone : Zone) → left.now ≡ restricted_zone (held_by sets.now) zone → PassesZone sets.now zone fronts → SeesZone sets.now zone result }
{
    let fronts = fronts?;
    if sets.has(&left.origin) {
        check_lasting(alloc, left, fronts.items())?;
    }
    Ok(fronts)
}

impl<'a> ZoneTaker for PartTaker<'a> {
    ghost skips = { λ taker. is_skipped taker.names };

    ghost left_of = { λ taker zone. restricted_zone (held_by taker.names) zone };

    ghost took = { HasTaken };

    ghost origin = { λ taker zone. refl };

    ghost within = { λ taker zone keeps rr has. keeps rr (from_filter (λ (one : Rr). is_among (held_by taker.names) one.owner) zone.rrs rr has).0 };

    fn passes_over(&self, origin: &Name) -> bool {
        is_skipped(&self.sets, origin)
    }

    fn take(&mut self, alloc: Global, zone: Zone) -> Result<Zone, NoMemory> {
        let held = held_owners(alloc, &self.sets, zone.rrs.items())?;
        if self.broken.is_some() {
            return left_zone(alloc, &self.sets, zone, held.as_slice());
        }
        let fronts = outside_of(alloc, &self.sets, &zone, held.as_slice());
        let left = left_zone(alloc, &self.sets, zone, held.as_slice())?;
        let seen = lasting_outside(alloc, &self.sets, &left, fronts);
        self.note(seen)?;
        Ok(left)
    }
}
