//! The faults that a query shows whose walks go straight.

ghost use Rattle.std.specs.Prelude.{◌≡◌, ◌++◌, [], true, map, IfOk, OnOk};
ghost use Rattle.dns_data.specs.Name.{Labels};
ghost use Rattle.dns_data.specs.declared.rr_type.RrType.{RrType as RrTypeValue};
ghost use Rattle.dns_data.specs.declared.rr_type.RrType.TheVariants as types;
ghost use Rattle.graph_form.specs.Branches.{with_type};
ghost use Rattle.graph_form.specs.Verdict.{AreFirstTypes};
ghost use Rattle.net_model.specs.declared.fault.Fault.{Fault as FaultValue};
ghost use Rattle.zone_lookup.specs.ReferralFaults.{if_shown};
ghost use Rattle.straight_walks.specs.Faulty.{faulty_cut, flag_faults};
ghost use Rattle.straight_walks.specs.Nowhere.{alias_fault, blackholes_at};
ghost use Rattle.straight_walks.specs.Straight.{faults_by_ends};

use crate::ends::StraightEnds;
use crate::faulty::Faulty;
use crate::lent_place::{AliasFault, LentPlace};
use dns_data::{List, Name, NoMemory, RrType};
use graph_form::{Seen, first_types};
use net_model::{Cut, Fault};
use std::alloc::Global;

impl<'h, 'a> StraightEnds<'h, 'a> {
    /// Whether the ends tell no fault.
    pub fn tell_no_fault(&self) -> bool
        ensures { result ≡ true → (query : Labels) (rtype : RrTypeValue) → faults_by_ends query self.now rtype ≡ [] }
    {
        self.faulty.as_slice().is_empty()
            && self.blackholes.is_empty()
            && self.alias_faults.is_empty()
    }

    /// The faults that the ends tell of a query, in fault order, each once and with the first type: referrals are met and
    /// DNAME records redirect with all types alike, and aliases are followed with all but CNAME.
    pub fn shown(&self, alloc: Global, query: &Name) -> Result<List<Seen>, NoMemory>
        ensures { IfOk result (AreFirstTypes (with_type types.A (faults_by_ends query.now self.now types.A))) }
    {
        if self.tell_no_fault() {
            return Ok(List::new(alloc));
        }
        let mut seen = List::new(alloc);
        put_alias_faults(alloc, self.alias_faults.items(), &mut seen)?;
        put_blackholes(alloc, self.blackholes.items(), &mut seen)?;
        for one in self.faulty.as_slice() {
            put_faults(alloc, query, one, &mut seen)?;
        }
        // Named, since the proof speaks of the list that comes where memory suffices.
        let shown = first_types(alloc, seen)?;
        Ok(shown)
    }
}

/// Puts the blackholes behind the other faults, with the first type.
fn put_blackholes(
    alloc: Global,
    places: &[LentPlace<'_, '_>],
    seen: &mut List<Seen>,
) -> Result<(), NoMemory>
    ensures { OnOk result (seen.new ≡ seen.old ++ with_type types.A (blackholes_at places.now)) }
{
    for one in places {
        seen.push(Seen {
            fault: Fault::Blackhole(one.copied(alloc)?),
            rtype: RrType::A,
        })?;
    }
    Ok(())
}

/// Puts the faults of aliases behind the others, with the first type.
fn put_alias_faults(
    alloc: Global,
    faults: &[AliasFault<'_, '_>],
    seen: &mut List<Seen>,
) -> Result<(), NoMemory>
    ensures { OnOk result (seen.new ≡ seen.old ++ with_type types.A (map alias_fault faults.now)) }
{
    for one in faults {
        seen.push(Seen {
            fault: one.copied(alloc)?,
            rtype: RrType::A,
        })?;
    }
    Ok(())
}

/// Puts the faults behind the others that the query shows by a referral, with the first type.
fn put_faults(
    alloc: Global,
    query: &Name,
    one: &Faulty<'_>,
    seen: &mut List<Seen>,
) -> Result<(), NoMemory>
    ensures { OnOk result (seen.new ≡ seen.old ++ with_type types.A (flag_faults one.now.flags (faulty_cut query.now one.now))) }
{
    put_shown(alloc, one.flags.lame, Fault::Lame, query, one, seen)?;
    put_shown(alloc, one.flags.differs, Fault::Differs, query, one, seen)?;
    put_shown(alloc, one.flags.no_glue, Fault::NoGlue, query, one, seen)?;
    put_shown(
        alloc,
        one.flags.glue_differs,
        Fault::GlueDiffers,
        query,
        one,
        seen,
    )
}

/// Puts the fault of this kind of a referral behind the others, with the first type, where it is shown.
fn put_shown<F: Fn(Cut) -> Fault>(
    alloc: Global,
    shown: bool,
    kind: F,
    query: &Name,
    one: &Faulty<'_>,
    seen: &mut List<Seen>,
) -> Result<(), NoMemory>
    requires { F.IsAlwaysCallable kind }
    ensures { OnOk result ((fault : FaultValue) → ((made : FaultValue) → F.post kind (faulty_cut query.now one.now) made → made ≡ fault)
        → seen.new ≡ seen.old ++ with_type types.A (if_shown shown fault)) }
{
    if shown {
        let cut = cut_of(alloc, query, one)?;
        return seen.push(Seen {
            fault: kind(cut),
            rtype: RrType::A,
        });
    }
    Ok(())
}

/// The name server of the zone cut to which the referral of the query leads, with names of its own.
fn cut_of(alloc: Global, query: &Name, one: &Faulty<'_>) -> Result<Cut, NoMemory>
    ensures { IfOk result (λ cut. cut ≡ faulty_cut query.now one.now) }
{
    Ok(Cut {
        server: one.server.copy(alloc)?,
        zone: one.zone.copy(alloc)?,
        cut: query.copy_front(alloc, one.cut as usize)?,
        ns: one.ns.copy(alloc)?,
    })
}
