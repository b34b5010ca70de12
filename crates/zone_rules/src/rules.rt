//! The rules of a zone.

ghost use Rattle.std.specs.Prelude.{◌≡◌, ◌⊎◌, ◌++◌, ◌∷◌, [], ◌&&◌, ◌||◌, map, true, Bool, None, Some, Err, List, IfOk, OnOk, IfErr, if◌then◌else◌};
ghost use Rattle.dns_data.specs.Name.{Labels, name_eq};
ghost use Rattle.zone_rules.specs.Apex.{is_type};
ghost use Rattle.zone_rules.specs.Before.{fault_in, has_name, is_watched, IsSummaryOf, rule_in};
ghost use Rattle.zone_rules.specs.Fingerprint.{owner_key};
ghost use Rattle.zone_rules.specs.Rules.{had, first_fault, is_soa_elsewhere, is_star_record};
ghost use Rattle.zone_rules.specs.ZoneOf.{checked};

use crate::apex::is_wildcard;
use crate::buckets::rivals;
use crate::fault::{RuleCause, RuleFault};
use crate::fingerprint::owner_number;
use crate::types::{is_cname, is_dname, is_ns, is_soa};
use dns_data::{Name, NoMemory, Rr, RrType};
use std::alloc::Global;
use std::collections::BTreeSet;

/// What rules ask of the records before one: whether an SOA record is there, which owners, of those at which a CNAME
/// record may have a rival, have a CNAME record and one of another type, and which have a DNAME record.
#[derive(Drop)]
pub(crate) struct Before<'a> {
    has_soa: bool,
    cnames: BTreeSet<&'a Name>,
    others: BTreeSet<&'a Name>,
    dnames: BTreeSet<&'a Name>,
}

/// Looks for the first record that breaks a rule, and for an SOA record. An SOA, an NS or a DNAME record is always
/// looked at, any other only where it may have a rival at its owner: else it breaks no rule.
pub(crate) fn check_rules(alloc: Global, origin: &Name, rrs: &[Rr]) -> Result<(), RuleFault>
    ensures ok { OnOk result ((first_fault origin.now rrs.now ≡ None) × (had RrType.Soa rrs.now ≡ true)) }
    ensures err { IfErr result (λ fault. (fault ≡ RuleFault.NoMemory) ⊎ (checked origin.now rrs.now ≡ Err fault)) }
{
    let owners = Owners::of(alloc, rrs)?;
    let rivals = rivals(alloc, owners.keys.as_slice())?;
    let mut before = Before::new(alloc);
    for (i, rr) in rrs.iter().enumerate() {
        before.check(origin, rr, rivals[i], owners.watched[i])?;
    }
    if !before.has_soa {
        return Err(RuleFault::At {
            file: 0,
            line: 0,
            cause: RuleCause::NoSoa,
        });
    }
    Ok(())
}

/// For each record, the number of its owner with whether it has to stand alone there, as a CNAME record has (RFC 1034
/// section 3.6.2), and whether it is an SOA, an NS or a DNAME record, which may break a rule also without a rival.
#[derive(Drop)]
struct Owners {
    keys: Vec<(u64, bool)>,
    watched: Vec<bool>,
}

impl Owners {
    /// What is told of these records.
    fn of(alloc: Global, rrs: &[Rr]) -> Result<Owners, NoMemory>
        ensures keys { IfOk result (λ owners. owners.keys.items ≡ map owner_key rrs.now) }
        ensures watched { IfOk result (λ owners. owners.watched.items ≡ map is_watched rrs.now) }
    {
        let mut keys = Vec::with_capacity(alloc, rrs.len())?;
        let mut watched = Vec::with_capacity(alloc, rrs.len())?;
        for rr in rrs {
            keys.push((owner_number(&rr.owner), is_cname(rr)))?;
            watched.push(is_soa(rr) || is_ns(rr) || is_dname(rr))?;
        }
        Ok(Owners { keys, watched })
    }
}

impl<'a> Before<'a> {
    /// No record stands before.
    fn new(alloc: Global) -> Before<'a>
        ensures { (may_have : Labels → Bool) → IsSummaryOf may_have result [] }
    {
        Before {
            has_soa: false,
            cnames: BTreeSet::new(alloc),
            others: BTreeSet::new(alloc),
            dnames: BTreeSet::new(alloc),
        }
    }

    /// Puts one record more before the next ones, unless it breaks a rule. Records without a rival are skipped, unless
    /// they are SOA, NS or DNAME.
    fn check(
        &mut self,
        origin: &Name,
        rr: &'a Rr,
        has_rival: bool,
        watched: bool,
    ) -> Result<(), RuleFault>
        requires { watched ≡ is_watched rr.now }
        ensures ok { OnOk result (fault_in self.old has_rival origin.now rr.now ≡ None) }
        ensures err { IfErr result (λ fault. (fault ≡ RuleFault.NoMemory) ⊎ (fault_in self.old has_rival origin.now rr.now ≡ Some fault)) }
        ensures before { (may_have : Labels → Bool) (before : List Rr) → has_rival ≡ may_have rr.now.owner → IsSummaryOf may_have self.old before → OnOk result (IsSummaryOf may_have self.new (before ++ rr.now ∷ [])) }
    {
        if !has_rival && !watched {
            return Ok(());
        }
        if let Some(cause) = self.rule_at(origin, rr, has_rival) {
            return Err(RuleFault::At {
                file: rr.file,
                line: rr.line,
                cause,
            });
        }
        self.put(rr, has_rival)?;
        Ok(())
    }

    /// Puts one record more before the next ones. Of a record without a rival it is only kept
    /// whether it is an SOA record, and the owner if it is a DNAME record.
    fn put(&mut self, rr: &'a Rr, has_rival: bool) -> Result<(), NoMemory>
        ensures { (may_have : Labels → Bool) (before : List Rr) → has_rival ≡ may_have rr.now.owner → IsSummaryOf may_have self.old before → OnOk result (IsSummaryOf may_have self.new (before ++ rr.now ∷ [])) }
    {
        put_if(&mut self.cnames, &rr.owner, has_rival, is_cname(rr))?;
        put_if(&mut self.others, &rr.owner, has_rival, !is_cname(rr))?;
        put_if(&mut self.dnames, &rr.owner, true, is_dname(rr))?;
        self.has_soa = self.has_soa || is_soa(rr);
        Ok(())
    }

    /// The first rule that the record breaks, if it breaks one. Some rules are asked only of
    /// records with a rival.
    fn rule_at(&self, origin: &Name, rr: &'a Rr, has_rival: bool) -> Option<RuleCause>
        ensures { result ≡ rule_in self.now has_rival origin.now rr.now }
    {
        if is_soa_elsewhere(origin, rr) {
            Some(RuleCause::SoaElsewhere)
        } else if is_soa(rr) && self.has_soa {
            Some(RuleCause::TwoSoas)
        } else if is_star_record(rr) {
            Some(RuleCause::StarRecord)
        } else if has_rival && is_cname(rr) && has_name(&self.cnames, &rr.owner) {
            Some(RuleCause::TwoCnames)
        } else if has_rival && self.is_beside_cname(rr) {
            Some(RuleCause::CnameAndOther)
        } else if is_dname(rr) && has_name(&self.dnames, &rr.owner) {
            Some(RuleCause::TwoDnames)
        } else {
            None
        }
    }

    /// Whether a CNAME record and one of another type have one owner.
    fn is_beside_cname(&self, rr: &'a Rr) -> bool
        ensures { result ≡ (if is_type RrType.Cname rr.now then has_name self.now.others rr.now.owner else has_name self.now.cnames rr.now.owner) }
    {
        if is_cname(rr) {
            has_name(&self.others, &rr.owner)
        } else {
            has_name(&self.cnames, &rr.owner)
        }
    }
}

/// Whether an SOA record isn't at the origin.
fn is_soa_elsewhere(origin: &Name, rr: &Rr) -> bool
    ensures { result ≡ is_soa_elsewhere origin.now rr.now }
{
    is_soa(rr) && rr.owner != *origin
}

/// Whether a wildcard has an NS or a DNAME record.
fn is_star_record(rr: &Rr) -> bool
    ensures { result ≡ is_star_record rr.now }
{
    (is_ns(rr) || is_dname(rr)) && is_wildcard(&rr.owner)
}

/// Whether the name is among these.
fn has_name<'a>(names: &BTreeSet<&'a Name>, name: &'a Name) -> bool
    ensures { result ≡ has_name names.now name.now }
{
    names.contains(&name)
}

/// Puts the name among these, where both tests hold.
fn put_if<'a>(
    names: &mut BTreeSet<&'a Name>,
    name: &'a Name,
    first: bool,
    second: bool,
) -> Result<(), NoMemory>
    ensures { OnOk result ((query : Labels) → has_name names.new query ≡ (has_name names.old query || (name_eq query name.now && (first && second)))) }
{
    if first && second {
        names.insert(name)?;
    }
    Ok(())
}
