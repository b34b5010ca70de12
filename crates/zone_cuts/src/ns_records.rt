//! The NS records of a zone, found by their owner and the name server that they name.

ghost use Rattle.std.specs.Prelude.{◌≡◌, ◌∷◌, [], IfOk};
ghost use Rattle.std.specs.Option.{option_map};
ghost use Rattle.zone_cuts.specs.Cuts.{ns_record};
ghost use Rattle.zone_cuts.specs.Found.{FindsRecords};

use dns_data::{List, Name, NoMemory, Rdata, Rr};
use net_model::Zone;
use std::alloc::Global;
use std::collections::BTreeMap;
use std::marker::Model;

/// The NS records of a zone, by the owner and the name server. Contracts see the zone.
#[derive(Drop)]
pub struct NsRecords<'a> {
    zone: &'a Zone,
    found: BTreeMap<List<Name>, &'a Rr>,
}

impl<'a> Model for NsRecords<'a> {
    ghost use Rattle.net_model.specs.declared.config.Zone.{Zone};
    ghost use Rattle.zone_cuts.specs.Found.{FindsRecords};

    ghost Value = { Zone };

    ghost view = { λ records. records.zone.now };

    ghost invariant = { λ records. FindsRecords records.zone.now.rrs records.found };
}

impl<'a> NsRecords<'a> {
    /// The NS records of the zone. Both names of each are copied once.
    pub fn of(alloc: Global, zone: &'a Zone) -> Result<NsRecords<'a>, NoMemory>
        ensures { IfOk result (λ records. records ≡ zone.entry.now) }
    {
        let found = records_by_names(alloc, zone.rrs.items())?;
        Ok(NsRecords { zone, found })
    }

    /// The NS record of the owner that names this name server.
    pub fn get(&self, alloc: Global, owner: &Name, ns: &Name) -> Result<Option<&'a Rr>, NoMemory>
        ensures { IfOk result (λ rr. option_map (λ rr. rr.now) rr ≡ ns_record self.now owner.now ns.now) }
    {
        let names = both(alloc, owner, ns)?;
        Ok(self.found.get(&names).copied())
    }
}

/// The NS records, each by its owner and its name server. The last records are looked at first.
fn records_by_names<'a>(
    alloc: Global,
    rrs: &'a [Rr],
) -> Result<BTreeMap<List<Name>, &'a Rr>, NoMemory>
    ensures { IfOk result (FindsRecords rrs.now) }
{
    let mut found = BTreeMap::new(alloc);
    let mut left = rrs.len();
    while left > 0 {
        left -= 1;
        let rr = &rrs[left];
        if let Rdata::Ns(ns) = &rr.rdata {
            found.insert(both(alloc, &rr.owner, ns)?, rr)?;
        }
    }
    Ok(found)
}

/// Both names.
fn both(alloc: Global, owner: &Name, ns: &Name) -> Result<List<Name>, NoMemory>
    ensures { IfOk result (λ names. names ≡ owner.now ∷ ns.now ∷ []) }
{
    let mut names = List::new(alloc);
    names.push(owner.copy(alloc)?)?;
    names.push(ns.copy(alloc)?)?;
    Ok(names)
}
