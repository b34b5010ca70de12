//! Places of rewrites, whose names are lent.

ghost use Rattle.std.specs.Prelude.{◌≡◌, IfOk};
ghost use Rattle.straight_walks.specs.Nowhere.{alias_fault, owned_place, place_of};
ghost use Rattle.zone_tree.specs.Tree.{IsNode};

use dns_data::{Name, NoMemory};
use net_model::{Fault, Place};
use std::alloc::Global;
use zone_tree::{NodeId, Tree};

/// The place of a rewrite whose names are lent: the server, the zone's origin and the owner of the record that rewrites.
#[derive(Clone, Copy)]
pub struct LentPlace<'h, 'a> {
    pub server: &'a Name,
    pub zone: &'a Name,
    pub owner: &'h Name,
}

impl<'h, 'a> LentPlace<'h, 'a> {
    /// The place of a rewrite by a record that this owner has in the server's zone.
    pub(crate) fn of_owner(server: &'a Name, tree: &'h Tree<'a>, owner: NodeId) -> LentPlace<'h, 'a>
        requires { IsNode tree.now owner }
        ensures { place_of result ≡ owned_place server.now tree.now owner }
    {
        LentPlace {
            server,
            zone: &tree.zone().origin,
            owner: tree.name(owner),
        }
    }

    /// The place, with names of its own.
    pub(crate) fn copied(&self, alloc: Global) -> Result<Place, NoMemory>
        ensures { IfOk result (λ place. place ≡ place_of self.now) }
    {
        Ok(Place {
            server: self.server.copy(alloc)?,
            zone: self.zone.copy(alloc)?,
            owner: self.owner.copy(alloc)?,
        })
    }
}

/// A fault that walks show behind an alias, with each type but CNAME: the rewrite at this place is one more than so many,
/// which are the limit; or without a limit, it leads to a name that doesn't exist.
#[derive(Clone, Copy)]
pub struct AliasFault<'h, 'a> {
    pub place: LentPlace<'h, 'a>,
    pub limit: Option<u32>,
}

impl<'h, 'a> AliasFault<'h, 'a> {
    /// The fault, with names of its own.
    pub(crate) fn copied(&self, alloc: Global) -> Result<Fault, NoMemory>
        ensures { IfOk result (λ fault. fault ≡ alias_fault self.now) }
    {
        let place = self.place.copied(alloc)?;
        match self.limit {
            Some(_) => Ok(Fault::Limit(place)),
            None => Ok(Fault::Blackhole(place)),
        }
    }
}
