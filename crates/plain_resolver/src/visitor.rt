//! What is shown the walks of a query.

ghost use Rattle.std.specs.Prelude.{◌≡◌, ◌++◌, ◌∷◌, [], OnOk};
ghost use Rattle.net_model.specs.declared.walk.Walk.{Walk};
ghost use Rattle.plain_resolver.specs.Begun.{ended};
ghost use Rattle.plain_resolver.specs.KnownNames.{no_waits, seen_after};
ghost use Rattle.plain_resolver.specs.WalkEnds.{end_of, zone_ends_of};

use crate::begun::BegunWalk;
use crate::known_names::WaitList;
use crate::walk_end::{WalkEnd, ZoneEnd, is_authoritative};
use dns_data::{Boxed, List, NoMemory};
use net_model::{Hop, Leaf, Walk};
use std::alloc::Global;
use std::marker::Model;
use zone_lookup::gives_address;

/// What is shown walks, one after the other.
pub(crate) trait WalkVisitor {
    /// What it is after it was shown a walk.
    ghost after: { Self → Walk → Self };

    /// Shows it the walk that the begun one is with this end.
    fn visit(
        &mut self,
        alloc: Global,
        begun: &BegunWalk,
        hop: Option<Boxed<Hop>>,
        leaf: Boxed<Leaf>,
    ) -> Result<(), NoMemory>
        ensures { OnOk result (self.new ≡ after self.old (ended begun.now hop leaf)) };
}

/// The list of the walks that were shown.
impl WalkVisitor for List<Walk> {
    ghost after = { λ walks walk. walks ++ walk ∷ [] };

    fn visit(
        &mut self,
        alloc: Global,
        begun: &BegunWalk,
        hop: Option<Boxed<Hop>>,
        leaf: Boxed<Leaf>,
    ) -> Result<(), NoMemory> {
        self.push(begun.ended(alloc, hop, leaf)?)
    }
}

/// The list of the ends of the walks that were shown, each with whether it is rewritten. No walk is made for that.
impl WalkVisitor for List<WalkEnd> {
    ghost after = { λ ends walk. ends ++ end_of walk ∷ [] };

    fn visit(
        &mut self,
        alloc: Global,
        begun: &BegunWalk,
        hop: Option<Boxed<Hop>>,
        leaf: Boxed<Leaf>,
    ) -> Result<(), NoMemory> {
        let leaf = leaf.get().copy(alloc)?;
        let rewritten = begun.is_rewritten(hop);
        self.push(WalkEnd { leaf, rewritten })
    }
}

/// The list of what the walks ask last that were shown and end in what a zone tells. No walk is made for that.
impl WalkVisitor for List<ZoneEnd> {
    ghost after = { λ ends walk. ends ++ zone_ends_of walk };

    fn visit(
        &mut self,
        alloc: Global,
        begun: &BegunWalk,
        _hop: Option<Boxed<Hop>>,
        leaf: Boxed<Leaf>,
    ) -> Result<(), NoMemory> {
        let Some(state) = begun.last_state() else {
            return Ok(());
        };
        if !is_authoritative(leaf.get()) {
            return Ok(());
        }
        let server = state.server.copy(alloc)?;
        let name = state.name.copy(alloc)?;
        self.push(ZoneEnd { server, name })
    }
}

/// Nothing is kept of the walks that were shown, and none is made.
impl WalkVisitor for () {
    ghost after = { λ seen walk. seen };

    fn visit(
        &mut self,
        _alloc: Global,
        _begun: &BegunWalk,
        _hop: Option<Boxed<Hop>>,
        _leaf: Boxed<Leaf>,
    ) -> Result<(), NoMemory> {
        Ok(())
    }
}

/// What was seen of the walks that were shown: whether one gives an address, and at which name servers some end since no
/// address of them is known. No walk is made for that.
#[derive(Debug, Drop)]
pub(crate) struct AddressSeen {
    pub(crate) gives: bool,
    pub(crate) waits: WaitList,
}

impl Model for AddressSeen {
    ghost use Rattle.plain_resolver.specs.KnownNames.{Seen};

    ghost Value = { Seen };

    ghost view = { λ seen. record { gives = seen.gives; waits = seen.waits } };
}

impl AddressSeen {
    /// What is seen without a walk: whether there is an address, and that nothing is waited for.
    pub(crate) fn new(alloc: Global, gives: bool) -> AddressSeen
        ensures { result ≡ record { gives = gives; waits = no_waits } }
    {
        AddressSeen {
            gives,
            waits: WaitList::new(alloc),
        }
    }
}

impl WalkVisitor for AddressSeen {
    ghost after = { seen_after };

    fn visit(
        &mut self,
        alloc: Global,
        _begun: &BegunWalk,
        _hop: Option<Boxed<Hop>>,
        leaf: Boxed<Leaf>,
    ) -> Result<(), NoMemory> {
        if let Leaf::NoAddress(ns) = leaf.get() {
            self.waits.put(alloc, ns)?;
        }
        self.gives = self.gives || gives_address(leaf.get());
        Ok(())
    }
}
