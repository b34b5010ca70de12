//! Walks that have no end yet.

ghost use Rattle.std.specs.Prelude.{◌≡◌, ◌++◌, ◌∷◌, [], IfOk, OnOk};
ghost use Rattle.std.specs.List.{list_any};
ghost use Rattle.std.specs.Option.{option_map, option_to_list};
ghost use Rattle.plain_resolver.specs.Begun.{ended};
ghost use Rattle.plain_resolver.specs.WalkEnds.{is_rewrite, last_state};

use crate::walk_end::is_rewrite;
use dns_data::{Boxed, List, NoMemory};
use net_model::{Hop, Leaf, State, Walk};
use std::alloc::Global;
use std::marker::Model;

/// A begun walk: its states and hops so far.
#[derive(Debug, Drop)]
pub(crate) struct BegunWalk {
    states: Vec<Boxed<State>>,
    hops: Vec<Boxed<Hop>>,
}

impl Model for BegunWalk {
    ghost use Rattle.plain_resolver.specs.Begun.{Begun};

    ghost Value = { Begun };

    ghost view = { λ begun. record { states = begun.states.items; hops = begun.hops.items } };
}

impl BegunWalk {
    /// The walk before its first state.
    pub(crate) fn new(alloc: Global) -> BegunWalk
        ensures { result ≡ record { states = []; hops = [] } }
    {
        BegunWalk {
            states: Vec::new(alloc),
            hops: Vec::new(alloc),
        }
    }

    /// Puts a state at the end.
    pub(crate) fn enter(&mut self, state: Boxed<State>) -> Result<(), NoMemory>
        ensures { OnOk result (self.new ≡ record { states = self.old.states ++ state ∷ []; hops = self.old.hops }) }
    {
        self.states.push(state)?;
        Ok(())
    }

    /// Takes the last state off.
    pub(crate) fn leave(&mut self)
        ensures { (states : _) (state : _) → self.old.states ≡ states ++ state ∷ [] → self.new ≡ record { states = states; hops = self.old.hops } }
    {
        self.states.pop();
    }

    /// Puts a hop at the end.
    pub(crate) fn go(&mut self, hop: Boxed<Hop>) -> Result<(), NoMemory>
        ensures { OnOk result (self.new ≡ record { states = self.old.states; hops = self.old.hops ++ hop ∷ [] }) }
    {
        self.hops.push(hop)?;
        Ok(())
    }

    /// Takes the last hop off.
    pub(crate) fn back(&mut self)
        ensures { (hops : _) (hop : _) → self.old.hops ≡ hops ++ hop ∷ [] → self.new ≡ record { states = self.old.states; hops = hops } }
    {
        self.hops.pop();
    }

    /// The walk with this end.
    pub(crate) fn ended(
        &self,
        alloc: Global,
        hop: Option<Boxed<Hop>>,
        leaf: Boxed<Leaf>,
    ) -> Result<Walk, NoMemory>
        ensures { IfOk result (λ walk. walk ≡ ended self.now hop leaf) }
    {
        let mut walk = Walk {
            states: List::new(alloc),
            hops: List::new(alloc),
            leaf: leaf.get().copy(alloc)?,
        };
        self.put_way(alloc, hop, &mut walk)?;
        Ok(walk)
    }

    /// Whether the walk is rewritten, with the hop to its end.
    pub(crate) fn is_rewritten(&self, last: Option<Boxed<Hop>>) -> bool
        ensures { result ≡ list_any is_rewrite (self.now.hops ++ option_to_list last) }
    {
        let before = some_rewrite(self.hops.as_slice());
        match last {
            Some(hop) => before || is_rewrite(hop.get()),
            None => before,
        }
    }

    /// The last state, or none before the first.
    pub(crate) fn last_state(&self) -> Option<&State>
        ensures { option_map (λ state. state.now) result ≡ last_state self.now.states }
    {
        match self.states.as_slice().last() {
            Some(state) => Some(state.get()),
            None => None,
        }
    }

    /// Puts copies of the states and hops into a walk, and the hop to its end.
    fn put_way(
        &self,
        alloc: Global,
        last: Option<Boxed<Hop>>,
        walk: &mut Walk,
    ) -> Result<(), NoMemory>
        ensures { OnOk result (walk.new ≡ ended self.now last walk.old.leaf) }
    {
        walk.hops = hops_to_end(alloc, self.hops.as_slice(), last)?;
        walk.states = copied_states(alloc, self.states.as_slice())?;
        Ok(())
    }
}

/// Whether some hop is a rewrite of the name.
fn some_rewrite(hops: &[Boxed<Hop>]) -> bool
    ensures { result ≡ list_any is_rewrite hops.now }
{
    hops.iter().any(|hop| is_rewrite(hop.get()))
}

/// Copies of hops, and of the hop to the walk's end.
fn hops_to_end(
    alloc: Global,
    hops: &[Boxed<Hop>],
    last: Option<Boxed<Hop>>,
) -> Result<List<Hop>, NoMemory>
    ensures { IfOk result (λ all. all ≡ hops.now ++ option_to_list last) }
{
    let mut all = copied_hops(alloc, hops)?;
    match last {
        Some(hop) => {
            all.push(hop.get().copy(alloc)?)?;
            Ok(all)
        }
        None => Ok(all),
    }
}

/// Copies of hops.
fn copied_hops(alloc: Global, hops: &[Boxed<Hop>]) -> Result<List<Hop>, NoMemory>
    ensures { IfOk result (λ copies. copies ≡ hops.now) }
{
    let mut copies = List::new(alloc);
    for hop in hops {
        copies.push(hop.get().copy(alloc)?)?;
    }
    Ok(copies)
}

/// Copies of states.
fn copied_states(alloc: Global, states: &[Boxed<State>]) -> Result<List<State>, NoMemory>
    ensures { IfOk result (λ copies. copies ≡ states.now) }
{
    let mut copies = List::new(alloc);
    for state in states {
        copies.push(state.get().copy(alloc)?)?;
    }
    Ok(copies)
}
