//! The graph.

ghost use Rattle.std.specs.Prelude.{◌≡◌, ◌↔◌, ℕ, List, [], ◌∷◌, ◌++◌, map, IfOk, IsTrue, All, Contains, AllPairs};
ghost use Rattle.std.specs.declared.cmp.Ordering.TheVariants.{Less};
ghost use Rattle.dns_data.specs.Label.{label_cmp};
ghost use Rattle.dns_data.specs.Name.{Labels, AreInOrder};
ghost use Rattle.net_model.specs.Reading.{IsNamed};
ghost use Rattle.label_graph.specs.LiveSet.{IsClosed, IsLiveSet};
ghost use Rattle.label_graph.specs.Pairs.{ground_with, AreSame};

use crate::below::{has_step, step};
use crate::closing::close;
use crate::following::reads_of;
use crate::live::LiveSet;
use crate::next::{NextName, next_names};
use crate::pair::{Pair, copies};
use crate::rows::Rows;
use crate::sorting::in_order;
use dns_data::{Label, List, Name, NoMemory};
use name_table::NameTable;
use std::alloc::Global;
use std::marker::Model;

/// The graph. Contracts see it as its base names, in order, and its redirections.
#[derive(Drop)]
pub struct LabelGraph {
    base: NameTable,
    dnames: List<Pair>,
    reads: Rows,
}

impl Model for LabelGraph {
    ghost use Rattle.net_model.specs.Reading.{Ground};
    ghost use Rattle.label_graph.specs.Graphs.{IsGraph};
    ghost use Rattle.label_graph.specs.Pairs.{ground_with};

    ghost Value = { Ground };

    ghost view = { λ graph. ground_with graph.base graph.dnames };

    ghost invariant = { λ graph. IsGraph graph.base graph.dnames graph.reads };
}

impl LabelGraph {
    /// The graph of the names and of the pairs of DNAME records. The names are put in order.
    pub fn build(alloc: Global, names: Vec<Name>, dnames: &[Pair]) -> Result<LabelGraph, NoMemory>
        requires { IsClosed (ground_with names.items dnames.now) }
        ensures same { IfOk result (λ graph. AreSame graph (ground_with names.items dnames.now)) }
        ensures order { IfOk result (λ graph. AreInOrder graph.names) }
    {
        let names = in_order(names)?;
        LabelGraph::of_ordered(alloc, names, dnames)
    }

    /// The graph of names in order, each once, and of the pairs of DNAME records.
    fn of_ordered(alloc: Global, names: Vec<Name>, dnames: &[Pair]) -> Result<LabelGraph, NoMemory>
        requires order { AreInOrder names.items }
        requires closed { IsClosed (ground_with names.items dnames.now) }
        ensures same { IfOk result (λ graph. AreSame graph (ground_with names.items dnames.now)) }
        ensures order { IfOk result (λ graph. AreInOrder graph.names) }
    {
        let base = NameTable::of(alloc, names)?;
        let reads = reads_of(alloc, &base, dnames)?;
        let dnames = copies(alloc, dnames)?;
        Ok(LabelGraph {
            base,
            dnames,
            reads,
        })
    }

    /// The live set of the root.
    pub fn start(&self, alloc: Global) -> Result<LiveSet, NoMemory>
        ensures { IfOk result (IsLiveSet self.now []) }
    {
        // The root stands first. Named, since the proof speaks of the live set that comes where memory suffices.
        let live = close(alloc, &self.reads, LiveSet::one(0))?;
        Ok(live)
    }

    /// The live set of a name with a label more below, from that of the name.
    pub fn advance(&self, alloc: Global, live: &LiveSet, label: &Label) -> Result<LiveSet, NoMemory>
        requires { (name : Labels) × IsLiveSet self.now name live.now }
        ensures { IfOk result (λ next. (name : Labels) → IsLiveSet self.now name live.now → IsLiveSet self.now (name ++ label.now ∷ []) next) }
    {
        let places = step(alloc, &self.base, live.places(), label.items())?;
        // Named, since the proof speaks of the live set that comes where memory suffices.
        let next = close(alloc, &self.reads, places)?;
        Ok(next)
    }

    /// Whether the label makes a named name below a name with this live set.
    pub fn has_next(&self, live: &LiveSet, label: &Label) -> bool
        requires { (name : Labels) × IsLiveSet self.now name live.now }
        ensures { (name : Labels) → IsLiveSet self.now name live.now → IsTrue result ↔ IsNamed self.now (name ++ label.now ∷ []) }
    {
        has_step(&self.base, live.places(), label.items())
    }

    /// The labels that make a named name below a name with this live set, in order, each once and with the live set of
    /// the name that it makes. Where the live set has one base name, no label is looked for.
    pub fn next_names(&self, alloc: Global, live: &LiveSet) -> Result<List<NextName>, NoMemory>
        requires { (name : Labels) × IsLiveSet self.now name live.now }
        ensures labels { IfOk result (λ names. (name : Labels) → IsLiveSet self.now name live.now
            → (label : List ℕ) → Contains (map (λ next. next.label) names) label ↔ IsNamed self.now (name ++ label ∷ [])) }
        ensures order { IfOk result (λ names. AllPairs (λ a b. label_cmp a b ≡ Less) (map (λ next. next.label) names)) }
        ensures live { IfOk result (λ names. (name : Labels) → IsLiveSet self.now name live.now
            → All (λ next. IsLiveSet self.now (name ++ next.label ∷ []) next.live) names) }
    {
        let names = next_names(alloc, &self.base, &self.reads, live.places())?;
        Ok(List::from_vec(names))
    }

    /// The graph's names have the root, the prefixes of each and the owners of all redirections.
    pub(crate) fn is_closed(&self)
        ensures { IsClosed self.now }
    {
        // The rows are read, so that what holds of the graph is known here.
        let _ = &self.reads;
    }

    /// Each name has a live set in the graph.
    pub(crate) fn has_live_sets(&self)
        ensures { (name : Labels) → (places : List ℕ) × IsLiveSet self.now name places }
    {
        // The rows are read, so that what holds of the graph is known here.
        let _ = &self.reads;
    }
}
