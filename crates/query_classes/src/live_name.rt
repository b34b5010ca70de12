//! Names with their live sets.

ghost use Rattle.std.specs.Prelude.{◌≡◌, ◌↔◌, ◌≤◌, [], ◌∷◌, ◌++◌, map, All, IfOk, OnOk, IsTrue, if◌then◌else◌};
ghost use Rattle.dns_data.specs.Name.{IsName, wire_octets};
ghost use Rattle.label_graph.specs.LiveSet.{IsLiveSet};
ghost use Rattle.net_model.specs.Reading.{IsNamed};
ghost use Rattle.query_classes.specs.Children.{AreChildren, HasBelow, IsBelow, live_below};

use crate::below::name_below;
use crate::free::free_label;
use dns_data::{JoinFault, Label, List, Name, NoMemory};
use label_graph::{LabelGraph, LiveSet, NextName, laws};
use std::alloc::Global;

/// A name with its live set in a graph, so that a walk down the class tree goes on from where it stands.
#[derive(Debug, Drop)]
pub struct LiveName {
    pub name: Name,
    pub live: LiveSet,
}

impl LiveName {
    /// The root with its live set.
    pub fn root(alloc: Global, graph: &LabelGraph) -> Result<LiveName, NoMemory>
        ensures root { IfOk result (λ found. found.name ≡ []) }
        ensures live { IfOk result (λ found. IsLiveSet graph.now found.name found.live) }
    {
        let live = graph.start(alloc)?;
        Ok(LiveName {
            name: Name::root(),
            live,
        })
    }

    /// The name with its live set.
    pub fn of(alloc: Global, graph: &LabelGraph, name: &Name) -> Result<LiveName, NoMemory>
        ensures name { IfOk result (λ found. found.name ≡ name.now) }
        ensures is_name { IfOk result (λ found. IsName found.name) }
        ensures live { IfOk result (λ found. IsLiveSet graph.now found.name found.live) }
    {
        let live = live_of(alloc, graph, name)?;
        let name = name.copy(alloc)?;
        Ok(LiveName { name, live })
    }

    /// The named names of at most 255 octets one label below, in order, each with its live set.
    pub fn children(&self, alloc: Global, graph: &LabelGraph) -> Result<List<LiveName>, NoMemory>
        requires { IsLiveSet graph.now self.now.name self.now.live }
        ensures names { IfOk result (λ names. AreChildren graph.now self.now.name (map (λ below. below.name) names)) }
        ensures live { IfOk result (λ names. All (λ below. IsLiveSet graph.now below.name below.live) names) }
    {
        let nexts = graph.next_names(alloc, &self.live)?;
        let names = self.with_nexts(alloc, nexts)?;
        Ok(List::from_vec(names))
    }

    /// The representative of the class below the name, which is a named one, or `None` where that class is empty.
    pub fn below(&self, alloc: Global, graph: &LabelGraph) -> Result<Option<Name>, NoMemory>
        requires live { IsLiveSet graph.now self.now.name self.now.live }
        requires named { IsNamed graph.now self.now.name }
        ensures { IfOk result (IsBelow graph.now self.now.name) }
    {
        laws::graph_is_closed(graph);
        match free_label(alloc, graph, &self.live)? {
            Some(label) => name_below(alloc, &self.name, &label),
            None => Ok(None),
        }
    }

    /// Whether the class below the name, which is a named one, has a representative. It isn't made.
    pub fn has_below(&self, alloc: Global, graph: &LabelGraph) -> Result<bool, NoMemory>
        requires live { IsLiveSet graph.now self.now.name self.now.live }
        requires named { IsNamed graph.now self.now.name }
        ensures { IfOk result (HasBelow graph.now self.now.name) }
    {
        laws::graph_is_closed(graph);
        // The labels are read, so that it is known here that they are those of a name.
        let _ = self.name.labels();
        match free_label(alloc, graph, &self.live)? {
            Some(label) => Ok(self.name.octets() + label.octets() <= 255),
            None => Ok(false),
        }
    }

    /// Goes on to the name with the label below, where that is named, and tells whether it is.
    pub(crate) fn descend(
        &mut self,
        alloc: Global,
        graph: &LabelGraph,
        label: &Label,
    ) -> Result<bool, NoMemory>
        requires live { IsLiveSet graph.now self.old.name self.old.live }
        requires short { wire_octets (self.old.name ++ label.now ∷ []) ≤ 255 }
        ensures named { IfOk result (λ named. IsTrue named ↔ IsNamed graph.now (self.old.name ++ label.now ∷ [])) }
        ensures name { IfOk result (λ named. self.new.name ≡ (if named then self.old.name ++ label.now ∷ [] else self.old.name)) }
        ensures live { OnOk result (IsLiveSet graph.now self.new.name self.new.live) }
    {
        let next = graph.advance(alloc, &self.live, label)?;
        if next.is_empty() {
            return Ok(false);
        }
        match self.name.push(alloc, label) {
            Ok(()) => {
                self.live = next;
                Ok(true)
            }
            Err(JoinFault::NoMemory) => Err(NoMemory),
            Err(JoinFault::TooLong) => unreachable!(),
        }
    }

    /// The name, whose live set is let go.
    pub(crate) fn into_name(self) -> Name
        ensures { result ≡ self.name }
    {
        self.name
    }

    /// The names of at most 255 octets with one of the labels below this one, each with the live set that comes with it.
    fn with_nexts(&self, alloc: Global, nexts: List<NextName>) -> Result<Vec<LiveName>, NoMemory>
        ensures below { IfOk result (λ names. names.items ≡ live_below self.now.name nexts) }
        ensures names { IfOk result (λ names. All (λ below. IsName below.name) names.items) }
    {
        let mut names = Vec::with_capacity(alloc, nexts.len())?;
        for next in nexts {
            self.put_below(alloc, next, &mut names)?;
        }
        Ok(names)
    }

    /// Puts the name with the label below at the end, with the live set, where it has at most 255 octets.
    fn put_below(
        &self,
        alloc: Global,
        next: NextName,
        names: &mut Vec<LiveName>,
    ) -> Result<(), NoMemory>
        requires { All (λ below. IsName below.name) names.old.items }
        ensures below { OnOk result (names.new.items ≡ names.old.items ++ live_below self.now.name (next ∷ [])) }
        ensures names { OnOk result (All (λ below. IsName below.name) names.new.items) }
    {
        match name_below(alloc, &self.name, &next.label)? {
            Some(name) => {
                names.push(LiveName {
                    name,
                    live: next.live,
                })?;
                Ok(())
            }
            None => Ok(()),
        }
    }
}

/// The live set of a name.
fn live_of(alloc: Global, graph: &LabelGraph, name: &Name) -> Result<LiveSet, NoMemory>
    ensures live { IfOk result (IsLiveSet graph.now name.now) }
    ensures is_name { IfOk result (λ _. IsName name.now) }
{
    let mut live = graph.start(alloc)?;
    let mut rest = name.labels();
    while let Some(octets) = rest.next() {
        let label = Label::with_octets(alloc, octets)?;
        live = graph.advance(alloc, &live, &label)?;
    }
    Ok(live)
}
