//! Labels below live sets, each with what is live there.

ghost use Rattle.std.specs.Prelude.{◌≡◌, ◌↔◌, ◌<◌, ℕ, List, [], ◌∷◌, ◌++◌, length, map, Contains, All, AllPairs, IfOk};
ghost use Rattle.std.specs.declared.cmp.Ordering.TheVariants.{Less};
ghost use Rattle.dns_data.specs.Label.{label_cmp};
ghost use Rattle.label_graph.specs.Graphs.{AreLabelsBelow, HasChild, IsLiveBelow, SomeItem};
ghost use Rattle.label_graph.specs.Rows.{AreInside};
ghost use Rattle.name_table.specs.Table.{name_at, IsNextBelow};

use crate::below::{labels_below, step};
use crate::closing::close;
use crate::live::LiveSet;
use crate::rows::Rows;
use dns_data::{Label, NoMemory};
use name_table::NameTable;
use std::alloc::Global;

/// A label that makes a named name below another, and the live set of the name that it makes.
#[derive(Debug, Drop)]
pub struct NextName {
    pub label: Label,
    pub live: LiveSet,
}

/// The labels below these places, in order, each once, with what is live there. Below one place no label is looked for.
pub(crate) fn next_names(
    alloc: Global,
    base: &NameTable,
    reads: &Rows,
    places: &[usize],
) -> Result<Vec<NextName>, NoMemory>
    requires within { All (λ place. place < length base.now) places.now }
    requires len { length reads.now ≡ length base.now }
    requires rows { AreInside reads.now }
    ensures labels { IfOk result (λ names. (label : List ℕ) → Contains (map (λ next. next.label) names.items) label ↔ SomeItem (HasChild base.now label) places.now) }
    ensures order { IfOk result (λ names. AllPairs (λ a b. label_cmp a b ≡ Less) (map (λ next. next.label) names.items)) }
    ensures live { IfOk result (λ names. All (λ next. IsLiveBelow base.now reads.now places.now next.label next.live) names.items) }
{
    if let [place] = places {
        return next_of_one(alloc, base, reads, *place);
    }
    let labels = labels_below(alloc, base, places)?;
    let mut names = Vec::with_capacity(alloc, labels.len())?;
    for label in labels.as_slice() {
        names.push(next_with(alloc, base, reads, places, label)?)?;
    }
    Ok(names)
}

/// The labels below a place, which stand in order there, with what is live there.
fn next_of_one(
    alloc: Global,
    base: &NameTable,
    reads: &Rows,
    place: usize,
) -> Result<Vec<NextName>, NoMemory>
    requires within { place < length base.now }
    requires len { length reads.now ≡ length base.now }
    requires rows { AreInside reads.now }
    ensures labels { IfOk result (λ names. AreLabelsBelow base.now place (map (λ next. next.label) names.items)) }
    ensures live { IfOk result (λ names. All (λ next. IsLiveBelow base.now reads.now (place ∷ []) next.label next.live) names.items) }
{
    let children = base.children(alloc, place)?;
    let mut names = Vec::with_capacity(alloc, children.len())?;
    for other in children.as_slice() {
        names.push(next_at(alloc, base, reads, place, *other)?)?;
    }
    Ok(names)
}

/// The last label of the name at the second place, which is one label below the one at the first, with what is live there.
fn next_at(
    alloc: Global,
    base: &NameTable,
    reads: &Rows,
    place: usize,
    other: usize,
) -> Result<NextName, NoMemory>
    requires below { IsNextBelow base.now place other }
    requires len { length reads.now ≡ length base.now }
    requires rows { AreInside reads.now }
    ensures label { IfOk result (λ next. name_at base.now other ≡ name_at base.now place ++ next.label ∷ []) }
    ensures live { IfOk result (λ next. IsLiveBelow base.now reads.now (place ∷ []) next.label next.live) }
{
    let label = Label::with_octets(alloc, base.last_label(place, other))?;
    let live = close(alloc, reads, LiveSet::one(other))?;
    Ok(NextName { label, live })
}

/// A label with what is live where it is put below these places.
fn next_with(
    alloc: Global,
    base: &NameTable,
    reads: &Rows,
    places: &[usize],
    label: &Label,
) -> Result<NextName, NoMemory>
    requires within { All (λ place. place < length base.now) places.now }
    requires len { length reads.now ≡ length base.now }
    requires rows { AreInside reads.now }
    ensures label { IfOk result (λ next. next.label ≡ label.now) }
    ensures live { IfOk result (λ next. IsLiveBelow base.now reads.now places.now next.label next.live) }
{
    let steps = step(alloc, base, places, label.items())?;
    let live = close(alloc, reads, steps)?;
    let label = label.copy(alloc)?;
    Ok(NextName { label, live })
}
