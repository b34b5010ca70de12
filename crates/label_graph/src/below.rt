//! What stands one label below base names.

ghost use Rattle.std.specs.Prelude.{◌≡◌, ◌↔◌, ◌⊎◌, ◌<◌, ℕ, List, ◌++◌, length, Contains, All, AllPairs, IsTrue, IfOk, OnOk};
ghost use Rattle.std.specs.declared.cmp.Ordering.TheVariants.{Less};
ghost use Rattle.dns_data.specs.Label.{label_cmp};
ghost use Rattle.label_graph.specs.Graphs.{AreLabelsBelow, HasChild, SomeItem};
ghost use Rattle.label_graph.specs.Targets.{IsStep};

use crate::live::LiveSet;
use crate::sorting::in_order;
use dns_data::{Label, NoMemory};
use name_table::NameTable;
use std::alloc::Global;

/// The places one label below these.
pub(crate) fn step(
    alloc: Global,
    base: &NameTable,
    places: &[usize],
    label: &[u8],
) -> Result<LiveSet, NoMemory>
    requires { All (λ place. place < length base.now) places.now }
    ensures { IfOk result (λ next. (other : ℕ) → Contains next other ↔ SomeItem (IsStep base.now label.now other) places.now) }
{
    match places {
        [place] => step_of_one(alloc, base, *place, label),
        _ => steps(alloc, base, places, label),
    }
}

/// The place one label below this one, if there is one.
fn step_of_one(
    alloc: Global,
    base: &NameTable,
    place: usize,
    label: &[u8],
) -> Result<LiveSet, NoMemory>
    requires { place < length base.now }
    ensures { IfOk result (λ next. (other : ℕ) → Contains next other ↔ IsStep base.now label.now other place) }
{
    match base.child(place, label) {
        Some(below) => Ok(LiveSet::one(below)),
        None => LiveSet::listed(alloc, Vec::new(alloc)),
    }
}

/// The places one label below each of these.
fn steps(
    alloc: Global,
    base: &NameTable,
    places: &[usize],
    label: &[u8],
) -> Result<LiveSet, NoMemory>
    requires { All (λ place. place < length base.now) places.now }
    ensures { IfOk result (λ next. (other : ℕ) → Contains next other ↔ SomeItem (IsStep base.now label.now other) places.now) }
{
    let mut next = Vec::new(alloc);
    for place in places {
        put_step(base, *place, label, &mut next)?;
    }
    LiveSet::listed(alloc, next)
}

/// Puts the place one label below this one at the end, if there is one.
fn put_step(
    base: &NameTable,
    place: usize,
    label: &[u8],
    next: &mut Vec<usize>,
) -> Result<(), NoMemory>
    requires { place < length base.now }
    ensures { OnOk result ((other : ℕ) → Contains next.new.items other ↔ (Contains next.old.items other ⊎ IsStep base.now label.now other place)) }
{
    let Some(below) = base.child(place, label) else {
        return Ok(());
    };
    next.push(below)?;
    Ok(())
}

/// Whether one of the places has this label below it.
pub(crate) fn has_step(base: &NameTable, places: &[usize], label: &[u8]) -> bool
    requires { All (λ place. place < length base.now) places.now }
    ensures { IsTrue result ↔ SomeItem (HasChild base.now label.now) places.now }
{
    for place in places {
        if has_child(base, *place, label) {
            return true;
        }
    }
    false
}

/// Whether the place has this label below it.
fn has_child(base: &NameTable, place: usize, label: &[u8]) -> bool
    requires { place < length base.now }
    ensures { IsTrue result ↔ HasChild base.now label.now place }
{
    match base.child(place, label) {
        Some(_) => true,
        None => false,
    }
}

/// The labels below these places, put in order, each once.
pub(crate) fn labels_below(
    alloc: Global,
    base: &NameTable,
    places: &[usize],
) -> Result<Vec<Label>, NoMemory>
    requires { All (λ place. place < length base.now) places.now }
    ensures labels { IfOk result (λ labels. (label : List ℕ) → Contains labels.items label ↔ SomeItem (HasChild base.now label) places.now) }
    ensures order { IfOk result (λ labels. AllPairs (λ a b. label_cmp a b ≡ Less) labels.items) }
{
    let mut labels = Vec::new(alloc);
    for place in places {
        put_labels(alloc, base, *place, &mut labels)?;
    }
    in_order(labels)
}

/// Puts the labels below a place, in order, at the end.
fn put_labels(
    alloc: Global,
    base: &NameTable,
    place: usize,
    labels: &mut Vec<Label>,
) -> Result<(), NoMemory>
    requires { place < length base.now }
    ensures { OnOk result ((more : List (List ℕ)) × (labels.new.items ≡ labels.old.items ++ more) × AreLabelsBelow base.now place more) }
{
    let children = base.children(alloc, place)?;
    for other in children.as_slice() {
        labels.push(Label::with_octets(alloc, base.last_label(place, *other))?)?;
    }
    Ok(())
}
