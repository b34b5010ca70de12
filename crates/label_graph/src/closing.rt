//! What is live besides base names: where their redirections lead.

ghost use Rattle.std.specs.Prelude.{◌≡◌, ◌↔◌, ◌<◌, ℕ, [], length, slice_index_or, Contains, All, IsTrue, IfOk};
ghost use Rattle.label_graph.specs.Graphs.{SomeItem};
ghost use Rattle.label_graph.specs.Rows.{AreInside};
ghost use Rattle.label_graph.specs.Targets.{IsFrom};

use crate::live::LiveSet;
use crate::rows::{Rows, put_missing};
use dns_data::{List, NoMemory};
use std::alloc::Global;

/// The places with those to which one comes from them by the rows.
pub(crate) fn close(alloc: Global, reads: &Rows, places: LiveSet) -> Result<LiveSet, NoMemory>
    requires within { All (λ place. place < length reads.now) places }
    requires rows { AreInside reads.now }
    ensures { IfOk result (λ live. (other : ℕ) → Contains live other ↔ SomeItem (IsFrom reads.now other) places) }
{
    if none_redirected(reads, places.places()) {
        return Ok(places);
    }
    closed(alloc, reads, places.places())
}

/// Whether one comes from none of these places to another.
fn none_redirected(reads: &Rows, places: &[usize]) -> bool
    requires { All (λ place. place < length reads.now) places.now }
    ensures { IsTrue result → All (λ place. slice_index_or reads.now place [] ≡ []) places.now }
{
    for place in places {
        if !reads.at(*place).is_empty() {
            return false;
        }
    }
    true
}

/// The places, each once, with those to which one comes from them by the rows: each that is found is looked at once.
fn closed(alloc: Global, reads: &Rows, places: &[usize]) -> Result<LiveSet, NoMemory>
    requires within { All (λ place. place < length reads.now) places.now }
    requires rows { AreInside reads.now }
    ensures { IfOk result (λ live. (other : ℕ) → Contains live other ↔ SomeItem (IsFrom reads.now other) places.now) }
{
    let mut found = List::new(alloc);
    put_missing(&mut found, places)?;
    let mut passed = 0;
    while passed < found.len() {
        let place = found.items()[passed];
        put_missing(&mut found, reads.at(place))?;
        passed += 1;
    }
    LiveSet::listed(alloc, found.into_vec())
}
