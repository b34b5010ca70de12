//! Live sets.

ghost use Rattle.std.specs.Prelude.{◌≡◌, ◌↔◌, [], ◌∷◌, IsTrue, IfOk};

use dns_data::{List, NoMemory};
use std::alloc::Global;
use std::marker::Model;
use std::slice::from_ref;

/// Some base names of a graph, each once. Contracts see their places in the graph. One takes no memory of its own: it
/// stands in the value.
#[derive(Debug, Drop)]
pub struct LiveSet {
    form: LiveForm,
}

/// One place, or the places of a list.
#[derive(Debug, Drop)]
enum LiveForm {
    One(usize),
    Listed(Box<List<usize>>),
}

impl Model for LiveSet {
    ghost use Rattle.std.specs.Prelude.{List, ℕ};
    ghost use Rattle.label_graph.specs.Places.{places_in};

    ghost Value = { List ℕ };

    ghost view = { λ live. places_in live.form };
}

impl LiveSet {
    /// Whether there is none: the name isn't named.
    pub fn is_empty(&self) -> bool
        ensures { IsTrue result ↔ (self.now ≡ []) }
    {
        self.places().is_empty()
    }

    /// An equal set. One base name takes no memory.
    pub fn copy(&self, alloc: Global) -> Result<LiveSet, NoMemory>
        ensures { IfOk result (λ copy. copy ≡ self.now) }
    {
        match &self.form {
            LiveForm::One(place) => Ok(LiveSet::one(*place)),
            LiveForm::Listed(listed) => LiveSet::listed(alloc, listed.items().to_vec(alloc)?),
        }
    }

    /// The places of the base names.
    pub(crate) fn places(&self) -> &[usize]
        ensures { result.now ≡ self.now }
    {
        match &self.form {
            LiveForm::One(place) => from_ref(place),
            LiveForm::Listed(listed) => listed.items(),
        }
    }

    /// The set of one place. It takes no memory.
    pub(crate) fn one(place: usize) -> LiveSet
        ensures { result ≡ place ∷ [] }
    {
        LiveSet {
            form: LiveForm::One(place),
        }
    }

    /// The set of the places in a vector.
    pub(crate) fn listed(alloc: Global, places: Vec<usize>) -> Result<LiveSet, NoMemory>
        ensures { IfOk result (λ live. live ≡ places.items) }
    {
        let listed = Box::new(alloc, List::from_vec(places))?;
        Ok(LiveSet {
            form: LiveForm::Listed(listed),
        })
    }
}
