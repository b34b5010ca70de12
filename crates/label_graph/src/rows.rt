//! For each place a list of places.

ghost use Rattle.std.specs.Prelude.{◌≡◌, ◌<◌, [], length, replicate, slice_index_or, IfOk, OnOk};
ghost use Rattle.label_graph.specs.Rows.{AreAdded, IsFilledOn, IsPut};

use dns_data::{List, NoMemory};
use std::alloc::Global;
use std::marker::Model;

/// A list of places for each of this many places. Those behind the last that has something take no memory.
#[derive(Drop)]
pub(crate) struct Rows {
    count: usize,
    filled: Vec<List<usize>>,
}

impl Model for Rows {
    ghost use Rattle.std.specs.Prelude.{◌≤◌, List, ℕ, length};
    ghost use Rattle.label_graph.specs.Rows.{all_rows};

    ghost Value = { List (List ℕ) };

    ghost view = { λ rows. all_rows rows.filled.items rows.count };

    ghost invariant = { λ rows. length rows.filled.items ≤ rows.count };
}

impl Rows {
    /// Empty rows, as many as asked for. They take no memory.
    pub(crate) fn new(alloc: Global, count: usize) -> Rows
        ensures { result ≡ replicate count [] }
    {
        Rows {
            count,
            filled: Vec::new(alloc),
        }
    }

    /// The row of a place.
    pub(crate) fn at(&self, place: usize) -> &[usize]
        requires { place < length self.now }
        ensures { result.now ≡ slice_index_or self.now place [] }
    {
        row_in(self.filled.as_slice(), place)
    }

    /// Puts those of some places that the row of a place hasn't at its end, each once. Whether there are any.
    pub(crate) fn put(
        &mut self,
        alloc: Global,
        place: usize,
        more: &[usize],
    ) -> Result<bool, NoMemory>
        requires { place < length self.old }
        ensures { IfOk result (λ any. IsPut self.old place more.now self.new any) }
    {
        fill_on(alloc, &mut self.filled, place)?;
        put_missing(&mut self.filled[place], more)
    }
}

/// The row of a place, which is empty behind the last.
fn row_in(rows: &[List<usize>], place: usize) -> &[usize]
    ensures { result.now ≡ slice_index_or rows.now place [] }
{
    match rows.get(place) {
        Some(row) => row.items(),
        None => &[],
    }
}

/// Puts empty rows at the end until the place has one.
fn fill_on(alloc: Global, rows: &mut Vec<List<usize>>, place: usize) -> Result<(), NoMemory>
    ensures filled { IsFilledOn rows.old.items place rows.new.items }
    ensures place { OnOk result (place < length rows.new.items) }
{
    while rows.len() <= place {
        rows.push(List::new(alloc))?;
    }
    Ok(())
}

/// Puts those of some places that the list hasn't at its end, each once. Whether there are any.
pub(crate) fn put_missing(list: &mut List<usize>, more: &[usize]) -> Result<bool, NoMemory>
    ensures { IfOk result (λ any. AreAdded list.old more.now list.new any) }
{
    let mut any = false;
    for place in more {
        if !list.items().contains(place) {
            list.push(*place)?;
            any = true;
        }
    }
    Ok(any)
}
