//! Where names stand in a table.

ghost use Rattle.std.specs.Prelude.{◌≡◌, ◌<◌, true, length, Contains, IfSome, IfNone};
ghost use Rattle.std.specs.List.Sorted.{IsSearchInRange, IsBinarySearchResult};
ghost use Rattle.dns_data.specs.Name.{name_cmp, is_prefix, AreInOrder};
ghost use Rattle.name_table.specs.Keys.{IsKeyBelow, AreKeyed};
ghost use Rattle.name_table.specs.Table.{name_at, IsLastUpTo};

use crate::keys::{key_if_below, key_of};
use crate::table::NameTable;
use dns_data::{Labels, Name};
use std::cmp::Ordering;

impl NameTable {
    /// The place of the name with these labels, or `None` where it isn't among the names.
    pub fn place_of(&self, labels: &Labels<'_>) -> Option<usize>
        ensures some { IfSome result (λ place. (place < length self.now) × (name_at self.now place ≡ labels.now)) }
        ensures none { IfNone result (Contains self.now labels.now → ⊥) }
    {
        let (names, keys) = self.with_keys();
        let key = key_if_below(&names[0], labels)?;
        match search(names, keys, labels, key) {
            Ok(place) => Some(place),
            Err(_) => None,
        }
    }

    /// The place of the name with these labels, where it is among the next few behind a place. `None` tells nothing: the
    /// name may stand elsewhere.
    pub fn place_behind(&self, place: usize, labels: &Labels<'_>) -> Option<usize>
        requires { place < length self.now }
        ensures { IfSome result (λ near. (near < length self.now) × (name_at self.now near ≡ labels.now)) }
    {
        place_behind(self.names(), place, labels)
    }

    /// The place of the last name that doesn't stand behind the one with these labels, which is at or below the first.
    pub fn last_up_to(&self, labels: &Labels<'_>) -> usize
        requires { is_prefix (name_at self.now 0) labels.now ≡ true }
        ensures { IsLastUpTo self.now labels.now result }
    {
        let (names, keys) = self.with_keys();
        match search(names, keys, labels, key_of(&names[0], labels)) {
            Ok(place) => place,
            Err(place) => place - 1,
        }
    }
}

/// The place of the name with these labels in a table with these keys, of which the name has the given one, or how many
/// names stand before it.
fn search(names: &[Name], keys: &[u64], labels: &Labels<'_>, key: u64) -> Result<usize, usize>
    requires ordered { AreInOrder names.now }
    requires keyed { AreKeyed names.now keys.now }
    requires key { IsKeyBelow (name_at names.now 0) labels.now key }
    ensures range { IsSearchInRange result (length names.now) }
    ensures position { IsBinarySearchResult (λ name. name_cmp name labels.now) names.now result }
{
    let mut low = 0;
    let mut high = names.len();
    while low < high {
        let middle = low + (high - low) / 2;
        match order_at(names, keys, middle, labels, key) {
            Ordering::Less => low = middle + 1,
            Ordering::Equal => return Ok(middle),
            Ordering::Greater => high = middle,
        }
    }
    Err(low)
}

/// How the name at a place stands to the one with these labels and this key: as their keys do, where these differ.
fn order_at(names: &[Name], keys: &[u64], place: usize, labels: &Labels<'_>, key: u64) -> Ordering
    requires keyed { AreKeyed names.now keys.now }
    requires within { place < length names.now }
    requires key { IsKeyBelow (name_at names.now 0) labels.now key }
    ensures { result ≡ name_cmp (name_at names.now place) labels.now }
{
    let own = keys[place];
    if own == key {
        names[place].labels().compare(labels)
    } else {
        own.cmp(&key)
    }
}

/// The place of the name with these labels, where it is among the next few behind a place. `None` tells nothing.
fn place_behind(names: &[Name], place: usize, labels: &Labels<'_>) -> Option<usize>
    requires { place < length names.now }
    ensures { IfSome result (λ near. (near < length names.now) × (name_at names.now near ≡ labels.now)) }
{
    let end = names.len().min(place + 9);
    for near in place + 1..end {
        if names[near].labels().compare(labels) == Ordering::Equal {
            return Some(near);
        }
    }
    None
}
