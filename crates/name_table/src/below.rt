//! The names one label below another.

ghost use Rattle.std.specs.Prelude.{◌≡◌, ◌↔◌, ◌<◌, ◌≤◌, ℕ, true, false, [], ◌∷◌, ◌++◌, length, AllPairs, Contains, IfSome, IfNone, IfOk};
ghost use Rattle.dns_data.specs.Label.{IsLabel};
ghost use Rattle.dns_data.specs.Name.{name_cmp, is_prefix, AreInOrder};
ghost use Rattle.name_table.specs.Table.{name_at, IsTable, IsNextBelow, IsEnd};

use crate::keys::labels_behind;
use crate::table::NameTable;
use dns_data::{Labels, Name, NoMemory, octets_order};
use std::alloc::Global;
use std::cmp::Ordering;

impl NameTable {
    /// The place of the name with this label directly below the one at a place, or `None` where it isn't among the names.
    pub fn child(&self, place: usize, label: &[u8]) -> Option<usize>
        requires { place < length self.now }
        ensures some { IfSome result (λ child. (child < length self.now) × (name_at self.now child ≡ name_at self.now place ++ label.now ∷ [])) }
        ensures none { IfNone result (Contains self.now (name_at self.now place ++ label.now ∷ []) → ⊥) }
        ensures table { IsTable self.now }
    {
        place_below(self.names(), place, label)
    }

    /// The places of the names one label below the one at a place, in order. Where no name stands below that one it takes
    /// no memory.
    pub fn children(&self, alloc: Global, place: usize) -> Result<Vec<usize>, NoMemory>
        requires { place < length self.now }
        ensures children { IfOk result (λ places. (other : ℕ) → Contains places.items other ↔ IsNextBelow self.now place other) }
        ensures rising { IfOk result (λ places. AllPairs (λ a b. a < b) places.items) }
        ensures table { IsTable self.now }
    {
        let names = self.names();
        let mut places = Vec::new(alloc);
        let mut next = place + 1;
        while let Some(child) = inside(names, place, next) {
            places.push(child)?;
            next = end_at(names, child);
        }
        Ok(places)
    }

    /// The last label of the name at the second place, which is one label below the one at the first.
    pub fn last_label(&self, place: usize, other: usize) -> &[u8]
        requires { IsNextBelow self.now place other }
        ensures is { name_at self.now other ≡ name_at self.now place ++ result.now ∷ [] }
        ensures label { IsLabel result.now }
        ensures table { IsTable self.now }
    {
        let names = self.names();
        let mut behind = labels_behind(&names[other].labels(), names[place].len() as usize);
        match behind.next() {
            Some(label) => label,
            None => unreachable!(),
        }
    }
}

/// The other place, if there is a name at or below the one at the first.
fn inside(names: &[Name], place: usize, other: usize) -> Option<usize>
    requires ordered { AreInOrder names.now }
    requires behind { place < other }
    ensures some { IfSome result (λ at. (at ≡ other) × (at < length names.now) × (is_prefix (name_at names.now place) (name_at names.now at) ≡ true)) }
    ensures none { IfNone result (other < length names.now → is_prefix (name_at names.now place) (name_at names.now other) ≡ false) }
{
    if other >= names.len() {
        return None;
    }
    if is_below(names, place, other) {
        Some(other)
    } else {
        None
    }
}

/// Whether the name at the other place is below the one at the first, which stands before it. Their octets are counted
/// first, since the name that stands next mostly isn't below and has as many.
fn is_below(names: &[Name], place: usize, other: usize) -> bool
    requires ordered { AreInOrder names.now }
    requires behind { place < other }
    requires within { other < length names.now }
    ensures { result ≡ is_prefix (name_at names.now place) (name_at names.now other) }
{
    let above = &names[place];
    let name = &names[other];
    above.encoding().len() < name.encoding().len() && above.is_prefix_of(name)
}

/// The place behind the last name at or below the one at a place. It is looked for in steps that grow, since few names
/// stand below most.
fn end_at(names: &[Name], place: usize) -> usize
    requires ordered { AreInOrder names.now }
    requires within { place < length names.now }
    ensures { IsEnd names.now place result }
{
    let mut low = place;
    let mut high = names.len();
    let mut step = 1;
    while high - low > 1 {
        let passed = step.min((high - low) / 2);
        if is_below(names, place, low + passed) {
            low += passed;
            step = 2 * passed;
        } else {
            high = low + passed;
        }
    }
    high
}

/// The place among names in order of the name with this label directly below the one at a place. It is looked for right
/// behind that place first, since that tells where the label stands before those that are there, as the asterisk mostly
/// does; and from there on in steps that double.
fn place_below(names: &[Name], place: usize, label: &[u8]) -> Option<usize>
    requires ordered { AreInOrder names.now }
    requires within { place < length names.now }
    ensures some { IfSome result (λ child. (child < length names.now) × (name_at names.now child ≡ name_at names.now place ++ label.now ∷ [])) }
    ensures none { IfNone result (Contains names.now (name_at names.now place ++ label.now ∷ []) → ⊥) }
{
    let mut low = place + 1;
    let mut high = names.len();
    let mut step: usize = 0;
    while low < high {
        let middle = place_after(low, high, step);
        step = step.saturating_mul(2).saturating_add(1);
        match order_below(names, place, middle, label) {
            Ordering::Less => low = middle + 1,
            Ordering::Equal => return Some(middle),
            Ordering::Greater => high = middle,
        }
    }
    None
}

/// The place so many behind the first of some, or that in their middle, if that is nearer.
fn place_after(low: usize, high: usize, step: usize) -> usize
    requires { low < high }
    ensures from { low ≤ result }
    ensures below { result < high }
{
    low + step.min((high - low) / 2)
}

/// How the name at the other place stands to the one with this label directly below the name at the first. Names that stand
/// behind that one and aren't below it stand behind all that are.
fn order_below(names: &[Name], place: usize, other: usize, label: &[u8]) -> Ordering
    requires ordered { AreInOrder names.now }
    requires behind { place < other }
    requires within { other < length names.now }
    ensures { result ≡ name_cmp (name_at names.now other) (name_at names.now place ++ label.now ∷ []) }
{
    let above = &names[place];
    let name = &names[other];
    if is_below(names, place, other) {
        order_to_label(&labels_behind(&name.labels(), above.len() as usize), label)
    } else {
        Ordering::Greater
    }
}

/// How labels stand to this one alone.
fn order_to_label(labels: &Labels<'_>, label: &[u8]) -> Ordering
    ensures { result ≡ name_cmp labels.now (label.now ∷ []) }
{
    let Some((first, rest)) = labels.split_first() else {
        return Ordering::Less;
    };
    match octets_order(first, label) {
        Ordering::Less => Ordering::Less,
        Ordering::Equal => order_to_none(&rest),
        Ordering::Greater => Ordering::Greater,
    }
}

/// How labels stand to no label.
fn order_to_none(labels: &Labels<'_>) -> Ordering
    ensures { result ≡ name_cmp labels.now [] }
{
    if labels.is_empty() {
        Ordering::Equal
    } else {
        Ordering::Greater
    }
}
