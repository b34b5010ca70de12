//! Buckets, into which items fall by numbers that equal items share, so that few items have to be compared.

ghost use Rattle.std.specs.Prelude.{◌≡◌, ◌<◌, ◌∷◌, ◌++◌, [], ◌&&◌, ℕ, Bool, List, length, map, IfOk, OnOk};
ghost use Rattle.std.specs.List.{filter};
ghost use Rattle.zone_rules.specs.Buckets.{bucket_with, has_rival, bucket_place, lower_half, lower_key, lower_keys, Marked, SaysRivals};

use dns_data::NoMemory;
use std::alloc::Global;
use std::marker::Model;

/// How many buckets there are for an item by the upper half of its number: few, so that they fit into fast memory.
const UPPER_FOR_ONE: usize = 4;

/// How many buckets there are for an item by the lower half of its number.
const LOWER_FOR_ONE: usize = 16;

/// The most buckets that there are.
const MOST_BUCKETS: usize = 0xFFFF_FFFF;

/// What fell into a bucket.
#[derive(Clone, Copy, Debug, PartialEq, Eq)]
pub(crate) enum Bucket {
    /// Nothing.
    Empty,
    /// Items of which each may stand beside others.
    Shared,
    /// One item, which has to stand alone.
    Taken,
    /// An item that has to stand alone, and another one.
    Contested,
}

/// Buckets, of which there is at least one, and fewer than 2^32.
#[derive(Drop)]
pub(crate) struct Buckets {
    buckets: Vec<Bucket>,
}

impl Model for Buckets {
    ghost use Rattle.std.specs.Prelude.{List, ◌<◌, ◌^◌, length};
    ghost use Rattle.zone_rules.specs.declared.buckets.Bucket.{Bucket};

    ghost Value = { List Bucket };

    ghost view = { λ a. a.buckets.items };

    ghost invariant = { λ a. (0 < length a.buckets.items) × (length a.buckets.items < 2 ^ 32) };
}

impl Bucket {
    /// What is in the bucket with one item more.
    fn with(self, is_alone: bool) -> Bucket
        ensures { result ≡ bucket_with self is_alone }
    {
        match (self, is_alone) {
            (Bucket::Empty, true) => Bucket::Taken,
            (Bucket::Empty | Bucket::Shared, false) => Bucket::Shared,
            _ => Bucket::Contested,
        }
    }
}

/// For each key, which is a number and whether the item has to stand alone, whether an item with it may have a rival:
/// of the two one has to stand alone.
pub(crate) fn rivals(alloc: Global, keys: &[(u64, bool)]) -> Result<Vec<bool>, NoMemory>
    ensures { IfOk result (λ rivals. SaysRivals rivals.items keys.now) }
{
    let upper = Buckets::of(alloc, keys, UPPER_FOR_ONE)?.rivals(alloc, keys)?;
    let lower_keys = lower_keys(alloc, keys, upper.as_slice())?;
    let lower = Buckets::of(alloc, lower_keys.as_slice(), LOWER_FOR_ONE)?;
    lower.rivals_too(alloc, keys, upper.as_slice())
}

/// The keys by the lower halves of their numbers, of the items alone of which it is said that they may have a rival.
fn lower_keys(
    alloc: Global,
    keys: &[(u64, bool)],
    rivals: &[bool],
) -> Result<Vec<(u64, bool)>, NoMemory>
    requires { length rivals.now ≡ length keys.now }
    ensures { (may : ℕ → Bool) → rivals.now ≡ map (λ key. may key.0) keys.now
        → IfOk result (λ lower. lower.items ≡ lower_keys may keys.now) }
{
    let mut lower = Vec::new(alloc);
    for (i, key) in keys.iter().enumerate() {
        push_lower(&mut lower, *key, rivals[i])?;
    }
    Ok(lower)
}

/// Puts a key by the lower half of its number behind the others, where an item with it may have a rival.
fn push_lower(
    lower: &mut Vec<(u64, bool)>,
    key: (u64, bool),
    is_rival: bool,
) -> Result<(), NoMemory>
    ensures { OnOk result (lower.new.items ≡ lower.old.items ++ map lower_key (filter (λ _. is_rival) (key ∷ []))) }
{
    if is_rival {
        lower.push((lower_half(key.0), key.1))?;
    }
    Ok(())
}

impl Buckets {
    /// The buckets of items with these keys, this many for an item.
    fn of(alloc: Global, keys: &[(u64, bool)], for_one: usize) -> Result<Buckets, NoMemory>
        ensures { IfOk result (λ buckets. Marked buckets keys.now) }
    {
        let mut buckets = Buckets::new(alloc, keys.len().saturating_mul(for_one))?;
        for key in keys {
            buckets.put(key.0, key.1);
        }
        Ok(buckets)
    }

    /// For each key, whether an item with it may have a rival in these buckets.
    fn rivals(&self, alloc: Global, keys: &[(u64, bool)]) -> Result<Vec<bool>, NoMemory>
        ensures { IfOk result (λ rivals. rivals.items ≡ map (λ key. has_rival self.now key.0) keys.now) }
    {
        let mut rivals = Vec::with_capacity(alloc, keys.len())?;
        for key in keys {
            rivals.push(self.has_rival(key.0))?;
        }
        Ok(rivals)
    }

    /// For each key, whether an item with it may have a rival by what is said of it, and in these buckets by the lower
    /// half of its number, too.
    fn rivals_too(
        &self,
        alloc: Global,
        keys: &[(u64, bool)],
        rivals: &[bool],
    ) -> Result<Vec<bool>, NoMemory>
        requires { length rivals.now ≡ length keys.now }
        ensures { (may : ℕ → Bool) → rivals.now ≡ map (λ key. may key.0) keys.now
            → IfOk result (λ both. both.items ≡ map (λ key. may key.0 && has_rival self.now (lower_half key.0)) keys.now) }
    {
        let mut both = Vec::with_capacity(alloc, keys.len())?;
        for (i, key) in keys.iter().enumerate() {
            both.push(self.is_rival_too(rivals[i], key.0))?;
        }
        Ok(both)
    }

    /// Whether an item with this number may have a rival by what is said of it, and in these buckets by the number's lower
    /// half, too.
    fn is_rival_too(&self, is_rival: bool, number: u64) -> bool
        ensures { result ≡ (is_rival && has_rival self.now (lower_half number)) }
    {
        is_rival && self.has_rival(lower_half(number))
    }

    /// Empty buckets, as many as asked for, but at least one and no more than there may be.
    fn new(alloc: Global, count: usize) -> Result<Buckets, NoMemory>
        ensures { IfOk result (λ buckets. Marked buckets []) }
    {
        let count = count.clamp(1, MOST_BUCKETS);
        Ok(Buckets {
            buckets: vec![in alloc; Bucket::Empty; count]?,
        })
    }

    /// Puts an item in, by its number. It has to stand alone, or may stand beside others that may.
    fn put(&mut self, number: u64, is_alone: bool)
        ensures { (keys : List (ℕ × Bool)) → Marked self.old keys → Marked self.new (keys ++ (number, is_alone) ∷ []) }
    {
        let place = self.place(number);
        self.buckets[place] = self.buckets[place].with(is_alone);
    }

    /// Whether an item with this number may have a rival: of the two one has to stand alone.
    fn has_rival(&self, number: u64) -> bool
        ensures { result ≡ has_rival self.now number }
    {
        self.buckets[self.place(number)] == Bucket::Contested
    }

    /// The place of the bucket for this number.
    #[tactic(auto, using(crate::proofs::Places::place_within, crate::proofs::Places::scaled_fits))]
    fn place(&self, number: u64) -> usize
        ensures place { result ≡ bucket_place self.now number }
        ensures within { result < length self.now }
    {
        let high = number >> 32;
        let scaled = high * self.buckets.len() as u64;
        (scaled >> 32) as usize
    }
}

/// The lower half of a number, in the place of the upper one.
fn lower_half(number: u64) -> u64
    ensures { result ≡ lower_half number }
{
    number << 32
}
