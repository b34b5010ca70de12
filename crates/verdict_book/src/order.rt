//! A list put in order by the places of its elements.

ghost use Rattle.std.specs.Prelude.{◌≡◌, ℕ, ◌<◌, ◌^◌, All, length, slice_get, Some, vec_len, IfOk, OnOk, OnErr, IsSorted};
ghost use Rattle.std.specs.List.{range_with_len, swap};
ghost use Rattle.std.specs.List.Sorted.{IsPermutation, IsSortedByKey};
ghost use Rattle.std.specs.Option.{option_cmp};
ghost use Rattle.verdict_book.specs.Items.{NoneTwice};
ghost use Rattle.verdict_book.specs.Ranks.{ArePermutedPlaces, AreRanks};

use dns_data::NoMemory;
use std::alloc::Global;
use std::cmp::Ordering;

/// Puts the elements, fewer than 2^32, in order. After an error they stand as before. It takes room for two numbers of 32
/// bits an element: not the elements are sorted, but their places. Then each element goes where its place stands among
/// them, by fewer exchanges than there are elements.
pub(crate) fn sort_by_places<T: Ord>(alloc: Global, items: &mut Vec<T>) -> Result<(), NoMemory>
    requires few { vec_len items.old < 2 ^ 32 }
    ensures same { IsPermutation items.old.items items.new.items }
    ensures sorted { OnOk result (IsSorted T.cmp items.new.items) }
    ensures err { OnErr result (items.new.items ≡ items.old.items) }
{
    let places = sorted_places(alloc, items.as_slice())?;
    let mut ranks = ranks_of(alloc, places.as_slice())?;
    put_at_ranks(items, ranks.as_mut_slice());
    Ok(())
}

/// The places of the elements, in the order of the elements.
fn sorted_places<T: Ord>(alloc: Global, items: &[T]) -> Result<Vec<u32>, NoMemory>
    requires few { length items.now < 2 ^ 32 }
    ensures all { IfOk result (λ places. ArePermutedPlaces (length items.now) places.items) }
    ensures sorted { IfOk result (λ places. IsSortedByKey (slice_get items.now) (option_cmp T.cmp) places.items) }
{
    let mut places = all_places(alloc, items.len() as u32)?;
    places.sort_by(|one, other| compare_at(items, *one, *other))?;
    Ok(places)
}

/// The places of a list of so many elements, rising.
fn all_places(alloc: Global, count: u32) -> Result<Vec<u32>, NoMemory>
    ensures { IfOk result (λ places. places.items ≡ range_with_len 0 count) }
{
    let mut places = Vec::with_capacity(alloc, count as usize)?;
    for place in 0..count {
        places.push(place)?;
    }
    Ok(places)
}

/// How the elements at two places compare. No element comes before one.
fn compare_at<T: Ord>(items: &[T], one: u32, other: u32) -> Ordering
    ensures { result ≡ option_cmp T.cmp (slice_get items.now one) (slice_get items.now other) }
{
    items.get(one as usize).cmp(&items.get(other as usize))
}

/// The rank of each place: which one it is of the places, counted from 0.
fn ranks_of(alloc: Global, places: &[u32]) -> Result<Vec<u32>, NoMemory>
    requires few { length places.now < 2 ^ 32 }
    requires all { ArePermutedPlaces (length places.now) places.now }
    ensures { IfOk result (λ ranks. AreRanks places.now ranks.items) }
{
    let mut ranks = vec![in alloc; 0u32; places.len()]?;
    for rank in 0..places.len() {
        ranks[places[rank] as usize] = rank as u32;
    }
    Ok(ranks)
}

/// Puts each element at the place that its rank names; no two have one rank. Each exchange brings at least one
/// element to its place for good, so there are fewer exchanges than elements.
fn put_at_ranks<T>(items: &mut Vec<T>, ranks: &mut [u32])
    requires many { length ranks.old ≡ length items.old.items }
    requires below { All (λ rank. rank < length items.old.items) ranks.old }
    requires once { NoneTwice ranks.old }
    ensures same { IsPermutation items.old.items items.new.items }
    ensures each { (place rank : ℕ) → slice_get ranks.old place ≡ Some rank → slice_get items.new.items rank ≡ slice_get items.old.items place }
{
    let mut place = 0;
    while place < ranks.len() {
        let rank = ranks[place] as usize;
        if rank == place {
            place += 1;
        } else {
            exchange(items, ranks, place, rank);
        }
    }
}

/// Exchanges the elements at two places, and their ranks.
fn exchange<T>(items: &mut Vec<T>, ranks: &mut [u32], one: usize, other: usize)
    requires many { length ranks.old ≡ vec_len items.old }
    requires one { one < vec_len items.old }
    requires other { other < vec_len items.old }
    ensures items { items.new.items ≡ swap items.old.items one other }
    ensures ranks { ranks.new ≡ swap ranks.old one other }
{
    items.swap(one, other);
    ranks.swap(one, other);
}
