//! Items in the order of their names, and searches among them.

ghost use Rattle.std.specs.Prelude.{◌≡◌, ◌<◌, ◌≤◌, true, map, take, length, Err, IfOk, IfErr, IfSome, IfNone};
ghost use Rattle.std.specs.List.{HoldsAt};
ghost use Rattle.std.specs.List.Sorted.{IsStrictlySortedBy, IsSearchInRange, IsBinarySearchResult};
ghost use Rattle.std.specs.Option.{option_map};
ghost use Rattle.std.specs.declared.cmp.Ordering.TheVariants.{Less, Greater};
ghost use Rattle.dns_data.specs.Name.{Labels, name_cmp};
ghost use Rattle.zone_lookup.specs.Named.{item_named, NoneFrom, IsAtLongest};

use dns_data::{Labels, Name};
use std::cmp::Ordering;

/// What has a name: a server its own, and what belongs to a zone the zone's origin.
pub trait Named {
    ghost name_of: { Self → Labels };

    /// The name.
    fn its_name(&self) -> &Name
        ensures { result.now ≡ name_of self.now };
}

/// The item of this name, among items in the order of their names.
pub(crate) fn item_named<'i, T: Named>(items: &'i [T], name: &Labels<'_>) -> Option<&'i T>
    requires { IsStrictlySortedBy name_cmp (map T.name_of items.now) }
    ensures { option_map (λ item. item.now) result ≡ item_named T.name_of items.now name.now }
{
    match place_of(items, name) {
        Ok(place) => Some(&items[place]),
        Err(_) => None,
    }
}

/// The item of this name, among items in the order of their names. The one at a place near is looked at first.
pub(crate) fn item_near<'i, T: Named>(items: &'i [T], near: usize, name: &Name) -> Option<&'i T>
    requires { IsStrictlySortedBy name_cmp (map T.name_of items.now) }
    ensures { option_map (λ item. item.now) result ≡ item_named T.name_of items.now name.now }
{
    match items.get(near) {
        Some(item) if *item.its_name() == *name => Some(item),
        _ => item_named(items, &name.labels()),
    }
}

/// A place near which the name stands, among items in the order of their names.
pub(crate) fn near_of<T: Named>(items: &[T], name: &Name) -> usize
    requires { IsStrictlySortedBy name_cmp (map T.name_of items.now) }
{
    not_behind(place_of(items, &name.labels()))
}

/// The item whose name is the longest at or above this one, among items in the order of their names. The name's place
/// is looked for near a place first, whatever that is, and is the place near which the next name may be looked for.
pub fn nearest_item<'i, T: Named>(items: &'i [T], near: &mut usize, name: &Name) -> Option<&'i T>
    requires { IsStrictlySortedBy name_cmp (map T.name_of items.now) }
    ensures some { IfSome result (λ item. IsAtLongest (item_named T.name_of items.now) name.now (length name.now) item.now) }
    ensures none { IfNone result (NoneFrom (item_named T.name_of items.now) name.now (length name.now) 0) }
{
    if let Some(item) = nearest_at(items, *near, name) {
        return Some(item);
    }
    let count = name.len() as usize;
    let place = place_near(items, *near, &name.labels());
    *near = not_behind(place);
    match nearest_or_fewer(items, name, count, place) {
        Ok(item) => Some(item),
        Err(fewer) => nearest_of_fewer(items, name, fewer),
    }
}

/// The item whose name is the longest at or above this one, where it stands at a place, and the next one tells that.
fn nearest_at<'i, T: Named>(items: &'i [T], near: usize, name: &Name) -> Option<&'i T>
    requires { IsStrictlySortedBy name_cmp (map T.name_of items.now) }
    ensures { IfSome result (λ item. IsAtLongest (item_named T.name_of items.now) name.now (length name.now) item.now) }
{
    match items.get(near) {
        Some(item) if item.its_name().is_prefix_of(name) => {
            if is_past(items, near + 1, &name.labels()) {
                Some(item)
            } else {
                None
            }
        }
        _ => None,
    }
}

/// Whether the name of the item at a place stands behind this one, or there is no such item.
fn is_past<T: Named>(items: &[T], place: usize, name: &Labels<'_>) -> bool
    ensures { result ≡ true → place < length items.now → HoldsAt (λ item. name_cmp (T.name_of item) name.now ≡ Greater) items.now place }
{
    match order_at(items, place, name) {
        Some(Ordering::Greater) => true,
        Some(_) => false,
        None => true,
    }
}

/// The item whose name is the longest at or above this one, where each such name has fewer labels.
fn nearest_of_fewer<'i, T: Named>(items: &'i [T], name: &Name, fewer: usize) -> Option<&'i T>
    requires ordered { IsStrictlySortedBy name_cmp (map T.name_of items.now) }
    requires within { fewer ≤ length name.now }
    requires none { NoneFrom (item_named T.name_of items.now) name.now (length name.now) fewer }
    ensures some { IfSome result (λ item. IsAtLongest (item_named T.name_of items.now) name.now (length name.now) item.now) }
    ensures none { IfNone result (NoneFrom (item_named T.name_of items.now) name.now (length name.now) 0) }
{
    let mut count = fewer;
    while count > 0 {
        let place = place_of(items, &name.front(count - 1));
        match nearest_or_fewer(items, name, count - 1, place) {
            Ok(item) => return Some(item),
            Err(fewer) => count = fewer,
        }
    }
    None
}

/// The item whose name is the longest among the name's prefixes of at most `count` labels, or a number of labels which all
/// such names stay below. The place is that of the prefix of this many labels.
fn nearest_or_fewer<'i, T: Named>(
    items: &'i [T],
    name: &Name,
    count: usize,
    place: Result<usize, usize>,
) -> Result<&'i T, usize>
    requires ordered { IsStrictlySortedBy name_cmp (map T.name_of items.now) }
    requires within { count ≤ length name.now }
    requires range { IsSearchInRange place (length items.now) }
    requires position { IsBinarySearchResult (λ item. name_cmp (T.name_of item) (take count name.now)) items.now place }
    ensures ok { IfOk result (λ item. IsAtLongest (item_named T.name_of items.now) name.now count item.now) }
    ensures fewer { IfErr result (λ fewer. fewer ≤ count) }
    ensures none { IfErr result (NoneFrom (item_named T.name_of items.now) name.now count) }
{
    match place {
        Ok(place) => Ok(&items[place]),
        Err(before) => nearest_before(items, name, count, before),
    }
}

/// The item whose name is the longest among the name's prefixes of at most `count` labels, or a number of labels which all
/// such names stay below, where no item is at the prefix of this many labels and this many items stand before it.
fn nearest_before<'i, T: Named>(
    items: &'i [T],
    name: &Name,
    count: usize,
    before: usize,
) -> Result<&'i T, usize>
    requires ordered { IsStrictlySortedBy name_cmp (map T.name_of items.now) }
    requires within { count ≤ length name.now }
    requires range { before ≤ length items.now }
    requires position { IsBinarySearchResult (λ item. name_cmp (T.name_of item) (take count name.now)) items.now (Err before) }
    ensures ok { IfOk result (λ item. IsAtLongest (item_named T.name_of items.now) name.now count item.now) }
    ensures fewer { IfErr result (λ fewer. fewer ≤ count) }
    ensures none { IfErr result (NoneFrom (item_named T.name_of items.now) name.now count) }
{
    if before == 0 {
        return Err(0);
    }
    let item = &items[before - 1];
    let own = item.its_name();
    if own.is_prefix_of(name) {
        return Ok(item);
    }
    let labels = own.labels();
    let common = labels.common_len(&name.labels());
    Err(common as usize + 1)
}

/// The place of the last item that isn't behind a name, where the name's place is this; 0 where there is none.
fn not_behind(place: Result<usize, usize>) -> usize {
    match place {
        Ok(place) => place,
        Err(place) => place.saturating_sub(1),
    }
}

/// The place of the item of this name, among items in the order of their names, or how many of them stand before the
/// name. It is looked for near a place first, whatever that is.
fn place_near<T: Named>(items: &[T], near: usize, name: &Labels<'_>) -> Result<usize, usize>
    requires { IsStrictlySortedBy name_cmp (map T.name_of items.now) }
    ensures range { IsSearchInRange result (length items.now) }
    ensures position { IsBinarySearchResult (λ item. name_cmp (T.name_of item) name.now) items.now result }
{
    match place_at_or_behind(items, near, name) {
        Some(place) => place,
        None => place_of(items, name),
    }
}

/// The place of the item of this name, or how many items stand before the name, where the item at a place and the next
/// one tell it.
fn place_at_or_behind<T: Named>(
    items: &[T],
    near: usize,
    name: &Labels<'_>,
) -> Option<Result<usize, usize>>
    ensures range { IfSome result (λ place. IsSearchInRange place (length items.now)) }
    ensures position { IfSome result (IsBinarySearchResult (λ item. name_cmp (T.name_of item) name.now) items.now) }
{
    match order_at(items, near, name)? {
        Ordering::Less => place_behind(items, near, name),
        Ordering::Equal => Some(Ok(near)),
        Ordering::Greater => None,
    }
}

/// The place of the item of this name, or how many items stand before the name, where the item behind one that stands
/// before the name tells it.
fn place_behind<T: Named>(
    items: &[T],
    before: usize,
    name: &Labels<'_>,
) -> Option<Result<usize, usize>>
    requires within { before < length items.now }
    requires before { HoldsAt (λ item. name_cmp (T.name_of item) name.now ≡ Less) items.now before }
    ensures range { IfSome result (λ place. IsSearchInRange place (length items.now)) }
    ensures position { IfSome result (IsBinarySearchResult (λ item. name_cmp (T.name_of item) name.now) items.now) }
{
    let next = before + 1;
    match order_at(items, next, name) {
        Some(Ordering::Less) => None,
        Some(Ordering::Equal) => Some(Ok(next)),
        Some(Ordering::Greater) => Some(Err(next)),
        None => Some(Err(next)),
    }
}

/// How the name of the item at a place stands to this one, or `None` behind the last item.
fn order_at<T: Named>(items: &[T], place: usize, name: &Labels<'_>) -> Option<Ordering>
    ensures within { IfSome result (λ _. place < length items.now) }
    ensures order { IfSome result (λ order. HoldsAt (λ item. name_cmp (T.name_of item) name.now ≡ order) items.now place) }
    ensures none { IfNone result (length items.now ≤ place) }
{
    let item = items.get(place)?;
    Some(item.its_name().labels().compare(name))
}

/// The place of the item of this name, among items in the order of their names, or how many of them stand before the name.
fn place_of<T: Named>(items: &[T], name: &Labels<'_>) -> Result<usize, usize>
    requires { IsStrictlySortedBy name_cmp (map T.name_of items.now) }
    ensures range { IsSearchInRange result (length items.now) }
    ensures position { IsBinarySearchResult (λ item. name_cmp (T.name_of item) name.now) items.now result }
{
    items.binary_search_by(
        |item: &T| -> Ordering
            ensures { result ≡ name_cmp (T.name_of item.now) name.entry.now }
        { item.its_name().labels().compare(name) },
    )
}
