//! Names that show the same faults as all others below one name.

ghost use Rattle.std.specs.Prelude.{◌≡◌, ℕ, true, Contains, IfOk, IfSome};
ghost use Rattle.net_model.specs.declared.config.Config.{Config};
ghost use Rattle.query_verdicts.specs.AlikeBelow.{AreAlikeBelow, IsFitBelow};
ghost use Rattle.query_verdicts.specs.Queries.{WalksLike, limited_to};
ghost use Rattle.query_verdicts.specs.Verdict.{IsClassVerdict};

use crate::verdict::ClassVerdict;
use dns_data::{List, Name, NoMemory};
use graph_form::Seen;
use std::alloc::Global;

/// What all names below another show that have at most so many octets: these faults and no others. None of them reaches
/// more pairs of state and type than are looked at, and each walks as the one that is named does.
#[derive(Drop)]
pub(crate) struct AlikeBelow {
    pub above: Name,
    pub like: Name,
    pub octets: u32,
    pub shown: List<Seen>,
}

impl AlikeBelow {
    /// Whether the query is one of them: it stands below the name, and has at most so many octets.
    fn has(&self, query: &Name) -> bool
        ensures { result ≡ true → IsFitBelow self.now query.now }
    {
        if query.octets() > self.octets {
            return false;
        }
        if query.len() <= self.above.len() {
            return false;
        }
        self.above.is_prefix_of(query)
    }
}

/// The verdict of a query that is one of these names, or `None` where it isn't.
pub(crate) fn verdict_alike(
    alloc: Global,
    alike: &[AlikeBelow],
    query: &Name,
) -> Result<Option<ClassVerdict>, NoMemory>
    ensures { IfOk result (λ found. IfSome found (λ verdict. (config : Config) (rewrites states : ℕ) → AreAlikeBelow config rewrites states alike.now
        → IsClassVerdict config rewrites states query.now verdict)) }
{
    match one_with(alike, query) {
        Some(one) => {
            let shown = shown_copy(alloc, one.shown.items())?;
            Ok(Some(ClassVerdict::Faults(shown)))
        }
        None => Ok(None),
    }
}

/// The name as which a query walks that is one of these names, or `None` where it isn't.
pub(crate) fn like_of<'a>(alike: &'a [AlikeBelow], query: &Name) -> Option<&'a Name>
    ensures { IfSome result (λ like. (config : Config) (rewrites states : ℕ) → AreAlikeBelow config rewrites states alike.now
        → WalksLike (limited_to config rewrites states) like.now query.now) }
{
    let one = one_with(alike, query)?;
    Some(&one.like)
}

/// The one of these among whose names the query is, where they stand in the order of their names and none below another's.
/// No meaning rests on their order.
fn one_with<'a>(alike: &'a [AlikeBelow], query: &Name) -> Option<&'a AlikeBelow>
    ensures one { IfSome result (λ one. Contains alike.now one.now) }
    ensures fits { IfSome result (λ one. IsFitBelow one.now query.now) }
{
    let front = alike.get(..place_of(alike, query))?;
    let one = front.last()?;
    if one.has(query) { Some(one) } else { None }
}

/// How many of these, in the order of their names, stand before the query.
fn place_of(alike: &[AlikeBelow], query: &Name) -> usize {
    match alike.binary_search_by(|one| one.above.compare(query)) {
        Ok(place) | Err(place) => place,
    }
}

/// Equal faults with their types.
fn shown_copy(alloc: Global, shown: &[Seen]) -> Result<List<Seen>, NoMemory>
    ensures { IfOk result (λ copies. copies ≡ shown.now) }
{
    let mut copies = List::new(alloc);
    for seen in shown {
        copies.push(seen_copy(alloc, seen)?)?;
    }
    Ok(copies)
}

/// An equal fault with its type.
fn seen_copy(alloc: Global, seen: &Seen) -> Result<Seen, NoMemory>
    ensures { IfOk result (λ copy. copy ≡ seen.now) }
{
    let fault = seen.fault.copy(alloc)?;
    let rtype = seen.rtype;
    Ok(Seen { fault, rtype })
}
