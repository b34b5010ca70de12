//! The word for an alias's target, by what its walks ask last.

ghost use Rattle.std.specs.Prelude.{◌≡◌, map, IfOk};
ghost use Rattle.std.specs.List.{list_all, list_any};
ghost use Rattle.graph_form.specs.FirstPath.{answer_eq};
ghost use Rattle.alias_ends.specs.Aliases.{alias_counts, alias_text, ends_word, first_word, has_other_end, other_types};
ghost use Rattle.alias_ends.specs.Known.{end_eq, leaf_at, leaf_of, word_by_ends, word_at};

use dns_data::{List, NoMemory, RrType};
use graph_form::is_same_answer;
use net_model::{Found, Leaf};
use plain_resolver::ZoneEnd;
use std::alloc::Global;
use zone_lookup::{Hosts, find};

/// The word for an alias's target.
#[derive(Clone, Copy, Debug)]
pub enum AliasWord {
    /// From the top servers other ends are found than at the alias's server.
    Differs,
    /// From the top servers no end is found that a zone tells.
    Elsewhere,
}

/// The word for an alias's target, with the first type that has it.
#[derive(Clone, Copy, Debug)]
pub struct TargetWord {
    pub word: AliasWord,
    pub rtype: RrType,
}

/// The types other than CNAME, in the order of their numbers.
const OTHER_TYPES: [RrType; RrType::COUNT - 1] = [
    RrType::A,
    RrType::Ns,
    RrType::Soa,
    RrType::Ptr,
    RrType::Hinfo,
    RrType::Mx,
    RrType::Txt,
    RrType::Aaaa,
    RrType::Srv,
    RrType::Dname,
    RrType::Caa,
];

impl AliasWord {
    /// The word.
    pub fn text(&self) -> &'static str
        ensures { result.now ≡ alias_text self.now }
    {
        match self {
            AliasWord::Differs => "differs",
            AliasWord::Elsewhere => "elsewhere",
        }
    }

    /// Whether its line counts for the status.
    pub fn counts(&self) -> bool
        ensures { result ≡ alias_counts self.now }
    {
        matches!(self, AliasWord::Differs)
    }
}

/// The word for a target, by what its walks of type A from a server ask last and by what those from the top servers do,
/// where there are no more walks than are followed.
pub(crate) fn word_by_ends(
    alloc: Global,
    hosts: &Hosts<'_>,
    here: &Option<List<ZoneEnd>>,
    tops: &Option<List<ZoneEnd>>,
) -> Result<Option<TargetWord>, NoMemory>
    ensures { IfOk result (λ word. word ≡ word_by_ends hosts.now here.now tops.now) }
{
    match (here, tops) {
        (Some(here), Some(tops)) => word_of_ends(alloc, hosts, here.items(), tops.items()),
        _ => Ok(None),
    }
}

/// The word for a target, by what its walks ask last. There is none where the walks from the server ask nothing last that
/// those from the top servers don't.
fn word_of_ends(
    alloc: Global,
    hosts: &Hosts<'_>,
    here: &[ZoneEnd],
    tops: &[ZoneEnd],
) -> Result<Option<TargetWord>, NoMemory>
    ensures { IfOk result (λ word. word ≡ first_word (word_at hosts.now here.now tops.now) other_types) }
{
    if are_among(here, tops) {
        return Ok(None);
    }
    first_word(alloc, hosts, here, tops, &OTHER_TYPES)
}

/// Whether all of the first are among the second.
fn are_among(here: &[ZoneEnd], tops: &[ZoneEnd]) -> bool
    ensures { result ≡ list_all (λ end. list_any (end_eq end) tops.now) here.now }
{
    here.iter().all(|end| is_among(end, tops))
}

/// Whether it is among some.
fn is_among(end: &ZoneEnd, tops: &[ZoneEnd]) -> bool
    ensures { result ≡ list_any (end_eq end.now) tops.now }
{
    tops.iter().any(|other| *end == *other)
}

/// The first of some types that has a word, with it.
fn first_word(
    alloc: Global,
    hosts: &Hosts<'_>,
    here: &[ZoneEnd],
    tops: &[ZoneEnd],
    rtypes: &[RrType],
) -> Result<Option<TargetWord>, NoMemory>
    ensures { IfOk result (λ word. word ≡ first_word (word_at hosts.now here.now tops.now) rtypes.now) }
{
    for rtype in rtypes {
        let said = word_at(alloc, hosts, here, tops, *rtype)?;
        match said {
            Some(word) => {
                return Ok(Some(TargetWord {
                    word,
                    rtype: *rtype,
                }));
            }
            None => {}
        }
    }
    Ok(None)
}

/// The word for a type.
fn word_at(
    alloc: Global,
    hosts: &Hosts<'_>,
    here: &[ZoneEnd],
    tops: &[ZoneEnd],
    rtype: RrType,
) -> Result<Option<AliasWord>, NoMemory>
    ensures { IfOk result (λ word. word ≡ word_at hosts.now here.now tops.now rtype) }
{
    let here = leaves_at(alloc, hosts, rtype, here)?;
    let tops = leaves_at(alloc, hosts, rtype, tops)?;
    Ok(ends_word(here.items(), tops.items()))
}

/// What zones tell with the type where walks end.
fn leaves_at(
    alloc: Global,
    hosts: &Hosts<'_>,
    rtype: RrType,
    ends: &[ZoneEnd],
) -> Result<List<Leaf>, NoMemory>
    ensures { IfOk result (λ leaves. leaves ≡ map (leaf_at hosts.now rtype) ends.now) }
{
    let mut leaves = List::new(alloc);
    for end in ends {
        leaves.push(leaf_at(alloc, hosts, rtype, end)?)?;
    }
    Ok(leaves)
}

/// What a zone tells with the type where a walk ends.
fn leaf_at(alloc: Global, hosts: &Hosts<'_>, rtype: RrType, end: &ZoneEnd) -> Result<Leaf, NoMemory>
    ensures { IfOk result (λ leaf. leaf ≡ leaf_at hosts.now rtype end.now) }
{
    match hosts.nearest_of(&end.server, &end.name) {
        Some(tree) => Ok(leaf_of(find(alloc, tree, &end.name, rtype)?)),
        None => Ok(Leaf::NoData),
    }
}

/// What was found where walks end in what a zone tells.
fn leaf_of(found: Found) -> Leaf
    ensures { result ≡ leaf_of found }
{
    match found {
        Found::Answer(rdata) => Leaf::Answer(rdata),
        Found::NxDomain => Leaf::NxDomain,
        _ => Leaf::NoData,
    }
}

/// The word for what a server answers, beside what is found from the top servers.
fn ends_word(here: &[Leaf], tops: &[Leaf]) -> Option<AliasWord>
    ensures { result ≡ ends_word here.now tops.now }
{
    if here.is_empty() {
        None
    } else if tops.is_empty() {
        Some(AliasWord::Elsewhere)
    } else if has_other_end(here, tops) {
        Some(AliasWord::Differs)
    } else {
        None
    }
}

/// Whether some end of the first is none of the second.
fn has_other_end(here: &[Leaf], tops: &[Leaf]) -> bool
    ensures { result ≡ has_other_end here.now tops.now }
{
    here.iter().any(|leaf| !is_end(leaf, tops))
}

/// Whether it is one of these ends.
fn is_end(leaf: &Leaf, ends: &[Leaf]) -> bool
    ensures { result ≡ list_any (answer_eq leaf.now) ends.now }
{
    ends.iter().any(|end| is_same_answer(leaf, end))
}
