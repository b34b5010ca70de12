//! Sets of outcomes.

ghost use Rattle.std.specs.Prelude.{◌≡◌, ◌||◌, map, IfOk, OnOk};
ghost use Rattle.std.specs.List.{list_all, list_any};
ghost use Rattle.net_model.specs.declared.walk.Leaf.{Leaf as LeafOf};
ghost use Rattle.same_answers.specs.Ends.{are_alike, are_within, outcome_eq};
ghost use Rattle.same_answers.specs.Outcomes.{has_outcome};

use dns_data::{List, NoMemory, Rdata};
use net_model::Leaf;
use std::alloc::Global;
use std::collections::BTreeSet;

/// The outcomes of ends: the answers among them, and whether there are the others.
#[derive(Drop)]
struct OutcomeSet<'g> {
    answers: BTreeSet<&'g List<Rdata>>,
    no_data: bool,
    nx_domain: bool,
    failed: bool,
}

impl<'g> OutcomeSet<'g> {
    /// The outcomes of these ends.
    fn of(alloc: Global, ends: &[&'g Leaf]) -> Result<OutcomeSet<'g>, NoMemory>
        ensures { IfOk result (λ set. (leaf : LeafOf) → has_outcome set leaf ≡ list_any (outcome_eq leaf) (map (λ end. end.now) ends.now)) }
    {
        let mut set = OutcomeSet {
            answers: BTreeSet::new(alloc),
            no_data: false,
            nx_domain: false,
            failed: false,
        };
        for leaf in ends {
            set.put(leaf)?;
        }
        Ok(set)
    }

    /// Puts the outcome of an end to the others.
    fn put(&mut self, leaf: &'g Leaf) -> Result<(), NoMemory>
        ensures { OnOk result ((query : LeafOf) → has_outcome self.new query ≡ (has_outcome self.old query || outcome_eq query leaf.now)) }
    {
        match leaf {
            Leaf::Answer(data) => {
                self.answers.insert(data)?;
            }
            Leaf::NoData => self.no_data = true,
            Leaf::NxDomain => self.nx_domain = true,
            _ => self.failed = true,
        }
        Ok(())
    }

    /// Whether the outcome of an end is among them.
    fn has(&self, leaf: &'g Leaf) -> bool
        ensures { result ≡ has_outcome self.now leaf.now }
    {
        match leaf {
            Leaf::Answer(data) => self.answers.contains(&data),
            Leaf::NoData => self.no_data,
            Leaf::NxDomain => self.nx_domain,
            _ => self.failed,
        }
    }
}

/// Whether the ends have the same outcomes. Each is looked for in an ordered set of the others.
pub(crate) fn are_alike<'g>(
    alloc: Global,
    some: &[&'g Leaf],
    others: &[&'g Leaf],
) -> Result<bool, NoMemory>
    ensures { IfOk result (λ alike. alike ≡ are_alike (map (λ end. end.now) some.now) (map (λ end. end.now) others.now)) }
{
    Ok(are_within(alloc, some, others)? && are_within(alloc, others, some)?)
}

/// Whether each of the ends has the outcome of one of the others.
fn are_within<'g>(alloc: Global, some: &[&'g Leaf], others: &[&'g Leaf]) -> Result<bool, NoMemory>
    ensures { IfOk result (λ within. within ≡ are_within (map (λ end. end.now) some.now) (map (λ end. end.now) others.now)) }
{
    let known = OutcomeSet::of(alloc, others)?;
    Ok(has_all(&known, some))
}

/// Whether the outcomes of all ends are among these.
fn has_all<'g>(known: &OutcomeSet<'g>, some: &[&'g Leaf]) -> bool
    ensures { result ≡ list_all (has_outcome known.now) (map (λ end. end.now) some.now) }
{
    for leaf in some {
        if !known.has(leaf) {
            return false;
        }
    }
    true
}
