//! What that which decides answers to several types.

ghost use Rattle.std.specs.Prelude.{◌≡◌, IfOk};
ghost use Rattle.std.specs.List.{AllByRecursion};
ghost use Rattle.dns_data.specs.TypeSet.{has_bit};
ghost use Rattle.name_rules.specs.SymName.{whole};
ghost use Rattle.net_model.specs.Lookup.{answered};
ghost use Rattle.sym_query.specs.Answers.{AnswersAlike, AnswersAsDecided, AreAnswers, RedirectsKnown};
ghost use Rattle.sym_query.specs.TypedFound.{IsOpenExactly};
ghost use Rattle.zone_lookup.specs.Alike.{AreSplit, HasSome};
ghost use Rattle.zone_tree.specs.Decider.{deciding_by, IsOfTree};

use crate::typed_found::TypedFound;
use dns_data::{List, NoMemory, RrType, TypeSet};
use name_rules::{SymName, redirected_whole};
use net_model::Found;
use std::alloc::Global;
use zone_lookup::{one_set, split_types};
use zone_tree::{Decider, Tree, at_name, referral};

/// What that which decides at the name with its tail answers to each type of a set.
pub(crate) fn answers_of(
    alloc: Global,
    tree: &Tree<'_>,
    decider: Decider,
    name: &SymName,
    types: TypeSet,
) -> Result<List<TypedFound>, NoMemory>
    requires node { IsOfTree tree.now decider }
    requires owner { RedirectsKnown tree.now decider name.now }
    ensures { IfOk result (AreAnswers tree.now.zone name.now (deciding_by tree.now decider) types) }
{
    let sets = sets_alike(alloc, tree, decider, types)?;
    let sets = sets.items();
    let mut answers = List::new(alloc);
    for at in 0..sets.len() {
        answers.push(answer_to(alloc, tree, decider, name, sets[at])?)?;
    }
    Ok(answers)
}

/// The answer of that which decides to types of a set, of which there are some, and which it answers alike.
fn answer_to(
    alloc: Global,
    tree: &Tree<'_>,
    decider: Decider,
    name: &SymName,
    types: TypeSet,
) -> Result<TypedFound, NoMemory>
    requires node { IsOfTree tree.now decider }
    requires owner { RedirectsKnown tree.now decider name.now }
    requires some { HasSome types }
    requires alike { AnswersAlike tree.now.zone (deciding_by tree.now decider) types }
    ensures types { IfOk result (λ answer. answer.types ≡ types) }
    ensures found { IfOk result (AnswersAsDecided tree.now.zone (whole name.now) (deciding_by tree.now decider)) }
    ensures open_tail { IfOk result (IsOpenExactly name.now) }
{
    match types.first() {
        Some(t) => {
            let found = answer(alloc, tree, decider, name, t)?;
            Ok(TypedFound::of(name, types, found))
        }
        // There are some.
        None => unreachable!(),
    }
}

/// The sets into which that which decides splits a set of types: it answers the types of each alike.
fn sets_alike(
    alloc: Global,
    tree: &Tree<'_>,
    decider: Decider,
    types: TypeSet,
) -> Result<List<TypeSet>, NoMemory>
    requires { IsOfTree tree.now decider }
    ensures split { IfOk result (AreSplit (has_bit types)) }
    ensures alike { IfOk result (AllByRecursion (AnswersAlike tree.now.zone (deciding_by tree.now decider))) }
{
    match decider {
        Decider::Cut(_) => one_set(alloc, types),
        Decider::Redirection(_) => one_set(alloc, types),
        Decider::Records(owner) => split_types(alloc, tree, owner, types),
        Decider::Nothing => one_set(alloc, types),
    }
}

/// What that which decides at the name with its tail answers to the type.
fn answer(
    alloc: Global,
    tree: &Tree<'_>,
    decider: Decider,
    name: &SymName,
    t: RrType,
) -> Result<Found, NoMemory>
    requires node { IsOfTree tree.now decider }
    requires owner { RedirectsKnown tree.now decider name.now }
    ensures { IfOk result (λ found. found ≡ answered tree.now.zone (whole name.now) t (deciding_by tree.now decider)) }
{
    match decider {
        Decider::Cut(cut) => referral(alloc, tree, cut),
        Decider::Redirection(owner) => {
            redirected_whole(alloc, name, tree.name(owner), tree.redirection(owner))
        }
        Decider::Records(owner) => at_name(alloc, tree, owner, t),
        Decider::Nothing => Ok(Found::NxDomain),
    }
}
