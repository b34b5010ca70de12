//! Differing answers: two authoritative ends of one type that aren't equal.

ghost use Rattle.std.specs.Prelude.{◌≡◌, ◌∷◌, [], ◌↔◌, false, true, OnOk, MatchOption};
ghost use Rattle.dns_data.specs.RrType.{types};
ghost use Rattle.net_model.specs.declared.walk.Leaf.{Leaf as LeafOf};
ghost use Rattle.rewrite_checks.specs.Answers.{BranchEndsIn, Differ, EndsIn, NodeEndsIn, PutsAnswers, is_other};

use dns_data::{List, NoMemory, RrType};
use graph_form::{Branch, Graph, Node, Seen, is_authoritative, is_same_answer};
use net_model::{Class, Fault, Leaf};
use std::alloc::Global;

/// Puts a fault behind those seen for each type with which answers of the class differ.
pub(crate) fn put_answers(
    alloc: Global,
    class: &Class,
    graph: &Graph,
    seen: &mut List<Seen>,
) -> Result<(), NoMemory>
    ensures { OnOk result (PutsAnswers class.now graph.now types seen.old seen.new) }
{
    for rtype in RrType::ALL.iter() {
        put_type(alloc, class, graph, *rtype, seen)?;
    }
    Ok(())
}

/// Puts a fault behind those seen if answers of the class differ with the type.
fn put_type(
    alloc: Global,
    class: &Class,
    graph: &Graph,
    rtype: RrType,
    seen: &mut List<Seen>,
) -> Result<(), NoMemory>
    ensures { OnOk result (PutsAnswers class.now graph.now (rtype ∷ []) seen.old seen.new) }
{
    if answers_differ(graph, rtype) {
        let fault = Fault::Answers(class.copy(alloc)?, rtype);
        return seen.push(Seen { fault, rtype });
    }
    Ok(())
}

/// Whether two authoritative ends of the type differ.
fn answers_differ(graph: &Graph, rtype: RrType) -> bool
    ensures { result ≡ true ↔ Differ graph.now rtype }
{
    // The leaf `Outside` tells nothing of a name, so that any authoritative one tells another thing.
    match other_answer(graph, rtype, &Leaf::Outside) {
        Some(first) => other_answer(graph, rtype, first).is_some(),
        None => false,
    }
}

/// The first authoritative end of the type that tells another thing than the leaf, or `None`.
fn other_answer<'a>(graph: &'a Graph, rtype: RrType, than: &Leaf) -> Option<&'a Leaf>
    ensures { MatchOption result ((leaf : LeafOf) → EndsIn graph.now rtype leaf → is_other than.now leaf ≡ false) (λ leaf. EndsIn graph.now rtype leaf.now × (is_other than.now leaf.now ≡ true)) }
{
    for i in 0..graph.nodes() {
        if let Some(leaf) = other_of_node(graph.node(i), rtype, than) {
            return Some(leaf);
        }
    }
    None
}

/// The first authoritative end of a node's branches for the type that tells another thing than the leaf, or `None`.
fn other_of_node<'a>(node: &'a Node, rtype: RrType, than: &Leaf) -> Option<&'a Leaf>
    ensures { MatchOption result ((leaf : LeafOf) → NodeEndsIn node.now rtype leaf → is_other than.now leaf ≡ false) (λ leaf. NodeEndsIn node.now rtype leaf.now × (is_other than.now leaf.now ≡ true)) }
{
    for branch in node.branches(rtype) {
        if let Some(leaf) = other_of_branch(branch, than) {
            return Some(leaf);
        }
    }
    None
}

/// The leaf of a branch, if it is an authoritative end that tells another thing than this leaf, or `None`.
fn other_of_branch<'a>(branch: &'a Branch, than: &Leaf) -> Option<&'a Leaf>
    ensures { MatchOption result ((leaf : LeafOf) → BranchEndsIn branch.now leaf → is_other than.now leaf ≡ false) (λ leaf. BranchEndsIn branch.now leaf.now × (is_other than.now leaf.now ≡ true)) }
{
    match branch {
        Branch::End { leaf, .. } => {
            let leaf = leaf.get();
            if is_other(than, leaf) {
                Some(leaf)
            } else {
                None
            }
        }
        Branch::Go { .. } => None,
    }
}

/// Whether the leaf is authoritative and tells another thing.
fn is_other(than: &Leaf, leaf: &Leaf) -> bool
    ensures { result ≡ is_other than.now leaf.now }
{
    is_authoritative(leaf) && !is_same_answer(than, leaf)
}
