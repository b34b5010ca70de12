//! Which branches of a node show a fault by themselves.

ghost use Rattle.std.specs.Prelude.{◌≡◌, ◌↔◌, true, false, not};
ghost use Rattle.std.specs.List.{list_all};
ghost use Rattle.std.specs.Option.{option_copied, option_map_or};
ghost use Rattle.net_model.specs.Shown.{is_authoritative};
ghost use Rattle.graph_form.specs.EndFaults as end_faults;
ghost use Rattle.graph_form.specs.FirstPath as first_path;

use crate::end_faults::branch_fault;
use crate::node::Branch;
use net_model::{Cut, Fault, Hop, Leaf, State, Walk};

/// Whether the branch of the state shows the fault: by its referral, whatever comes behind it, or as an end. Of differing
/// answers an end shows one that none of the walks has.
pub(crate) fn branch_shows(fault: &Fault, walks: &[Walk], state: &State, branch: &Branch) -> bool
    ensures { result ≡ first_path.branch_shows fault.now walks.now state.now branch.now }
{
    match fault {
        Fault::Differs(cut) | Fault::NoGlue(cut) | Fault::GlueDiffers(cut) | Fault::Cyclic(cut) =>
            is_referral(cut, branch.hop()),
        Fault::Answers(_, _) => ends_anew(walks, branch),
        _ => ends_with(fault, state, branch),
    }
}

/// Whether the hop is the referral to the name server.
fn is_referral(cut: &Cut, hop: Option<&Hop>) -> bool
    ensures { result ≡ first_path.is_referral cut.now (option_copied hop.entry) }
{
    match hop {
        Some(Hop::Refer(other)) => cut == other,
        _ => false,
    }
}

/// Whether the branch is an end that shows the fault.
fn ends_with(fault: &Fault, state: &State, branch: &Branch) -> bool
    ensures { result ≡ option_map_or (λ found. first_path.is_fault found fault.now) (end_faults.branch_fault state.now branch.now) false }
{
    match branch_fault(state, branch) {
        Some(end) => end.is(fault),
        None => false,
    }
}

/// Whether the branch ends in an authoritative leaf in which none of the walks does.
fn ends_anew(walks: &[Walk], branch: &Branch) -> bool
    ensures { result ≡ first_path.ends_anew walks.now branch.now }
{
    match branch {
        Branch::End { leaf, .. } => is_new_answer(walks, leaf.get()),
        Branch::Go { .. } => false,
    }
}

/// Whether the leaf is authoritative and none of the walks ends in an equal one.
fn is_new_answer(walks: &[Walk], leaf: &Leaf) -> bool
    ensures { result ≡ first_path.is_new_answer walks.now leaf.now }
{
    is_authoritative(leaf) && none_ends_so(walks, leaf)
}

/// Whether none of the walks ends in an equal leaf.
fn none_ends_so(walks: &[Walk], leaf: &Leaf) -> bool
    ensures { result ≡ list_all (λ walk. not (first_path.answer_eq walk.leaf leaf.now)) walks.now }
{
    walks.iter().all(|walk| !is_same_answer(&walk.leaf, leaf))
}

/// Whether the leaf tells what a zone has for the name.
pub fn is_authoritative(leaf: &Leaf) -> bool
    ensures { result ≡ is_authoritative leaf.now }
{
    match leaf {
        Leaf::Answer(_) | Leaf::NoData | Leaf::NxDomain => true,
        _ => false,
    }
}

/// Whether two leaves tell the same of a name: equal data, or both that there is none of the type, or no such name.
pub fn is_same_answer(a: &Leaf, b: &Leaf) -> bool
    ensures value { result ≡ first_path.answer_eq a.now b.now }
    ensures same { is_authoritative a.now ≡ true → (result ≡ true ↔ a.now ≡ b.now) }
{
    match (a, b) {
        (Leaf::Answer(data), Leaf::Answer(other)) => data == other,
        (Leaf::NoData, Leaf::NoData) | (Leaf::NxDomain, Leaf::NxDomain) => true,
        _ => false,
    }
}
