//! The fault that a walk shows by its end.

ghost use Rattle.std.specs.Prelude.{◌≡◌, IfOk, option_map};
ghost use Rattle.std.specs.Option.{option_copied};
ghost use Rattle.graph_form.specs.EndFaults.{branch_fault, end_fault, fault_of, is_overlong_end, referral_to, walk_fault};
ghost use Rattle.graph_form.specs.FirstPath.{is_fault};

use crate::node::Branch;
use dns_data::{Name, NoMemory};
use net_model::{Cut, Fault, Hop, Leaf, Place, State, Walk};
use std::alloc::Global;

/// A fault that an end shows. What it is shown at is lent: the name server of a delegation, or the place of a rewrite.
#[derive(Clone, Copy, Debug)]
pub enum EndFault<'w> {
    Lame(&'w Cut),
    NoAddress(&'w Cut),
    Limit(&'w Place),
    Blackhole(&'w Place),
    Overlong(&'w Place),
}

impl<'w> EndFault<'w> {
    /// The fault, with a copy of what is lent.
    pub fn to_fault(&self, alloc: Global) -> Result<Fault, NoMemory>
        ensures { IfOk result (λ fault. fault ≡ fault_of self.now) }
    {
        match self {
            EndFault::Lame(cut) => Ok(Fault::Lame(cut.copy(alloc)?)),
            EndFault::NoAddress(cut) => Ok(Fault::NoAddress(cut.copy(alloc)?)),
            EndFault::Limit(place) => Ok(Fault::Limit(place.copy(alloc)?)),
            EndFault::Blackhole(place) => Ok(Fault::Blackhole(place.copy(alloc)?)),
            EndFault::Overlong(place) => Ok(Fault::Overlong(place.copy(alloc)?)),
        }
    }

    /// Whether it is this fault.
    pub(crate) fn is(&self, fault: &Fault) -> bool
        ensures { result ≡ is_fault (fault_of self.now) fault.now }
    {
        match (self, fault) {
            (EndFault::Lame(cut), Fault::Lame(other))
            | (EndFault::NoAddress(cut), Fault::NoAddress(other)) => **cut == *other,
            (EndFault::Limit(place), Fault::Limit(other))
            | (EndFault::Blackhole(place), Fault::Blackhole(other))
            | (EndFault::Overlong(place), Fault::Overlong(other)) => **place == *other,
            _ => false,
        }
    }
}

/// Whether the branch ends in a name of more than 255 octets.
pub fn is_overlong_end(branch: &Branch) -> bool
    ensures { result ≡ is_overlong_end branch.now }
{
    match branch {
        Branch::End { leaf, .. } => matches!(leaf.get(), Leaf::Overlong(_)),
        Branch::Go { .. } => false,
    }
}

/// The fault that the walk shows by its end, or `None`. It takes no memory.
pub fn walk_fault(walk: &Walk) -> Option<EndFault<'_>>
    ensures { option_map fault_of result ≡ walk_fault walk.now }
{
    let last = match walk.states.items().last() {
        Some(state) => state.last.as_ref(),
        None => None,
    };
    end_fault(last, walk.hops.items().last(), &walk.leaf)
}

/// The fault that a walk shows by ending with the branch of the state, or `None`.
pub(crate) fn branch_fault<'g>(state: &'g State, branch: &'g Branch) -> Option<EndFault<'g>>
    ensures { option_map fault_of result ≡ branch_fault state.now branch.now }
{
    match branch {
        Branch::End { leaf, .. } => end_fault(state.last.as_ref(), branch.hop(), leaf.get()),
        Branch::Go { .. } => None,
    }
}

/// The fault that a walk shows by ending in the leaf, behind the hop and the last rewrite, or `None`.
fn end_fault<'w>(
    last: Option<&'w Place>,
    hop: Option<&'w Hop>,
    leaf: &'w Leaf,
) -> Option<EndFault<'w>>
    ensures { option_map fault_of result ≡ end_fault (option_copied last.entry) (option_copied hop.entry) leaf.now }
{
    match leaf {
        Leaf::Lame(ns) => Some(EndFault::Lame(referral_to(ns, hop)?)),
        Leaf::NoAddress(ns) => Some(EndFault::NoAddress(referral_to(ns, hop)?)),
        Leaf::Limit(place) => Some(EndFault::Limit(place)),
        Leaf::Overlong(place) => Some(EndFault::Overlong(place)),
        Leaf::NxDomain => Some(EndFault::Blackhole(last?)),
        _ => None,
    }
}

/// The name server of the delegation to which the hop is a referral, if it has this name, or `None`.
fn referral_to<'w>(ns: &Name, hop: Option<&'w Hop>) -> Option<&'w Cut>
    ensures { option_copied result ≡ referral_to ns.now (option_copied hop.entry) }
{
    match hop {
        Some(Hop::Refer(cut)) => { if cut.ns == *ns { Some(cut) } else { None } }
        _ => None,
    }
}
