//! Nodes of a graph.

ghost use Rattle.std.specs.Prelude.{◌≡◌};
ghost use Rattle.std.specs.Option.{option_copied};
ghost use Rattle.graph_form.specs.Branches.{hop_of};
ghost use Rattle.graph_form.specs.FirstPath.{node_behind};
ghost use Rattle.graph_form.specs.Graph.{arm_of, branches_of};

use dns_data::{Boxed, List, RrType, TypeSet};
use net_model::{Hop, Leaf, State};

/// A state, and its branches for each type that comes to it. The state, as what a branch tells, stands in memory of its
/// own, so that nodes and branches take a few octets wherever they are moved.
#[derive(Debug, Drop)]
pub struct Node {
    pub state: Boxed<State>,
    pub arms: List<Arm>,
}

/// The branches of a state for the types that all go the same way.
#[derive(Debug, Drop)]
pub struct Arm {
    pub types: TypeSet,
    pub branches: List<Branch>,
}

/// What a state leads to: the node of a next state, or an end. A referral and a rewrite are told as a hop.
#[derive(Debug, Drop)]
pub enum Branch {
    Go {
        hop: Boxed<Hop>,
        to: u32,
    },
    End {
        hop: Option<Boxed<Hop>>,
        leaf: Boxed<Leaf>,
    },
}

impl Node {
    /// The branches for the type, in order. It takes no memory.
    pub fn branches(&self, rtype: RrType) -> &[Branch]
        ensures { result.now ≡ branches_of self.now rtype }
    {
        match self.arm(rtype) {
            Some(arm) => arm.branches.items(),
            None => &[],
        }
    }

    /// The arm for the type, or `None` where no path comes to the node with it.
    fn arm(&self, rtype: RrType) -> Option<&Arm>
        ensures { option_copied result ≡ arm_of self.now rtype }
    {
        self.arms.items().iter().find(|arm| arm.types.has(rtype))
    }
}

impl Branch {
    /// The hop by which the branch goes on or ends, or `None`. It takes no memory.
    pub fn hop(&self) -> Option<&Hop>
        ensures { option_copied result ≡ hop_of self.now }
    {
        match self {
            Branch::Go { hop, .. } => Some(hop.get()),
            Branch::End { hop, .. } => match hop {
                Some(hop) => Some(hop.get()),
                None => None,
            },
        }
    }

    /// The number of the node that the branch goes to, or `None` at an end.
    pub(crate) fn node_behind(&self) -> Option<u32>
        ensures { result ≡ node_behind self.now }
    {
        match self {
            Branch::Go { to, .. } => Some(*to),
            Branch::End { .. } => None,
        }
    }
}
