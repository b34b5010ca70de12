//! What states lead to, and nodes in the making.

use dns_data::{List, TypeSet};
use graph_form::Arm;
use zone_lookup::Step;

/// The steps of a state, in order, for the types that all go the same way.
#[derive(Debug, Drop)]
pub(crate) struct Fork {
    pub types: TypeSet,
    pub steps: List<Step>,
}

/// What the first turn gives for a state: the arms of its node; or that its name is an alias. The forks of an alias are
/// made in the second turn: where each leads to all top servers, they aren't held for each of as many states.
#[derive(Debug, Drop)]
pub(crate) enum Early {
    Done(List<Arm>),
    Alias,
}

/// Of a node in the second turn its arms, or the forks of its state, which are still to be followed.
#[derive(Debug, Drop)]
pub(crate) enum Draft {
    Done(List<Arm>),
    Left(List<Fork>),
}
