//! Why a graph isn't given.

ghost use Rattle.std.specs.Prelude.{◌≡◌};
ghost use Rattle.interp_graph.specs.declared.fault.GraphFault.TheVariants as graph_fault;

use dns_data::WantOfMemory;
use thiserror::Error;

/// Why the graph of a query isn't given.
#[derive(Clone, Copy, Debug, PartialEq, Eq, Error)]
pub enum GraphFault {
    /// More pairs of state and type are reached than are allowed.
    #[error("there are more states than are allowed")]
    StatesPassed,
    #[error("no memory")]
    NoMemory,
}

impl<E: WantOfMemory + Drop> From<E> for GraphFault {
    ghost from_gives = { λ _ fault. fault ≡ graph_fault.NoMemory };

    fn from(_fault: E) -> GraphFault {
        GraphFault::NoMemory
    }
}
