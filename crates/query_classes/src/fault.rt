//! Why there is no class tree.

ghost use Rattle.std.specs.Prelude.{◌≡◌};
ghost use Rattle.query_classes.specs.declared.fault.TreeFault.TheVariants as tree_fault;

use dns_data::WantOfMemory;
use thiserror::Error;

/// Why there is no class tree.
#[derive(Clone, Copy, Debug, PartialEq, Eq, Error)]
pub enum TreeFault {
    #[error("the class tree has more names than the limit")]
    TooMany,
    #[error("no memory")]
    NoMemory,
}

impl<E: WantOfMemory + Drop> From<E> for TreeFault {
    ghost from_gives = { λ _ fault. fault ≡ tree_fault.NoMemory };

    fn from(_fault: E) -> TreeFault {
        TreeFault::NoMemory
    }
}
