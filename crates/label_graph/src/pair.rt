//! Pairs of names.

ghost use Rattle.std.specs.Prelude.{◌≡◌, IfOk};

use dns_data::{List, Name, NoMemory};
use std::alloc::Global;

/// The owner and the target of a DNAME record.
#[derive(Debug, Drop)]
pub struct Pair {
    pub from: Name,
    pub to: Name,
}

/// A list of equal pairs.
pub(crate) fn copies(alloc: Global, pairs: &[Pair]) -> Result<List<Pair>, NoMemory>
    ensures { IfOk result (λ copies. copies ≡ pairs.now) }
{
    let mut copies = List::new(alloc);
    for pair in pairs {
        let from = pair.from.copy(alloc)?;
        let to = pair.to.copy(alloc)?;
        copies.push(Pair { from, to })?;
    }
    Ok(copies)
}
