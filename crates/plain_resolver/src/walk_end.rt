//! How walks end.

ghost use Rattle.std.specs.Prelude.{◌≡◌, IfOk};
ghost use Rattle.net_model.specs.Shown.{is_authoritative};
ghost use Rattle.plain_resolver.specs.WalkEnds.{is_rewrite};

use dns_data::{Name, NoMemory};
use net_model::{Hop, Leaf};
use std::alloc::Global;

/// The end of a walk, and whether some hop of it is a rewrite of the name.
#[derive(Debug, Drop)]
pub struct WalkEnd {
    pub leaf: Leaf,
    pub rewritten: bool,
}

/// The server that a walk asks last, and the name for which it asks there.
#[derive(Debug, PartialEq, Eq, PartialOrd, Ord, Drop)]
pub struct ZoneEnd {
    pub server: Name,
    pub name: Name,
}

impl ZoneEnd {
    /// An equal one.
    pub fn copy(&self, alloc: Global) -> Result<ZoneEnd, NoMemory>
        ensures { IfOk result (λ end. end ≡ self.now) }
    {
        Ok(ZoneEnd {
            server: self.server.copy(alloc)?,
            name: self.name.copy(alloc)?,
        })
    }
}

/// Whether the hop is a rewrite of the name.
pub(crate) fn is_rewrite(hop: &Hop) -> bool
    ensures { result ≡ is_rewrite hop.now }
{
    matches!(hop, Hop::Rewrite { .. })
}

/// Whether the leaf tells what a zone has for the name.
pub(crate) fn is_authoritative(leaf: &Leaf) -> bool
    ensures { result ≡ is_authoritative leaf.now }
{
    matches!(leaf, Leaf::Answer(_) | Leaf::NoData | Leaf::NxDomain)
}
