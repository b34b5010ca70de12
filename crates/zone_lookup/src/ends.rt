//! Ends of walks.

ghost use Rattle.std.specs.Prelude.{◌≡◌};
ghost use Rattle.net_model.specs.Learnt.{gives_address};

use net_model::Leaf;

/// Whether the end of a walk gives an address, or leads out of what is configured.
pub fn gives_address(leaf: &Leaf) -> bool
    ensures { result ≡ gives_address leaf.now }
{
    matches!(leaf, Leaf::Answer(_) | Leaf::Outside | Leaf::Unhosted(_))
}
