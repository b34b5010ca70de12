//! Whether names that are held go on existing in what is left of their zones.

ghost use Rattle.std.specs.Prelude.{◌≡◌, true, All, IfOk, IfErr, OnOk};
ghost use Rattle.net_model.specs.Zone.{exists_in};
ghost use Rattle.part_checks.specs.Outside.{parent};
ghost use Rattle.part_checks.specs.Rules.{Refutes};

use crate::fault::{PartFault, PartRule};
use dns_data::{Name, NoMemory};
use net_model::Zone;
use std::alloc::Global;
use zone_tree::Tree;

/// Checks that the name right above each of these exists in what is left of a zone.
pub(crate) fn check_lasting(alloc: Global, left: &Zone, outside: &[Name]) -> Result<(), PartFault>
    ensures lasting { OnOk result (All (λ name. exists_in left.now (parent name) ≡ true) outside.now) }
    ensures refused { IfErr result (Refutes (λ rule. All (λ name. PartRule.Exists ≡ rule → exists_in left.now (parent name) ≡ true) outside.now)) }
{
    if outside.is_empty() {
        return Ok(());
    }
    let tree = Tree::build(alloc, left)?;
    names_last(alloc, &tree, outside)
}

/// Checks that the name right above each of these exists in the zone of a tree.
fn names_last(alloc: Global, tree: &Tree<'_>, outside: &[Name]) -> Result<(), PartFault>
    ensures lasting { OnOk result (All (λ name. exists_in tree.now.zone (parent name) ≡ true) outside.now) }
    ensures refused { IfErr result (Refutes (λ rule. All (λ name. PartRule.Exists ≡ rule → exists_in tree.now.zone (parent name) ≡ true) outside.now)) }
{
    for name in outside {
        name_lasts(alloc, tree, name)?;
    }
    Ok(())
}

/// Checks that the name right above this one exists in the zone of a tree.
fn name_lasts(alloc: Global, tree: &Tree<'_>, name: &Name) -> Result<(), PartFault>
    ensures lasting { OnOk result (exists_in tree.now.zone (parent name.now) ≡ true) }
    ensures refused { IfErr result (Refutes (λ rule. PartRule.Exists ≡ rule → exists_in tree.now.zone (parent name.now) ≡ true)) }
{
    let above = parent_of(alloc, name)?;
    if tree.node_at(&above).is_some() {
        return Ok(());
    }
    Err(PartFault::Breaks(PartRule::Exists, above))
}

/// The name without its last label.
pub(crate) fn parent_of(alloc: Global, name: &Name) -> Result<Name, NoMemory>
    ensures { IfOk result (λ above. above ≡ parent name.now) }
{
    name.copy_front(alloc, (name.len() as usize).saturating_sub(1))
}
