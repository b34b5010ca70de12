//! What decides at a name with an open tail.

ghost use Rattle.std.specs.Prelude.{◌≡◌, ◌++◌, ◌∷◌, [], true, false, is_some, IfSome};
ghost use Rattle.dns_data.specs.Name.{Labels, is_prefix};
ghost use Rattle.name_rules.specs.SymName.{whole};
ghost use Rattle.net_model.specs.Lookup.{deciding};
ghost use Rattle.net_model.specs.OpenTail.{IsOpenTail};
ghost use Rattle.net_model.specs.Zone.{exists_in};
ghost use Rattle.zone_tree.specs.Decider.{deciding_by, IsOfTree};
ghost use Rattle.sym_query.specs.Answers.{RedirectsKnown};

use name_rules::SymName;
use zone_tree::{Decider, Tree, deciding, open_deciding};

/// What decides at the name with its tail, and if it has one at the known name with any other open tail.
pub(crate) fn decider_of(tree: &Tree<'_>, name: &SymName) -> Decider
    requires inside { is_prefix tree.now.zone.origin name.now.known ≡ true }
    requires missing { IfSome name.now.tail (λ label. exists_in tree.now.zone (name.now.known ++ label ∷ []) ≡ false) }
    ensures node { IsOfTree tree.now result }
    ensures owner { RedirectsKnown tree.now result name.now }
    ensures decides { deciding tree.now.zone (whole name.now) ≡ deciding_by tree.now result }
    ensures all_tails { is_some name.now.tail ≡ true → (tail : Labels) → IsOpenTail tree.now.zone name.now.known tail → deciding tree.now.zone (name.now.known ++ tail) ≡ deciding_by tree.now result }
{
    match &name.tail {
        None => deciding(tree, &name.known),
        Some(_) => open_deciding(tree, &name.known),
    }
}
