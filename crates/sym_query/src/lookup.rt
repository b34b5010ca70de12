//! Lookups of names with an open tail.

ghost use Rattle.std.specs.Prelude.{◌≡◌, ◌++◌, ◌∷◌, [], true, false, IfSome, IfOk};
ghost use Rattle.std.specs.List.{AllByRecursion};
ghost use Rattle.dns_data.specs.Name.{is_prefix};
ghost use Rattle.dns_data.specs.TypeSet.{has_bit};
ghost use Rattle.dns_data.specs.declared.rr_type.RrType.{RrType};
ghost use Rattle.net_model.specs.Zone.{exists_in};
ghost use Rattle.name_rules.specs.SymName.{whole};
ghost use Rattle.sym_query.specs.TypedFound.{AreApart, answers_type, AnswersSome, IsFoundFor, IsOpenExactly, StandsForTails};

use crate::answers::answers_of;
use crate::decider::decider_of;
use crate::typed_found::TypedFound;
use dns_data::{List, NoMemory, TypeSet};
use name_rules::SymName;
use std::alloc::Global;
use zone_tree::Tree;

/// What the zone of the tree answers to a name at or below its origin and each type of a set (RFC 1034 section 4.3.2,
/// RFC 4592 section 3.3, RFC 6672 section 3.2). Of the name's known labels the origin is a prefix, and with its tail it
/// doesn't exist in the zone.
pub fn find_sym(
    alloc: Global,
    tree: &Tree<'_>,
    name: &SymName,
    types: TypeSet,
) -> Result<List<TypedFound>, NoMemory>
    requires inside { is_prefix tree.now.zone.origin name.now.known ≡ true }
    requires missing { IfSome name.now.tail (λ label. exists_in tree.now.zone (name.now.known ++ label ∷ []) ≡ false) }
    ensures together { IfOk result (λ answers. (t : RrType) → answers_type answers t ≡ has_bit types t) }
    ensures apart { IfOk result AreApart }
    ensures some { IfOk result (AllByRecursion AnswersSome) }
    ensures found { IfOk result (AllByRecursion (IsFoundFor tree.now.zone (whole name.now))) }
    ensures open_tail { IfOk result (AllByRecursion (IsOpenExactly name.now)) }
    ensures all_tails { IfOk result (AllByRecursion (StandsForTails tree.now.zone name.now)) }
{
    answers_of(alloc, tree, decider_of(tree, name), name, types)
}
