//! What a zone has below a name that it answers.

ghost use Rattle.std.specs.Prelude.{◌≡◌, true, IfOk};
ghost use Rattle.straight_walks.specs.Searching.{HasNothingBelow};
ghost use Rattle.zone_tree.specs.Tree.{IsNode};

use dns_data::{Label, Name, NoMemory, RrType};
use std::alloc::Global;
use zone_tree::{NodeId, Tree};

/// Whether the zone has nothing for the query with a tail of which it has no name: the query is this owner itself, which
/// owns no DNAME record (RFC 6672 section 2.3), and below which no asterisk label stands (RFC 4592 section 3.3.1).
pub(crate) fn has_nothing_below(
    alloc: Global,
    tree: &Tree<'_>,
    owner: NodeId,
    query: &Name,
) -> Result<bool, NoMemory>
    requires { IsNode tree.now owner }
    ensures { IfOk result (λ none. none ≡ true → HasNothingBelow tree.now owner query.now) }
{
    // The zone is read, so that it is known here that the owner exists in it.
    let _ = tree.zone();
    let itself = *tree.name(owner) == *query;
    if !itself {
        return Ok(false);
    }
    if tree.types(owner).has(RrType::Dname) {
        return Ok(false);
    }
    let asterisk = Label::with_octets(alloc, b"*")?;
    match tree.child(owner, &asterisk) {
        Some(_) => Ok(false),
        None => Ok(true),
    }
}
