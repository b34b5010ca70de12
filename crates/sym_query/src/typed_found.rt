//! What is found for several types.

ghost use Rattle.std.specs.Prelude.{◌≡◌};
ghost use Rattle.sym_query.specs.TypedFound.{IsOpenExactly, is_redirected};

use dns_data::TypeSet;
use name_rules::SymName;
use net_model::Found;

/// What is found for each type of a set, and whether the name that it is rewritten to keeps an open tail.
#[derive(Debug, Drop)]
pub struct TypedFound {
    pub types: TypeSet,
    pub found: Found,
    pub open_tail: bool,
}

impl TypedFound {
    /// What is found of a name for each type of a set: a name that a DNAME record rewrites keeps its tail.
    pub(crate) fn of(name: &SymName, types: TypeSet, found: Found) -> TypedFound
        ensures types { result.types ≡ types }
        ensures found { result.found ≡ found }
        ensures open_tail { IsOpenExactly name.now result }
    {
        let open_tail = name.tail.is_some() && is_redirected(&found);
        TypedFound {
            types,
            found,
            open_tail,
        }
    }
}

/// Whether a DNAME record rewrites the name.
fn is_redirected(found: &Found) -> bool
    ensures { result ≡ is_redirected found.now }
{
    match found {
        Found::Rewrite { by_dname, .. } => *by_dname,
        _ => false,
    }
}
