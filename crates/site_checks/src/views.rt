//! What a class of queries ends in.

ghost use Rattle.std.specs.Prelude.{◌≡◌};
ghost use Rattle.site_checks.specs.Ends.{is_answer, is_answered};

use dns_data::{List, Name, RrType};
use net_model::{Class, Leaf};

/// An end of walks of a query with a type: the server at which they end, and how.
#[derive(Debug, Drop)]
pub struct TypedEnd {
    pub rtype: RrType,
    pub server: Name,
    pub leaf: Leaf,
}

/// The view of a class of queries: the class, the query that stands for it, and all ends of this query's walks, type by
/// type in the order of their numbers, each once and where a walk first comes to it.
#[derive(Debug, Drop)]
pub struct View {
    pub class: Class,
    pub query: Name,
    pub ends: List<TypedEnd>,
}

impl TypedEnd {
    /// Whether the server answers with data of the type.
    pub fn is_answer(&self) -> bool
        ensures { result ≡ is_answer self.now.leaf }
    {
        match self.leaf {
            Leaf::Answer(_) => true,
            _ => false,
        }
    }
}

impl View {
    /// Whether some server answers with data of the type.
    pub fn is_answered(&self, rtype: RrType) -> bool
        ensures { result ≡ is_answered rtype self.now.ends }
    {
        self.ends.items().iter().any(|end| end.rtype.number() == rtype.number() && end.is_answer())
    }
}
