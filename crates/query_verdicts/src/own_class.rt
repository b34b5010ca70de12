//! What is known of the class of a query under the base names of its own configuration.

ghost use Rattle.std.specs.Prelude.{◌≡◌, ◌↔◌, true, IfOk};
ghost use Rattle.dns_data.specs.Name.{Labels};
ghost use Rattle.net_model.specs.Class.{IsRepresentative};
ghost use Rattle.query_classes.specs.Members.{RepresentsClass};

use dns_data::{Name, NoMemory};
use label_graph::LabelGraph;
use net_model::Class;
use query_classes::representative;
use std::alloc::Global;

/// What is known of the class of a query under the base names of its own configuration. Differing answers are a fault of
/// the class, and an overlong rewrite is one of its representative alone.
#[derive(Clone, Copy)]
pub enum OwnClass<'a> {
    /// The query represents this class.
    Represents(&'a Class),
    /// Nothing: it is asked of the graph of these names, where a graph of the query's walks is made.
    Asked(&'a LabelGraph),
}

/// Whether the query represents the class, which isn't empty.
pub(crate) fn represents(
    alloc: Global,
    names: &LabelGraph,
    class: &Class,
    query: &Name,
) -> Result<bool, NoMemory>
    requires { (name : Labels) × RepresentsClass names.now class.now name }
    ensures { IfOk result (λ answer. (answer ≡ true) ↔ IsRepresentative names.now class.now query.now) }
{
    match representative(alloc, names, class)? {
        Some(name) => Ok(name == *query),
        None => unreachable!(),
    }
}
