//! The class of a name, the representative of a class, and the names below a name.

ghost use Rattle.std.specs.Prelude.{◌≡◌, ◌++◌, MatchOption, IfOk};
ghost use Rattle.dns_data.specs.Name.{IsName, Labels};
ghost use Rattle.net_model.specs.declared.class.Class.{Class as ClassValue};
ghost use Rattle.net_model.specs.Class.{class_name, IsClassOf};
ghost use Rattle.net_model.specs.Reading.{IsNamed};
ghost use Rattle.query_classes.specs.Members.{IsEmptyClass, RepresentsClass};

use crate::live_name::LiveName;
use dns_data::{Label, Name, NoMemory};
use label_graph::{LabelGraph, laws};
use net_model::Class;
use std::alloc::Global;

/// The class of the name: each name is in exactly one, which has a representative. Of the graph's named names all
/// prefixes are named.
pub fn class_of(alloc: Global, graph: &LabelGraph, q: &Name) -> Result<Class, NoMemory>
    ensures class { IfOk result (IsClassOf graph.now q.now) }
    ensures one { IfOk result (λ class. (other : ClassValue) → IsClassOf graph.now q.now other → other ≡ class) }
    ensures represented { IfOk result (λ class. (name : Labels) × RepresentsClass graph.now class name) }
    ensures prefixes { IfOk result (λ _. (above below : Labels) → IsNamed graph.now (above ++ below) → IsNamed graph.now above) }
{
    laws::graph_is_closed(graph);
    let mut above = LiveName::root(alloc, graph)?;
    let mut rest = q.labels();
    while let Some(octets) = rest.next() {
        let label = Label::with_octets(alloc, octets)?;
        if !above.descend(alloc, graph, &label)? {
            return Ok(Class::Below(above.into_name()));
        }
    }
    Ok(Class::Exact(above.into_name()))
}

/// The representative of the class, or `None` where the class is empty.
pub fn representative(
    alloc: Global,
    graph: &LabelGraph,
    class: &Class,
) -> Result<Option<Name>, NoMemory>
    requires { IsNamed graph.now (class_name class.now) }
    ensures { IfOk result (λ found. MatchOption found (IsEmptyClass graph.now class.now) (RepresentsClass graph.now class.now)) }
{
    match class {
        Class::Exact(name) => Ok(Some(alone(alloc, name)?)),
        Class::Below(above) => LiveName::of(alloc, graph, above)?.below(alloc, graph),
    }
}

/// The name, which is its own representative.
fn alone(alloc: Global, name: &Name) -> Result<Name, NoMemory>
    ensures same { IfOk result (λ copy. copy ≡ name.now) }
    ensures is_name { IsName name.now }
{
    // The labels are read, so that it is known here that they are those of a name.
    let _ = name.labels();
    name.copy(alloc)
}
