//! Laws of classes.

ghost use Rattle.std.specs.Prelude.{◌++◌};
ghost use Rattle.dns_data.specs.Name.{Labels, IsName};
ghost use Rattle.net_model.specs.Reading.{Ground, IsNamed};
ghost use Rattle.label_graph.specs.Pairs.{AreSame};
ghost use Rattle.query_classes.specs.Members.{IsInOneClass};

use label_graph::{LabelGraph, laws};

/// Under a graph's ground, and so under each with the same names and redirections, each name is in one class, for which
/// a name of it stands that is no longer than any other; and of a named name all prefixes are named.
pub fn partition(graph: &LabelGraph)
    ensures one { (basis : Ground) → AreSame graph.now basis → (query : Labels) → IsName query → IsInOneClass basis query }
    ensures prefixes { (basis : Ground) → AreSame graph.now basis → (above below : Labels) → IsNamed basis (above ++ below) → IsNamed basis above }
{
    laws::graph_is_closed(graph);
    laws::names_have_live_sets(graph);
}
