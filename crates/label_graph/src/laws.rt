//! Laws of graphs.

ghost use Rattle.std.specs.Prelude.{ℕ, List};
ghost use Rattle.dns_data.specs.Name.{Labels};
ghost use Rattle.label_graph.specs.LiveSet.{IsClosed, IsLiveSet};

use crate::graph::LabelGraph;

/// The names of a graph have the root, the prefixes of each of them, and the owners of all redirections.
pub fn graph_is_closed(graph: &LabelGraph)
    ensures { IsClosed graph.now }
{
    graph.is_closed();
}

/// Each name, named or not, has a live set in a graph.
pub fn names_have_live_sets(graph: &LabelGraph)
    ensures { (name : Labels) → (places : List ℕ) × IsLiveSet graph.now name places }
{
    graph.has_live_sets();
}
