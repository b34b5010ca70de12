//! Laws over the definitions.

ghost use Rattle.std.specs.Prelude.{◌≡◌, ◌↔◌, ℕ, List};
ghost use Rattle.dns_data.specs.Name.{Labels};
ghost use Rattle.dns_data.specs.declared.rr_type.RrType.{RrType};
ghost use Rattle.graph_form.specs.Graph.{PlainGraph, pairs_of, path_along};
ghost use Rattle.graph_form.specs.GraphOf.{IsExact, IsGraphOf};
ghost use Rattle.graph_form.specs.Trails.{WalksTake, ZonesShow};
ghost use Rattle.net_model.specs.Shown.{WalksShow, with_sets, with_lists};
ghost use Rattle.net_model.specs.Nearest.{server_names};
ghost use Rattle.net_model.specs.Step.{Setting, following};
ghost use Rattle.net_model.specs.Tree.{AreReached};
ghost use Rattle.net_model.specs.declared.config.Config.{Config};
ghost use Rattle.net_model.specs.declared.fault.Fault.{Fault};
ghost use Rattle.net_model.specs.declared.walk.Walk.{Walk};
ghost use Rattle.net_model.specs.Walk.{walk_along};

/// The paths of each type in a graph of a query are its walks with this type, number by number.
pub fn paths_are_walks()
    ensures { (setting : Setting) (query : Labels) (graph : PlainGraph) → IsGraphOf setting query graph
        → (rtype : RrType) (numbers : List ℕ) → path_along graph rtype numbers ≡ walk_along setting query rtype numbers }
{}

/// A fault is shown by walks exactly where they take it and the zones show it, with the two sets of learnt addresses and
/// with two lists in their place.
pub fn walks_and_zones_show()
    ensures sets { (setting : Setting) (walks : List Walk) (fault : Fault)
        → WalksShow (with_sets setting) walks fault ↔ (WalksTake walks fault × ZonesShow (with_sets setting) fault) }
    ensures lists { (setting : Setting) (least greatest : List Labels) (walks : List Walk) (fault : Fault)
        → WalksShow (with_lists setting least greatest) walks fault ↔ (WalksTake walks fault × ZonesShow (with_lists setting least greatest) fault) }
{}

/// Where all configured servers are followed, and each pair of a graph is reached, the pairs of a graph of a query are
/// those that the query reaches, each once.
pub fn pairs_are_reached()
    ensures { (config : Config) (rewrites : ℕ) (query : Labels) (graph : PlainGraph)
        → IsGraphOf (following config rewrites (server_names config)) query graph → IsExact config rewrites query graph
        → AreReached config rewrites query (pairs_of graph) }
{}
