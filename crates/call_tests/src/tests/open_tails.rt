//! Names with an open tail, which the program never asks: it follows the whole name of each class's representative.

ghost use Rattle.std.specs.Prelude.{◌≡◌, ◌++◌, ◌∷◌, [], true, false, IfOk, IfSome};
ghost use Rattle.dns_data.specs.Name.{Labels};
ghost use Rattle.interp_graph.specs.Asked.{IsAsked, IsOpenName};
ghost use Rattle.name_rules.specs.SymName.{whole};
ghost use Rattle.net_model.specs.Class.{IsClassOf};
ghost use Rattle.net_model.specs.Zone.{exists_in};
ghost use Rattle.net_model.specs.declared.class.Class.TheVariants.{Below};

use super::configs::{alone, first_zone, name, spells};
use base_names::base_graph;
use dns_data::{JoinFault, Label, Name, NameFault, NoMemory, TypeSet};
use interp_graph::{GraphFault, build};
use label_graph::LabelGraph;
use name_rules::{SymName, substitute_sym};
use net_model::{Class, Config, Found};
use query_classes::class_of;
use std::alloc::Global;
use std::test::Fail;
use sym_query::{TypedFound, find_sym};
use zone_lookup::Hosts;
use zone_tree::Tree;

/// A zone in which the names below `example.com.` are redirected out of the configuration.
const REDIRECTING: &str = "com. 60 SOA ns.t. h.t. 1 2 3 4 5\nexample.com. 60 DNAME example.net.\n";

// a.example.com. becomes a.example.net. whatever the label and the type, since all names below the owner of a DNAME record
// are redirected (RFC 6672 section 2.2). So with each of the twelve types the query comes to two states.
#[test]
fn one_answer_stands_for_all_tails_and_types(rt: HostRuntime) -> Result<(), Fail> {
    let config = alone(rt.alloc(), REDIRECTING)?;
    let query = open_name(rt.alloc(), "example.com.", "a")?;
    assert!(rt; is_answered_once(rt.alloc(), &config, &query)?);
    Ok(())
}

/// Whether the name keeps its tail, and has one answer and one graph in the configuration.
fn is_answered_once(alloc: Global, config: &Config, query: &SymName) -> Result<bool, Fail> {
    let keeps_tail = keeps_its_tail(alloc, query)?;
    let has_answer = has_one_answer(alloc, config, query)?;
    let is_asked = is_asked(alloc, config, query)?;
    Ok(keeps_tail && has_answer && is_asked && has_one_graph(alloc, config, query)?)
}

/// The known name with this label for its tail.
fn open_name(alloc: Global, known: &str, label: &str) -> Result<SymName, NameFault> {
    let known = name(alloc, known)?;
    let tail = Some(Label::from_octets(alloc, label.as_bytes())?);
    Ok(SymName { known, tail })
}

/// Whether the name keeps its tail where `example.net.` is put in the place of its known name.
fn keeps_its_tail(alloc: Global, query: &SymName) -> Result<bool, NameFault> {
    if !query.known.is_prefix_of(&query.known) {
        return Ok(false);
    }
    let target = name(alloc, "example.net.")?;
    match substitute_sym(alloc, query, &query.known, &target) {
        Ok(made) => Ok(made.known == target && made.tail == query.tail),
        Err(_) => Ok(false),
    }
}

/// Whether the first server's first zone has one answer to the name, which redirects it.
fn has_one_answer(alloc: Global, config: &Config, query: &SymName) -> Result<bool, JoinFault> {
    let Some(zone) = first_zone(config) else {
        return Ok(false);
    };
    let tree = Tree::build(alloc, zone)?;
    is_redirected(alloc, &tree, query)
}

/// Whether the tree's zone has one answer to the name, which is below its origin and with its tail none of the zone.
fn is_redirected(alloc: Global, tree: &Tree<'_>, query: &SymName) -> Result<bool, JoinFault> {
    let is_missing = is_missing(alloc, tree, query)?;
    if is_missing && tree.zone().origin.is_prefix_of(&query.known) {
        let answers = find_sym(alloc, tree, query, TypeSet::all())?;
        Ok(is_one_rewrite(alloc, answers.items()))
    } else {
        Ok(false)
    }
}

/// Whether there is one answer, which rewrites to `a.example.net.`.
fn is_one_rewrite(alloc: Global, answers: &[TypedFound]) -> bool {
    match answers {
        [one] => match &one.found {
            Found::Rewrite { to, .. } => spells(alloc, "a.example.net.", to),
            _ => false,
        },
        _ => false,
    }
}

/// Whether the name with its tail is none of the tree's zone.
fn is_missing(alloc: Global, tree: &Tree<'_>, name: &SymName) -> Result<bool, JoinFault>
    ensures { IfOk result (λ is_missing. is_missing ≡ true
        → IfSome name.now.tail (λ label. exists_in tree.now.zone (name.now.known ++ label ∷ []) ≡ false)) }
{
    let whole = whole_name(alloc, name)?;
    match tree.node_at(&whole) {
        None => Ok(true),
        Some(_) => Ok(false),
    }
}

/// The known name with its tail.
fn whole_name(alloc: Global, name: &SymName) -> Result<Name, JoinFault>
    ensures { IfOk result (λ made. made ≡ whole name.now) }
{
    let mut made = name.known.copy(alloc)?;
    if let Some(label) = &name.tail {
        made.push(alloc, label)?;
    }
    Ok(made)
}

/// Whether the graph of the name has two nodes, each for all twelve types.
fn has_one_graph(alloc: Global, config: &Config, name: &SymName) -> Result<bool, GraphFault>
    requires { IsAsked config.now name.now }
{
    let hosts = Hosts::build(alloc, config)?;
    let graph = build(alloc, &hosts, name, 12, 24)?;
    Ok(graph.nodes() == 2 && graph.pairs() == 24)
}

/// Whether the configuration doesn't tell the name with its tail apart.
fn is_asked(alloc: Global, config: &Config, name: &SymName) -> Result<bool, JoinFault>
    ensures { IfOk result (λ is_asked. is_asked ≡ true → IsAsked config.now name.now) }
{
    let whole = whole_name(alloc, name)?;
    let is_open = is_open(alloc, config, &whole)?;
    Ok(is_open)
}

/// Whether the configuration doesn't tell the name apart.
fn is_open(alloc: Global, config: &Config, name: &Name) -> Result<bool, NoMemory>
    ensures { IfOk result (λ is_open. is_open ≡ true → IsOpenName config.now name.now) }
{
    // The octets are counted, so that it is known here that they are at most 255.
    let _ = name.octets();
    let hosts = Hosts::build(alloc, config)?;
    let graph = base_graph(alloc, &hosts)?;
    let is_below = is_below(alloc, &graph, name)?;
    Ok(is_below)
}

/// Whether the name is in the class below another one.
fn is_below(alloc: Global, graph: &LabelGraph, name: &Name) -> Result<bool, NoMemory>
    ensures { IfOk result (λ is_below. is_below ≡ true → (above : Labels) × IsClassOf graph.now name.now (Below above)) }
{
    let class = class_of(alloc, graph, name)?;
    match &class {
        Class::Below(_) => Ok(true),
        Class::Exact(_) => Ok(false),
    }
}
