//! The graphs of base names, from the trees of zones.

ghost use Rattle.std.specs.Prelude.{◌≡◌, ◌↔◌, ◌⊎◌, ◌++◌, All, map, Contains, IfOk, OnOk};
ghost use Rattle.dns_data.specs.Name.{Labels, AreInOrder};
ghost use Rattle.net_model.specs.Configured.{KeepsWithin};
ghost use Rattle.net_model.specs.Reading.{Redirection, redirections_of, ground_of, joined_ground};
ghost use Rattle.base_names.specs.Base.{IsInConfig, IsInZone, zone_redirections};
ghost use Rattle.label_graph.specs.Graphs.{SomeItem};
ghost use Rattle.label_graph.specs.LiveSet.{HavePrefixes};
ghost use Rattle.label_graph.specs.Pairs.{redirection, AreSame};

use dns_data::{Name, NoMemory};
use label_graph::{LabelGraph, Pair, put_names, put_new_fronts, put_pairs};
use std::alloc::Global;
use std::slice;
use zone_lookup::Hosts;
use zone_tree::Tree;

/// The graph of the base names of a configuration.
pub fn base_graph(alloc: Global, hosts: &Hosts<'_>) -> Result<LabelGraph, NoMemory>
    ensures same { IfOk result (λ graph. AreSame graph (ground_of hosts.now)) }
    ensures order { IfOk result (λ graph. AreInOrder graph.names) }
{
    joint_base_graph(alloc, slice::from_ref(&hosts), &[])
}

/// The graph of the base names of several configurations, and of some names more.
pub fn joint_base_graph(
    alloc: Global,
    all: &[&Hosts<'_>],
    more: &[&Name],
) -> Result<LabelGraph, NoMemory>
    ensures same { IfOk result (λ graph. AreSame graph (joined_ground (map (λ hosts. hosts.now) all.now) (map (λ name. name.now) more.now))) }
    ensures order { IfOk result (λ graph. AreInOrder graph.names) }
{
    let mut names = Vec::new(alloc);
    let mut dnames = Vec::new(alloc);
    names.push(Name::root())?;
    put_all(alloc, all, &mut names, &mut dnames)?;
    put_names(alloc, more, &mut names)?;
    LabelGraph::build(alloc, names, dnames.as_slice())
}

/// Puts the base names of configurations, and the pairs of their DNAME records, at the end.
fn put_all(
    alloc: Global,
    all: &[&Hosts<'_>],
    names: &mut Vec<Name>,
    dnames: &mut Vec<Pair>,
) -> Result<(), NoMemory>
    requires { HavePrefixes names.old.items }
    ensures prefixes { OnOk result (HavePrefixes names.new.items) }
    ensures names { OnOk result ((name : Labels) → Contains names.new.items name ↔ (Contains names.old.items name ⊎ SomeItem (λ hosts. IsInConfig name hosts.now) all.now)) }
    ensures pairs { OnOk result ((pair : Redirection) → Contains (map redirection dnames.new.items) pair
        ↔ (Contains (map redirection dnames.old.items) pair ⊎ SomeItem (λ hosts. Contains (redirections_of hosts.now) pair) all.now)) }
{
    for hosts in all {
        put_hosts(alloc, *hosts, names, dnames)?;
    }
    Ok(())
}

/// Puts the base names of a configuration, and the pairs of its DNAME records, at the end.
fn put_hosts(
    alloc: Global,
    hosts: &Hosts<'_>,
    names: &mut Vec<Name>,
    dnames: &mut Vec<Pair>,
) -> Result<(), NoMemory>
    requires { HavePrefixes names.old.items }
    ensures prefixes { OnOk result (HavePrefixes names.new.items) }
    ensures names { OnOk result ((name : Labels) → Contains names.new.items name ↔ (Contains names.old.items name ⊎ IsInConfig name hosts.now)) }
    ensures pairs { OnOk result ((pair : Redirection) → Contains (map redirection dnames.new.items) pair
        ↔ (Contains (map redirection dnames.old.items) pair ⊎ Contains (redirections_of hosts.now) pair)) }
{
    // The servers are read, so that it is known here what holds of those of each configuration.
    let config = hosts.config();
    let _ = config.servers();
    put_trees(alloc, hosts.trees(), names, dnames)?;
    Ok(())
}

/// Puts the base names of the zones of trees, and the pairs of their DNAME records, at the end.
fn put_trees(
    alloc: Global,
    trees: &[Tree<'_>],
    names: &mut Vec<Name>,
    dnames: &mut Vec<Pair>,
) -> Result<(), NoMemory>
    requires prefixes { HavePrefixes names.old.items }
    requires within { All (λ tree. KeepsWithin tree.zone) trees.now }
    ensures prefixes { OnOk result (HavePrefixes names.new.items) }
    ensures names { OnOk result ((name : Labels) → Contains names.new.items name ↔ (Contains names.old.items name ⊎ SomeItem (λ tree. IsInZone name tree.zone) trees.now)) }
    ensures pairs { OnOk result ((pair : Redirection) → Contains (map redirection dnames.new.items) pair
        ↔ (Contains (map redirection dnames.old.items) pair ⊎ SomeItem (λ tree. Contains (zone_redirections tree.zone) pair) trees.now)) }
{
    for tree in trees {
        put_tree(alloc, tree, names, dnames)?;
    }
    Ok(())
}

/// Puts the fronts of the origin of a tree's zone, its existing names, in order, and the pairs of its DNAME records, at the
/// end.
fn put_tree(
    alloc: Global,
    tree: &Tree<'_>,
    names: &mut Vec<Name>,
    dnames: &mut Vec<Pair>,
) -> Result<(), NoMemory>
    requires prefixes { HavePrefixes names.old.items }
    requires within { KeepsWithin tree.now.zone }
    ensures prefixes { OnOk result (HavePrefixes names.new.items) }
    ensures names { OnOk result ((name : Labels) → Contains names.new.items name ↔ (Contains names.old.items name ⊎ IsInZone name tree.now.zone)) }
    ensures pairs { OnOk result (map redirection dnames.new.items ≡ map redirection dnames.old.items ++ zone_redirections tree.now.zone) }
{
    let zone = tree.zone();
    put_new_fronts(alloc, names, &zone.origin)?;
    put_copies(alloc, tree.names(), names)?;
    put_pairs(alloc, zone.rrs.items(), dnames)?;
    Ok(())
}

/// Puts equal names at the end.
fn put_copies(alloc: Global, more: &[Name], names: &mut Vec<Name>) -> Result<(), NoMemory>
    ensures { OnOk result (names.new.items ≡ names.old.items ++ more.now) }
{
    for name in more {
        names.push(name.copy(alloc)?)?;
    }
    Ok(())
}
