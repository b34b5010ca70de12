//! The class tree, a level at a time.

ghost use Rattle.std.specs.Prelude.{◌≡◌, map, IfOk};
ghost use Rattle.query_classes.specs.Children.{AreChildren};

use crate::live_name::LiveName;
use dns_data::{List, Name, NoMemory};
use label_graph::LabelGraph;
use std::alloc::Global;

/// The named names of at most 255 octets one label below the name, in order.
pub fn children(alloc: Global, graph: &LabelGraph, p: &Name) -> Result<List<Name>, NoMemory>
    ensures { IfOk result (AreChildren graph.now p.now) }
{
    let above = LiveName::of(alloc, graph, p)?;
    let below = above.children(alloc, graph)?;
    names_of(alloc, below.items())
}

/// The names alone.
fn names_of(alloc: Global, found: &[LiveName]) -> Result<List<Name>, NoMemory>
    ensures { IfOk result (λ names. names ≡ map (λ below. below.name) found.now) }
{
    let mut names = List::new(alloc);
    for below in found {
        names.push(below.name.copy(alloc)?)?;
    }
    Ok(names)
}
