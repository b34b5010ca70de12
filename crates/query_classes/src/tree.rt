//! The class tree, from a name down.

ghost use Rattle.std.specs.Prelude.{◌≡◌, ◌++◌, ◌≤◌, length, reverse, All, IfOk, OnOk, IsErrOf};
ghost use Rattle.net_model.specs.Tree.{IsInPart, IsTreePart, AreBelowClasses, HasMoreThan};
ghost use Rattle.query_classes.specs.Children.{IsBelow};
ghost use Rattle.query_classes.specs.ClassList.{AreListed, classes_of_rows};
ghost use Rattle.query_classes.specs.Rows.{tree_names, below_names};

use crate::fault::TreeFault;
use crate::live_name::LiveName;
use dns_data::{List, Name, NoMemory};
use label_graph::{LabelGraph, laws};
use std::alloc::Global;

/// A name of the class tree, which is alone in its class, and the representative of the class below it, or `None`
/// where that class is empty.
#[derive(Debug, Drop)]
pub struct ClassRow {
    pub name: Name,
    pub below: Option<Name>,
}

/// The part of the class tree at or below a name, where it has at most this many names: its names in order, each with the
/// representative of the class below it. At or below the root it is the whole tree, and where the name isn't named there is
/// none.
pub fn class_tree(
    alloc: Global,
    graph: &LabelGraph,
    from: &Name,
    most: u32,
) -> Result<List<ClassRow>, TreeFault>
    ensures tree { IfOk result (λ rows. IsTreePart graph.now from.now (tree_names rows)) }
    ensures below { IfOk result (λ rows. All (λ row. IsBelow graph.now row.name row.below) rows) }
    ensures classes { IfOk result (λ rows. AreBelowClasses graph.now (tree_names rows) (below_names rows)) }
    ensures listed { IfOk result (λ rows. AreListed graph.now from.now (classes_of_rows rows)) }
    ensures few { IfOk result (λ rows. length rows ≤ most) }
    ensures none_more { OnOk result (HasMoreThan (IsInPart graph.now from.now) most → ⊥) }
    ensures too_many { IsErrOf result TreeFault.TooMany → HasMoreThan (IsInPart graph.now from.now) most }
{
    // Where there are too many, no row is made.
    count_names(alloc, graph, from, most)?;
    laws::graph_is_closed(graph);
    let first = LiveName::of(alloc, graph, from)?;
    if first.live.is_empty() {
        return Ok(List::new(alloc));
    }
    let mut rows = Vec::new(alloc);
    let mut waiting = Vec::new(alloc);
    waiting.push(first)?;
    while let Some(next) = waiting.pop() {
        if rows.len() == most as usize {
            return Err(TreeFault::TooMany);
        }
        let below = next.below(alloc, graph)?;
        put_last_first(next.children(alloc, graph)?, &mut waiting)?;
        rows.push(row_of(next, below))?;
    }
    Ok(List::from_vec(rows))
}

/// Counts the names of the part of the class tree at or below a name. It is `TooMany` where there are more than `most`. No
/// name is kept that is counted.
fn count_names(alloc: Global, graph: &LabelGraph, from: &Name, most: u32) -> Result<(), TreeFault>
    ensures { IsErrOf result TreeFault.TooMany → HasMoreThan (IsInPart graph.now from.now) most }
{
    laws::graph_is_closed(graph);
    let first = LiveName::of(alloc, graph, from)?;
    if first.live.is_empty() {
        return Ok(());
    }
    let mut left = most;
    let mut waiting = Vec::new(alloc);
    waiting.push(first)?;
    while let Some(next) = waiting.pop() {
        if left == 0 {
            return Err(TreeFault::TooMany);
        }
        left -= 1;
        let below = next.children(alloc, graph)?;
        // What holds a name is dropped by a call: dropped where a block ends, it is taken apart there by the kinds of
        // names.
        drop(next);
        put_last_first(below, &mut waiting)?;
    }
    Ok(())
}

/// The row of a name and of the class below it. The name's live set is let go.
fn row_of(found: LiveName, below: Option<Name>) -> ClassRow
    ensures name { result.name ≡ found.name }
    ensures below { result.below ≡ below }
{
    ClassRow {
        name: found.name,
        below,
    }
}

/// Puts the names at the end, the last one first.
fn put_last_first(names: List<LiveName>, waiting: &mut Vec<LiveName>) -> Result<(), NoMemory>
    ensures { OnOk result (waiting.new.items ≡ waiting.old.items ++ reverse names) }
{
    let mut names = names.into_vec();
    while let Some(last) = names.pop() {
        waiting.push(last)?;
    }
    Ok(())
}
