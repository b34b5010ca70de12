//! The list of classes of query names.

ghost use Rattle.std.specs.Prelude.{◌≡◌, ◌⊎◌, ◌++◌, [], IfOk, IfErr, OnOk};
ghost use Rattle.label_graph.specs.Pairs.{AreSame};
ghost use Rattle.net_model.specs.declared.class.Class.TheVariants.{Exact, Below};
ghost use Rattle.groot_run.specs.ClassList.{class_line, class_list_text};
ghost use Rattle.groot_run.specs.ClassRows.{rows_text};
ghost use Rattle.net_model.specs.Reading.{ground_of};
ghost use Rattle.net_model.specs.Tree.{HasMoreThan, IsInPart};
ghost use Rattle.query_classes.specs.Children.{IsInTree};
ghost use Rattle.query_classes.specs.ClassList.{AreListed, classes_of_row, classes_of_rows};
ghost use Rattle.run_endings.specs.Endings.{no_memory};
ghost use Rattle.report_run.specs.Counted.{EndsPast};
ghost use Rattle.report_run.specs.Budgets.{HasMoreNames};
ghost use Rattle.groot_run.specs.Outcome.{ListsClasses};

use base_names::base_graph;
use dns_data::{List, Name, NoMemory, Octets};
use label_graph::LabelGraph;
use net_model::Config;
use query_classes::{ClassRow, TreeFault, class_tree};
use run_endings::{Ending, Status};
use std::alloc::Global;
use zone_lookup::Hosts;

/// The list of the configuration's classes, unless its class tree has more names than the limit.
pub(crate) fn list_classes(alloc: Global, config: &Config, limit: u32) -> Ending
    ensures { ListsClasses limit config.now result ⊎ (result ≡ no_memory) }
{
    match rows_within(alloc, config, limit) {
        Ok(rows) => Ending::written(Status::Clean, text_of(alloc, rows.items())),
        Err(ending) => ending,
    }
}

/// The rows of the configuration's class tree, or how a run ends since it has more names than the limit.
pub(crate) fn rows_within(
    alloc: Global,
    config: &Config,
    limit: u32,
) -> Result<List<ClassRow>, Ending>
    ensures listed { IfOk result (λ rows. AreListed (ground_of config.now) [] (classes_of_rows rows)) }
    ensures few { OnOk result (HasMoreNames config.now limit → ⊥) }
    ensures err { IfErr result (EndsPast (IsInTree (ground_of config.now)) limit) }
{
    let top = Name::root();
    match names_of(alloc, config) {
        Ok(graph) => rows_at(alloc, &graph, &top, limit),
        Err(NoMemory) => Err(Ending::no_memory()),
    }
}

/// The graph of the configuration's base names.
fn names_of(alloc: Global, config: &Config) -> Result<LabelGraph, NoMemory>
    ensures { IfOk result (λ graph. AreSame graph (ground_of config.now)) }
{
    let hosts = Hosts::build(alloc, config)?;
    base_graph(alloc, &hosts)
}

/// The rows of the part of a class tree at or below a name, or how a run ends since it has more names than the limit.
pub(crate) fn rows_at(
    alloc: Global,
    graph: &LabelGraph,
    above: &Name,
    limit: u32,
) -> Result<List<ClassRow>, Ending>
    ensures listed { IfOk result (λ rows. AreListed graph.now above.now (classes_of_rows rows)) }
    ensures few { OnOk result (HasMoreThan (IsInPart graph.now above.now) limit → ⊥) }
    ensures err { IfErr result (EndsPast (IsInPart graph.now above.now) limit) }
{
    match class_tree(alloc, graph, above, limit) {
        Ok(rows) => Ok(rows),
        Err(TreeFault::TooMany) => Err(Ending::too_many_names(alloc, limit)),
        Err(TreeFault::NoMemory) => Err(Ending::no_memory()),
    }
}

/// A line for each class of the rows.
fn text_of(alloc: Global, rows: &[ClassRow]) -> Result<Octets, NoMemory>
    ensures { IfOk result (λ text. text ≡ rows_text rows.now) }
{
    let mut text = Octets::new();
    for row in rows {
        put_row(alloc, &mut text, row)?;
    }
    Ok(text)
}

/// Puts the lines of a row's classes at the end.
fn put_row(alloc: Global, text: &mut Octets, row: &ClassRow) -> Result<(), NoMemory>
    ensures { OnOk result (text.new ≡ text.old ++ class_list_text (classes_of_row row.now)) }
{
    put_exact(alloc, text, &row.name)?;
    match &row.below {
        Some(representative) => put_below(alloc, text, &row.name, representative),
        None => Ok(()),
    }
}

/// Puts the line of a name that is alone in its class at the end.
fn put_exact(alloc: Global, text: &mut Octets, name: &Name) -> Result<(), NoMemory>
    ensures { OnOk result (text.new ≡ text.old ++ class_line (Exact name.now) name.now) }
{
    let name = name.to_text(alloc)?;
    text.extend_from_slice(alloc, b"exact ")?;
    text.extend_from_slice(alloc, name.as_str().as_bytes())?;
    text.extend_from_slice(alloc, b"\n")
}

/// Puts the line of the class below a name, with its representative, at the end.
fn put_below(
    alloc: Global,
    text: &mut Octets,
    name: &Name,
    representative: &Name,
) -> Result<(), NoMemory>
    ensures { OnOk result (text.new ≡ text.old ++ class_line (Below name.now) representative.now) }
{
    let name = name.to_text(alloc)?;
    let representative = representative.to_text(alloc)?;
    text.extend_from_slice(alloc, b"below ")?;
    text.extend_from_slice(alloc, name.as_str().as_bytes())?;
    text.extend_from_slice(alloc, b" ")?;
    text.extend_from_slice(alloc, representative.as_str().as_bytes())?;
    text.extend_from_slice(alloc, b"\n")
}
