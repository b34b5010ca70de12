//! What is written of a part whose report was judged.

ghost use Rattle.std.specs.Prelude.{◌≡◌, ◌⊎◌, [], List as ListOf, map, length, IfOk, IsErrOf};
ghost use Rattle.graph_form.specs.declared.report.ReportEntry.{ReportEntry as EntryValue};
ghost use Rattle.net_model.specs.Tree.{HasMoreThan, IsInPart};
ghost use Rattle.run_endings.specs.Endings.{no_memory};
ghost use Rattle.part_run.specs.KeptEntry.{kept_entry};
ghost use Rattle.part_run.specs.PartReported.{faults_status};
ghost use Rattle.part_run.specs.PartWritten.{AreCountsOf, EndsWritten, IsTextOf};

use crate::classed::classed_texts;
use crate::entry::KeptEntry;
use crate::named::bound_is_named;
use dns_data::{Name, NoMemory, Octets};
use label_graph::LabelGraph;
use own_names::{HeldNames, OwnCounts, own_counts};
use part_names::PartNames;
use part_texts::{PartNumbers, part_text};
use query_classes::{TreeFault, class_tree};
use query_verdicts::KeptReport;
use run_endings::{Ending, Status};
use std::alloc::Global;

/// How a run ends that has what is kept of the report of what is left: with the text of the part's report. The graph is
/// that of the base names that are left, and its class tree has at most so many names.
pub(crate) fn ended(
    alloc: Global,
    names: &PartNames,
    graph: &LabelGraph,
    most: u32,
    told: KeptReport<KeptEntry>,
) -> Ending
    ensures { (entries : ListOf EntryValue) → told.kept ≡ map kept_entry entries → (HasMoreThan (IsInPart graph.now []) most → ⊥)
        → EndsWritten graph.now names.now told.rewrites entries result ⊎ (result ≡ no_memory) }
{
    match counts_of(alloc, names, graph, most) {
        Ok(counts) => {
            let status = status_of(told.kept.items());
            match text_of(alloc, names, graph, counts, told) {
                Ok(text) => Ending::written(status, Ok(text)),
                Err(NoMemory) => Ending::no_memory(),
            }
        }
        Err(TreeFault::TooMany) => Ending::too_many_names(alloc, most),
        Err(TreeFault::NoMemory) => Ending::no_memory(),
    }
}

/// How many names and classes of the class tree of a graph are the part's own, where the tree has at most so many names.
fn counts_of(
    alloc: Global,
    names: &PartNames,
    graph: &LabelGraph,
    most: u32,
) -> Result<OwnCounts, TreeFault>
    ensures counts { IfOk result (AreCountsOf graph.now names.now) }
    ensures too_many { IsErrOf result TreeFault.TooMany → HasMoreThan (IsInPart graph.now []) most }
{
    let top = Name::root();
    let rows = class_tree(alloc, graph, &top, most)?;
    let held = HeldNames::build(alloc, names)?;
    let counts = own_counts(alloc, &held, rows.items())?;
    Ok(counts)
}

/// The text of the report of a part, from what is kept of the report of what is left.
fn text_of(
    alloc: Global,
    names: &PartNames,
    graph: &LabelGraph,
    counts: OwnCounts,
    told: KeptReport<KeptEntry>,
) -> Result<Octets, NoMemory>
    ensures { IfOk result (λ text. (entries : ListOf EntryValue) → told.kept ≡ map kept_entry entries → AreCountsOf graph.now names.now counts
        → IsTextOf graph.now names.now told.rewrites entries text) }
{
    bound_is_named(&names.from);
    bound_is_named(&names.to);
    let numbers = PartNumbers {
        classes: counts.classes,
        names: counts.names,
        rewrites: told.rewrites,
    };
    let texts = classed_texts(alloc, graph, told.kept)?;
    part_text(
        alloc,
        names.from.as_ref(),
        names.to.as_ref(),
        numbers,
        texts.items(),
    )
}

/// The status of a report that is written, by what is kept of its entries.
fn status_of(kept: &[KeptEntry]) -> Status
    ensures { (entries : ListOf EntryValue) → length kept.now ≡ length entries → result ≡ faults_status entries }
{
    match kept {
        [] => Status::Clean,
        _ => Status::Faults,
    }
}
