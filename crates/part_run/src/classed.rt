//! The classes of entries.

ghost use Rattle.std.specs.Prelude.{IfOk};
ghost use Rattle.std.specs.List.{AllZip};
ghost use Rattle.part_run.specs.KeptEntry.{IsClassedText};

use crate::entry::KeptEntry;
use crate::named::{class_is_named, fault_is_named};
use dns_data::{List, NoMemory};
use label_graph::LabelGraph;
use part_texts::ClassedText;
use query_classes::class_of;
use std::alloc::Global;

/// The texts of entries, each with the class of its query.
pub(crate) fn classed_texts(
    alloc: Global,
    graph: &LabelGraph,
    kept: List<KeptEntry>,
) -> Result<List<ClassedText>, NoMemory>
    ensures { IfOk result (λ texts. AllZip (IsClassedText graph.now) kept texts) }
{
    let mut texts = List::new(alloc);
    for one in kept {
        texts.push(classed_text(alloc, graph, one)?)?;
    }
    Ok(texts)
}

/// The text of an entry with the class of its query.
fn classed_text(alloc: Global, graph: &LabelGraph, kept: KeptEntry) -> Result<ClassedText, NoMemory>
    ensures { IfOk result (IsClassedText graph.now kept) }
{
    fault_is_named(&kept.fault);
    let class = class_of(alloc, graph, &kept.query)?;
    class_is_named(&class);
    let text = kept.text;
    Ok(ClassedText { class, text })
}
