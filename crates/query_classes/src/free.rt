//! The first label that makes an unnamed name.

ghost use Rattle.std.specs.Prelude.{◌≡◌, [], ◌∷◌, IfOk};
ghost use Rattle.dns_data.specs.Name.{Labels};
ghost use Rattle.label_graph.specs.LiveSet.{IsLiveSet};
ghost use Rattle.query_classes.specs.Free.{IsFree};

use crate::trial::next_label;
use dns_data::{Label, NoMemory};
use label_graph::{LabelGraph, LiveSet, laws};
use std::alloc::Global;

/// The first label that makes an unnamed name below a name with this live set, or `None` where every label makes a
/// named one.
pub(crate) fn free_label(
    alloc: Global,
    graph: &LabelGraph,
    live: &LiveSet,
) -> Result<Option<Label>, NoMemory>
    requires { (name : Labels) × IsLiveSet graph.now name live.now }
    ensures { IfOk result (λ found. (name : Labels) → IsLiveSet graph.now name live.now → IsFree graph.now name found) }
{
    laws::graph_is_closed(graph);
    let mut label = first_label(alloc)?;
    while graph.has_next(live, &label) {
        let Some(next) = next_label(alloc, &label)? else {
            return Ok(None);
        };
        label = next;
    }
    Ok(Some(label))
}

/// The label that is tried first.
fn first_label(alloc: Global) -> Result<Label, NoMemory>
    ensures { IfOk result (λ label. label ≡ 97 ∷ []) }
{
    Label::with_octets(alloc, b"a")
}
