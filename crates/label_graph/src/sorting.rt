//! Items in order.

ghost use Rattle.std.specs.Prelude.{IfOk};
ghost use Rattle.label_graph.specs.Sorting.{IsInOrderOf};

use dns_data::NoMemory;

/// The items in order, each once.
pub(crate) fn in_order<T: Ord + Drop>(items: Vec<T>) -> Result<Vec<T>, NoMemory>
    ensures { IfOk result (λ list. IsInOrderOf T.cmp T.eq items.items list.items) }
{
    let mut items = items;
    items.sort()?;
    items.dedup();
    Ok(items)
}
