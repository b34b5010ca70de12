//! Items with their verdicts.

ghost use Rattle.std.specs.Prelude.{◌≡◌, All, IfOk, map, reverse};
ghost use Rattle.verdict_book.specs.Lists.{Judges, JudgesRow};

use crate::row::{Row, TicketState};
use crate::work::Work;
use dns_data::NoMemory;
use std::alloc::Global;

/// An item with its verdict. They are ordered by their items.
#[derive(Drop)]
#[derive_where(PartialEq, Eq, PartialOrd, Ord)]
pub struct Filed<W: Work> {
    pub item: W::Item,
    #[derive_where(skip(EqHashOrd))]
    pub verdict: W::Verdict,
}

/// How many rows leave before their room is given back.
const ROWS_AT_ONCE: usize = 4096;

/// The items and verdicts of rows of filed tickets, the last row first. The room of the rows is given back on
/// the way.
pub(crate) fn list_rows<W: Work>(
    alloc: Global,
    mut rows: Vec<Row<W::Item, W::Verdict>>,
) -> Result<Vec<Filed<W>>, NoMemory>
    requires judged { All (JudgesRow W.verdict_of) rows.items }
    ensures items { IfOk result (λ list. map (λ filed. filed.item) list.items ≡ reverse (map (λ row. row.item) rows.items)) }
    ensures verdicts { IfOk result (λ list. All (Judges W.verdict_of) list.items) }
{
    let mut list = Vec::with_capacity(alloc, rows.len())?;
    while let Some(row) = rows.pop() {
        give_back(&mut rows);
        let Row { item, state } = row;
        if let TicketState::Filed(verdict) = state {
            list.push_reserved(Filed { item, verdict });
        }
    }
    Ok(list)
}

/// Gives back the room behind the rows, each time that so many have left.
fn give_back<I, V>(rows: &mut Vec<Row<I, V>>)
    ensures { rows.new.items ≡ rows.old.items }
{
    if rows.len() % ROWS_AT_ONCE == 0 {
        rows.shrink_to_fit();
    }
}
