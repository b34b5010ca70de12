//! What a book keeps of each ticket.

ghost use Rattle.std.specs.Prelude.{◌≡◌, ◌+◌, ◌<◌, ◌≤◌, length, IfSome, slice_get, vec_len, vec_capacity};
ghost use Rattle.verdict_book.specs.Keeping.{kept_row, kept_state, rows_filed};

use crate::claim::Kept;
use dns_data::List;

/// How far a ticket has come.
#[derive(Drop)]
pub(crate) enum TicketState<V> {
    Issued,
    Claimed,
    Filed(V),
}

/// The item of a ticket, and how far the ticket has come.
#[derive(Drop)]
pub(crate) struct Row<I, V> {
    pub item: I,
    pub state: TicketState<V>,
}

/// What is kept of a ticket.
pub(crate) fn kept_at<I, V>(rows: &[Row<I, V>], ticket: u32) -> Kept
    ensures { result ≡ kept_row (slice_get rows.now ticket) }
{
    match rows.get(ticket as usize) {
        Some(row) => kept_state(&row.state),
        None => Kept::Unknown,
    }
}

/// What is kept of an issued ticket that has come so far.
fn kept_state<V>(state: &TicketState<V>) -> Kept
    ensures { result ≡ kept_state state.now }
{
    match state {
        TicketState::Issued => Kept::Issued,
        TicketState::Claimed => Kept::Claimed,
        TicketState::Filed(_) => Kept::Filed,
    }
}

/// Files the row at a place with its verdict, and puts rows of new tickets behind the others.
pub(crate) fn file_row<I: Drop, V: Drop>(
    rows: &mut Vec<Row<I, V>>,
    place: usize,
    verdict: V,
    children: List<I>,
)
    requires place { place < vec_len rows.old }
    requires room { vec_len rows.old + length children ≤ vec_capacity rows.old }
    ensures { IfSome (slice_get rows.old.items place) (λ row. rows.new.items ≡ rows_filed rows.old.items place verdict children row) }
{
    rows[place].state = TicketState::Filed(verdict);
    for item in children.into_vec() {
        rows.push_reserved(Row {
            item,
            state: TicketState::Issued,
        });
    }
}
