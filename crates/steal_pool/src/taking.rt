//! Which ticket a worker takes next.

ghost use Rattle.std.specs.Prelude.{◌≡◌, ◌+◌, ◌<◌, ◌++◌, vec_len, sum_by, None, IfSome, option_to_list, true};
ghost use Rattle.steal_pool.specs.Rows.{other_view, TookTicket};
ghost use Rattle.steal_pool.specs.Slots.{taken_at, taken_in, one_if, TookAtOne, TookNext};

use crate::row::{OtherRow, OwnRow, Stolen};

/// The next ticket. One whose push was refused comes before those in deques. After a stop no deque gives
/// one.
pub(crate) fn next_ticket(
    kept: &mut Vec<u32>,
    stopped: bool,
    own: &mut OwnRow,
    others: &mut Vec<OtherRow>,
) -> Option<u32>
    ensures count { taken_in own.new others.new.items + vec_len kept.old ≡ taken_in own.old others.old.items + (vec_len kept.new + one_if result) }
    ensures none { result ≡ None → vec_len kept.new ≡ 0 }

    // It is the last one that was kept, or else one that a seat took.
    ensures kept { 0 < vec_len kept.old → kept.old.items ≡ kept.new.items ++ option_to_list result }
    ensures taken { vec_len kept.old ≡ 0 → IfSome result (TookNext own.old own.new others.old.items others.new.items) }
    ensures stopped { stopped ≡ true → taken_in own.new others.new.items ≡ taken_in own.old others.old.items }
{
    if let Some(ticket) = kept.pop() {
        return Some(ticket);
    }
    if stopped {
        return None;
    }
    take_ticket(own, others)
}

/// A ticket of the own deque first, and then of the others in their order.
fn take_ticket(own: &mut OwnRow, others: &mut Vec<OtherRow>) -> Option<u32>
    ensures count { taken_in own.new others.new.items ≡ taken_in own.old others.old.items + one_if result }
    ensures taken { IfSome result (TookNext own.old own.new others.old.items others.new.items) }
{
    match own.pop() {
        Some(ticket) => Some(ticket),
        None => steal_first(others.as_mut_slice()),
    }
}

/// A ticket of the first of the other deques that gives one.
fn steal_first(others: &mut [OtherRow]) -> Option<u32>
    ensures count { sum_by taken_at others.new ≡ sum_by taken_at others.old + one_if result }
    ensures taken { IfSome result (TookAtOne others.old others.new) }
{
    for place in 0..others.len() {
        if let Some(ticket) = steal_ticket(&mut others[place]) {
            return Some(ticket);
        }
    }
    None
}

/// A ticket of another deque. A steal that may be tried again gives none.
fn steal_ticket(other: &mut OtherRow) -> Option<u32>
    ensures count { taken_at other.new ≡ taken_at other.old + one_if result }
    ensures taken { IfSome result (TookTicket (other_view other.old) (other_view other.new)) }
{
    match other.steal() {
        Stolen::Ticket(ticket) => Some(ticket),
        Stolen::Nothing | Stolen::Again => None,
    }
}
