//! Equal verdicts in one place of memory.

ghost use Rattle.std.specs.Prelude.{◌≡◌, IfSome};

use crate::row::{Row, TicketState};
use crate::work::Work;

/// How many verdicts a new one is compared with.
pub(crate) const COMPARED: usize = 4;

/// The verdict of a ticket that is filed now: in the memory of an equal one, where that was filed with one of the last
/// tickets of which this is known, or else in its own. The ticket is one of the last then.
pub(crate) fn shared<W: Work>(
    rows: &[Row<W::Item, W::Verdict>],
    last: &mut [u32; COMPARED],
    ticket: u32,
    verdict: W::Verdict,
) -> W::Verdict
    ensures { result ≡ verdict }
{
    if !W::may_be_shared(&verdict) {
        return verdict;
    }
    for other in last.iter() {
        if let Some(same) = shared_at::<W>(rows, *other, &verdict) {
            return same;
        }
    }
    *last = [ticket, last[0], last[1], last[2]];
    verdict
}

/// The verdict in the memory of the one that a ticket was filed with, where that is equal to it.
fn shared_at<W: Work>(
    rows: &[Row<W::Item, W::Verdict>],
    ticket: u32,
    verdict: &W::Verdict,
) -> Option<W::Verdict>
    ensures { IfSome result (λ same. same ≡ verdict.now) }
{
    match rows.get(ticket as usize) {
        Some(row) => match &row.state {
            TicketState::Filed(filed) => W::shared(verdict, filed),
            TicketState::Issued | TicketState::Claimed => None,
        },
        None => None,
    }
}
