//! What is gathered from the slots when the workers have ended.

ghost use Rattle.std.specs.Prelude.{◌≡◌, ◌+◌, ◌<◌, ◌^◌, All, vec_len, None};
ghost use Rattle.steal_pool.specs.Ends.{first_cause, stop_of};
ghost use Rattle.steal_pool.specs.Slots.{IsSettledSlot};
ghost use Rattle.steal_pool.specs.Runs.{IsTally, IsGathered};

use crate::locked::{Capped, LockedBook};
use crate::slot::{Ended, Slot};
use pool_core::StopCause;
use std::sync::ledger::{Ledger, Share};
use verdict_book::{Book, Work};

/// The counts of some slots together, and the cause of their stops. Want of room goes first.
#[derive(Clone, Copy, Debug, PartialEq, Eq)]
pub(crate) struct Tally {
    pub judged: u64,
    pub foreign: u64,
    pub stop: Option<StopCause>,
}

/// The book that the workers left, with their counts and the cause for which they stopped.
#[derive(Drop)]
pub(crate) struct Gathered<W: Work> {
    pub book: Book<W>,
    pub tally: Tally,
}

/// Gathers the shares and counts of all slots.
pub(crate) fn gather<W: Work, A: Capped, B: Ledger, C: Ledger>(
    mut slots: Vec<Slot<A, B, C>>,
    mut locked: LockedBook<W, A, B, C>,
    mut given: Share<B>,
    mut filed: Share<C>,
) -> Gathered<W>
    requires limit { A.limit < 2 ^ 32 }
    requires settled { All (IsSettledSlot W.first_item W.children_of A.limit) slots.items }
    requires parts { (given.parts + vec_len slots ≡ B.parts) × (filed.parts + vec_len slots ≡ C.parts) }
    requires amounts { (given.amount ≡ 0) × (filed.amount ≡ 0) }
    ensures { IsGathered W.first_item W.children_of A.limit result }
{
    let mut tally = Tally {
        judged: 0,
        foreign: 0,
        stop: None,
    };
    while let Some(slot) = slots.pop() {
        add_slot(&mut tally, slot, &mut locked, &mut given, &mut filed);
    }
    let book = locked.into_book(given, filed);
    tally.stop = first_cause(book.stopped(), tally.stop);
    Gathered { book, tally }
}

/// Adds the shares and counts of one slot.
fn add_slot<W: Work, A: Capped, B: Ledger, C: Ledger>(
    tally: &mut Tally,
    slot: Slot<A, B, C>,
    locked: &mut LockedBook<W, A, B, C>,
    given: &mut Share<B>,
    filed: &mut Share<C>,
)
    requires settled { IsSettledSlot W.first_item W.children_of A.limit slot }
    requires tally { IsTally W.first_item W.children_of A.limit given.old.amount filed.old.amount tally.old }
    ensures parts { (given.new.parts ≡ given.old.parts + 1) × (filed.new.parts ≡ filed.old.parts + 1) }
    ensures tally { IsTally W.first_item W.children_of A.limit given.new.amount filed.new.amount tally.new }
{
    given.merge(slot.given);
    filed.merge(slot.filed);
    locked.audit(given);
    tally.judged += slot.share.calls();
    tally.foreign += slot.foreign;
    tally.stop = first_cause(tally.stop, stop_of(slot.ended));
}

/// Which of two causes counts: want of room before `NoMemory`, and either before none.
fn first_cause(one: Option<StopCause>, other: Option<StopCause>) -> Option<StopCause>
    ensures { result ≡ first_cause one other }
{
    match (one, other) {
        (Some(StopCause::Full), _) | (_, None) => one,
        _ => other,
    }
}

/// The cause for which a worker ended, if it ended by a stop.
fn stop_of(ended: Option<Ended>) -> Option<StopCause>
    ensures { result ≡ stop_of ended }
{
    match ended {
        Some(Ended::Stopped(cause)) => Some(cause),
        Some(Ended::Whole(_)) | None => None,
    }
}
