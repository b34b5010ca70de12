//! A worker, and what it promises at its return.

ghost use Rattle.std.specs.Prelude.{◌≡◌, ◌+◌, ◌<◌, ◌≤◌, None, Some, IfSome};
ghost use Rattle.steal_pool.specs.Ends.{IsRightCause, IsRightEnd, HasRightEnd};
ghost use Rattle.steal_pool.specs.Slots.{taken_in};
ghost use Rattle.steal_pool.specs.declared.slot.Ended.TheVariants.{Whole};

use crate::locked::{Capped, LockedBook, locked};
use crate::slot::{Ended, Slot};
use crate::taking::next_ticket;
use crate::turn::one_ticket;
use io_edges::Gate;
use pool_core::StopCause;
use std::alloc::Global;
use std::sync::ledger::Ledger;
use std::sync::{Mutex, Wait};
use std::thread;
use verdict_book::Work;

/// Takes tickets, from its own deque first and then from the others, claims them in the book, judges their
/// items and files them, until the book has nothing unfiled or was stopped. Tickets whose push its own
/// deque refused it claims before it takes another one, and before it ends. It passes the gate once for each
/// claim that it is given, before the judging.
pub fn worker<W: Work, A: Capped, B: Ledger, C: Ledger, G: Gate, R: Wait>(
    rt: &R,
    alloc: Global,
    slot: &mut Slot<A, B, C>,
    book: &Mutex<LockedBook<W, A, B, C>>,
    work: &W,
    gate: &G,
)
    requires fresh { (slot.old.ended ≡ None) × (slot.old.share ≡ 0) × (slot.old.foreign ≡ 0) × (slot.old.refused ≡ 0) }
    requires amounts { (slot.old.asked.amount ≡ 0) × (slot.old.given.amount ≡ 0) × (slot.old.filed.amount ≡ 0) }
    requires parts { (0 < slot.old.asked.parts) × (0 < slot.old.given.parts) × (0 < slot.old.filed.parts) }
    ensures parts { (slot.new.asked.parts ≡ slot.old.asked.parts) × (slot.new.given.parts ≡ slot.old.given.parts) × (slot.new.filed.parts ≡ slot.old.filed.parts) }

    // It made as many claim calls as its seats took tickets and its deque refused pushes.
    ensures asked { slot.new.asked.amount + taken_in slot.old.own slot.old.others.items ≡ taken_in slot.new.own slot.new.others.items + slot.new.refused }

    // It judged as often as it was given a claim.
    ensures calls { slot.new.share ≡ slot.new.given.amount }
    ensures met { slot.new.filed.amount + slot.new.foreign ≤ slot.new.given.amount }

    // It ended. `Whole` gives the number of the reached items, and each of its claims was filed or foreign.
    // `Full` comes only where more items than the limit are reached.
    ensures ended { HasRightEnd W.first_item W.children_of A.limit slot.new.given.amount slot.new.filed.amount slot.new.foreign slot.new.ended }
{
    let mut kept = Vec::new(alloc);
    let mut stopped: Option<StopCause> = None;
    for _ in rt.forever() {
        let next = next_ticket(
            &mut kept,
            stopped.is_some(),
            &mut slot.own,
            &mut slot.others,
        );
        let Some(ticket) = next else {
            if let Some(ended) = end_of(rt, book, stopped) {
                slot.ended = Some(ended);
                return;
            }
            thread::yield_now();
            continue;
        };
        let cause = one_ticket(rt, book, work, gate, ticket, &mut kept, slot);
        if stopped.is_none() {
            stopped = cause;
        }
    }
}

/// How a worker ends that has no ticket: by its stop, or as the book says. `None` where it goes on.
fn end_of<W: Work, A: Capped, B: Ledger, C: Ledger, R: Wait>(
    rt: &R,
    book: &Mutex<LockedBook<W, A, B, C>>,
    stopped: Option<StopCause>,
) -> Option<Ended>
    requires full { IsRightCause W.first_item W.children_of A.limit stopped }
    ensures says { IfSome result (IsRightEnd W.first_item W.children_of A.limit) }
    ensures whole { (count : _) → result ≡ Some (Whole count) → stopped ≡ None }
{
    match stopped {
        Some(cause) => Some(Ended::Stopped(cause)),
        None => locked(rt, book).end(),
    }
}
