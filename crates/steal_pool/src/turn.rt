//! What a worker does with one ticket.

ghost use Rattle.std.specs.Prelude.{◌≡◌, ◌+◌, ◌-◌, ◌<◌, ◌≤◌, ◌^◌, vec_len, vec_capacity, IfOk, IfErr, IfSome, Ok, Some, None, min};
ghost use Rattle.pool_core.specs.declared.event.StopCause.TheVariants.{Full};
ghost use Rattle.verdict_book.specs.Items.{Reached, ReachesMore};
ghost use Rattle.verdict_book.specs.declared.claim.ClaimFault.TheVariants.{Stopped};
ghost use Rattle.steal_pool.specs.Ends.{IsRightCause, ClaimsMet};
ghost use Rattle.steal_pool.specs.Rows.{own_view};
ghost use Rattle.steal_pool.specs.Slots.{taken_in};

use crate::locked::{Capped, LockedBook, locked};
use crate::row::OwnRow;
use crate::slot::Slot;
use io_edges::Gate;
use pool_core::StopCause;
use std::sync::ledger::{Ledger, Share};
use std::sync::{Mutex, Wait};
use std::thread;
use verdict_book::{Claim, ClaimFault, FileFault, Issued, JudgeShare, Judged, Work};

/// Claims a ticket, and after the gate judges its item and files it. The answer is the cause for which
/// the worker ends, if it does.
pub(crate) fn one_ticket<W: Work, A: Capped, B: Ledger, C: Ledger, G: Gate, R: Wait>(
    rt: &R,
    book: &Mutex<LockedBook<W, A, B, C>>,
    work: &W,
    gate: &G,
    ticket: u32,
    kept: &mut Vec<u32>,
    slot: &mut Slot<A, B, C>,
) -> Option<StopCause>
    requires parts { (0 < slot.old.asked.parts) × (0 < slot.old.given.parts) × (0 < slot.old.filed.parts) }
    requires calls { slot.old.share ≡ slot.old.given.amount }
    requires met { slot.old.filed.amount + slot.old.foreign ≤ slot.old.given.amount }
    ensures parts { (slot.new.asked.parts ≡ slot.old.asked.parts) × (slot.new.given.parts ≡ slot.old.given.parts) × (slot.new.filed.parts ≡ slot.old.filed.parts) }
    ensures calls { slot.new.share ≡ slot.new.given.amount }
    ensures asked { (slot.new.asked.amount + vec_len kept.new) + (taken_in slot.old.own slot.old.others.items + slot.old.refused) ≡ ((taken_in slot.new.own slot.new.others.items + slot.new.refused) + (slot.old.asked.amount + vec_len kept.old)) + 1 }
    ensures met { (slot.new.filed.amount + slot.new.foreign ≤ slot.new.given.amount) × (slot.old.given.amount ≡ slot.old.filed.amount + slot.old.foreign → ClaimsMet slot.new.given.amount slot.new.filed.amount slot.new.foreign result) }
    ensures full { IsRightCause W.first_item W.children_of A.limit result }
    ensures ended { slot.new.ended ≡ slot.old.ended }
{
    let asked = locked(rt, book).claim(work, ticket, &mut slot.asked, &mut slot.given);
    let claim = match asked {
        Ok(claim) => claim,
        Err(fault) => return refused(rt, book, fault),
    };
    gate.pass(claim.ticket);
    match judge_and_file(
        rt,
        book,
        work,
        claim,
        kept,
        &mut slot.share,
        &mut slot.filed,
    ) {
        Ok(Some(issued)) => {
            wait_for_count(rt, slot.refused, issued.count);
            push_issued(&mut slot.own, kept, &mut slot.refused, issued);
            None
        }
        Ok(None) => {
            slot.foreign += 1;
            None
        }
        Err(cause) => {
            locked(rt, book).stop(cause);
            Some(cause)
        }
    }
}

/// What follows where no claim is given: a ticket that is gone is dropped, a stop ends the worker, and want
/// of memory stops the book.
fn refused<W: Work, A: Capped, B: Ledger, C: Ledger, R: Wait>(
    rt: &R,
    book: &Mutex<LockedBook<W, A, B, C>>,
    fault: ClaimFault,
) -> Option<StopCause>
    requires full { fault ≡ Stopped Full → ReachesMore W.first_item W.children_of A.limit }
    ensures full { IsRightCause W.first_item W.children_of A.limit result }
{
    match fault {
        ClaimFault::Gone(_) => None,
        ClaimFault::Stopped(cause) => Some(cause),
        ClaimFault::NoMemory => {
            locked(rt, book).stop(StopCause::NoMemory);
            Some(StopCause::NoMemory)
        }
    }
}

/// Judges the item of a claim and files it: which tickets were issued, or `None` where the filing was
/// foreign and the verdict is dropped. Room for tickets whose push is refused is made before the filing.
fn judge_and_file<W: Work, A: Capped, B: Ledger, C: Ledger, R: Wait>(
    rt: &R,
    book: &Mutex<LockedBook<W, A, B, C>>,
    work: &W,
    claim: Claim<W::Item>,
    kept: &mut Vec<u32>,
    share: &mut JudgeShare,
    filed: &mut Share<C>,
) -> Result<Option<Issued>, StopCause>
    requires reached { Reached W.first_item W.children_of claim.item }
    requires parts { 0 < filed.old.parts }
    ensures calls { share.new ≡ min (share.old + 1) (2 ^ 64 - 1) }
    ensures parts { filed.new.parts ≡ filed.old.parts }
    ensures kept { kept.new.items ≡ kept.old.items }
    ensures issued { IfOk result (λ answer. IfSome answer (λ issued. (filed.new.amount ≡ filed.old.amount + 1) × (vec_len kept.new + issued.count ≤ vec_capacity kept.new) × (issued.first + issued.count < 2 ^ 32))) }
    ensures foreign { result ≡ Ok None → filed.new.amount ≡ filed.old.amount }
    ensures stopped { IfErr result (λ cause. (filed.new.amount ≡ filed.old.amount) × IsRightCause W.first_item W.children_of A.limit (Some cause)) }
{
    let Ok(judged) = work.judge(&claim.item, share) else {
        return Err(StopCause::NoMemory);
    };
    if kept.reserve(judged.children.items().len()).is_err() {
        return Err(StopCause::NoMemory);
    }
    let Judged { verdict, children } = judged;
    match locked(rt, book).file(claim, verdict, children, filed) {
        Ok(issued) => Ok(Some(issued)),
        Err(FileFault::Foreign { .. }) => Ok(None),
        Err(FileFault::Full { .. }) => Err(StopCause::Full),
        Err(FileFault::NoMemory { .. }) => Err(StopCause::NoMemory),
    }
}

/// Waits until the count of refused pushes has room for this many more, which it lacks only near its type's
/// end. Then it never returns.
fn wait_for_count<R: Wait>(rt: &R, refused: u64, more: u32)
    ensures { refused + more < 2 ^ 64 }
{
    for _ in rt.forever() {
        if refused < u64::MAX - (more as u64) {
            break;
        }
        thread::yield_now();
    }
}

/// Pushes the tickets that a filing issued. Those that the deque refuses are kept and counted.
fn push_issued(own: &mut OwnRow, kept: &mut Vec<u32>, refused: &mut u64, issued: Issued)
    requires room { vec_len kept.old + issued.count ≤ vec_capacity kept.old }
    requires numbers { issued.first + issued.count < 2 ^ 32 }
    requires count { refused.old + issued.count < 2 ^ 64 }
    ensures kept { vec_len kept.new + refused.old ≡ vec_len kept.old + refused.new }
    ensures taken { (own_view own.new).taken ≡ (own_view own.old).taken }
{
    for i in 0..issued.count {
        if let Err(ticket) = own.push(issued.first + i) {
            kept.push_reserved(ticket);
            *refused += 1;
        }
    }
}
