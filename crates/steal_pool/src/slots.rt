//! The slots of the workers, and their run.

ghost use Rattle.std.specs.Prelude.{◌≡◌, ◌+◌, ◌≤◌, ◌<◌, All, IfOk, OnOk, length, vec_len};
ghost use Rattle.steal_pool.specs.Slots.{IsUnused, IsSettledSlot};

use crate::laws::worker;
use crate::locked::{Capped, LockedBook};
use crate::row::{OtherRow, OwnRow};
use crate::slot::Slot;
use dns_data::NoMemory;
use io_edges::Gate;
use std::alloc::Global;
use std::sync::ledger::{Ledger, Share};
use std::sync::{Mutex, Wait};
use std::thread;
use std::thread::Threads;
use verdict_book::{JudgeShare, Work};

/// With how many places a deque begins.
const PLACES: usize = 64;

/// A slot for each worker, with a seat at the deque of each other one.
pub(crate) fn make_slots<A: Capped, B: Ledger, C: Ledger>(
    alloc: Global,
    workers: usize,
    asked: &mut Share<A>,
    given: &mut Share<B>,
    filed: &mut Share<C>,
) -> Result<Vec<Slot<A, B, C>>, NoMemory>
    requires asked { (asked.old.parts ≡ workers + 1) × (asked.old.amount ≡ 0) }
    requires given { (given.old.parts ≡ workers + 1) × (given.old.amount ≡ 0) }
    requires filed { (filed.old.parts ≡ workers + 1) × (filed.old.amount ≡ 0) }
    ensures len { IfOk result (λ slots. vec_len slots ≡ workers) }
    ensures rest { OnOk result ((given.new.parts ≡ 1) × (given.new.amount ≡ 0) × (filed.new.parts ≡ 1) × (filed.new.amount ≡ 0)) }
    ensures fresh { IfOk result (λ slots. All IsUnused slots.items) }
{
    let mut rows = make_rows(alloc, workers)?;
    let mut seats = make_seats(alloc, rows.as_slice())?;
    let mut slots = Vec::with_capacity(alloc, workers)?;
    while let Some(own) = rows.pop() {
        let others = seats.pop().unwrap_or(Vec::new(alloc));
        slots.push(new_slot(own, others, asked, given, filed))?;
    }
    Ok(slots)
}

/// A slot with one part of each share.
fn new_slot<A: Capped, B: Ledger, C: Ledger>(
    own: OwnRow,
    others: Vec<OtherRow>,
    asked: &mut Share<A>,
    given: &mut Share<B>,
    filed: &mut Share<C>,
) -> Slot<A, B, C>
    requires asked { (1 ≤ asked.old.parts) × (asked.old.amount ≡ 0) }
    requires given { (1 ≤ given.old.parts) × (given.old.amount ≡ 0) }
    requires filed { (1 ≤ filed.old.parts) × (filed.old.amount ≡ 0) }
    ensures asked { (asked.new.parts + 1 ≡ asked.old.parts) × (asked.new.amount ≡ 0) }
    ensures given { (given.new.parts + 1 ≡ given.old.parts) × (given.new.amount ≡ 0) }
    ensures filed { (filed.new.parts + 1 ≡ filed.old.parts) × (filed.new.amount ≡ 0) }
    ensures fresh { IsUnused result }
{
    Slot {
        own,
        others,
        share: JudgeShare::new(),
        ended: None,
        foreign: 0,
        refused: 0,
        asked: asked.split_off(1, 0),
        given: given.split_off(1, 0),
        filed: filed.split_off(1, 0),
    }
}

/// A deque for each worker.
fn make_rows(alloc: Global, workers: usize) -> Result<Vec<OwnRow>, NoMemory>
    ensures { IfOk result (λ rows. vec_len rows ≡ workers) }
{
    let mut rows = Vec::with_capacity(alloc, workers)?;
    for _row in 0..workers {
        rows.push(OwnRow::new(alloc, PLACES)?)?;
    }
    Ok(rows)
}

/// For each deque seats at the others, from the next one on and then from the first one.
fn make_seats(alloc: Global, rows: &[OwnRow]) -> Result<Vec<Vec<OtherRow>>, NoMemory> {
    let mut seats = Vec::with_capacity(alloc, rows.len())?;
    for place in 0..rows.len() {
        seats.push(other_seats(alloc, rows, place)?)?;
    }
    Ok(seats)
}

/// Seats at all deques but that at the place.
fn other_seats(alloc: Global, rows: &[OwnRow], place: usize) -> Result<Vec<OtherRow>, NoMemory>
    requires { place < length rows.now }
{
    let mut others = Vec::new(alloc);
    for row in rows[place + 1..].iter().chain(rows[..place].iter()) {
        others.push(row.other()?)?;
    }
    Ok(others)
}

/// Pushes ticket 0 on the deque of the first slot and runs each slot's worker, in as many threads. Where that push is
/// refused none is run.
pub(crate) fn run_slots<
    W: Work + Sync,
    A: Capped + Sync,
    B: Ledger + Sync,
    C: Ledger + Sync,
    G: Gate + Sync,
    R: Threads + Wait + Sync,
>(
    rt: &R,
    alloc: Global,
    slots: &mut [Slot<A, B, C>],
    book: &Mutex<LockedBook<W, A, B, C>>,
    work: &W,
    gate: &G,
)
    requires some { 1 ≤ length slots.old }
    requires fresh { All IsUnused slots.old }
    ensures len { length slots.new ≡ length slots.old }
    ensures settled { All (IsSettledSlot W.first_item W.children_of A.limit) slots.new }
{
    if !push_first(&mut slots[0]) {
        return;
    }
    let each = |_place: usize, slot: &mut Slot<A, B, C>|
        requires { IsUnused slot.now }
        ensures { IsSettledSlot W.first_item W.children_of A.limit slot.exit.now }
    { run_slot(rt, alloc, slot, book, work, gate) };
    let threads = slots.len();
    thread::for_each_mut(rt, slots, threads, &each);
}

/// Pushes ticket 0 on a slot's deque: whether the deque took it.
fn push_first<A: Capped, B: Ledger, C: Ledger>(slot: &mut Slot<A, B, C>) -> bool
    requires { IsUnused slot.old }
    ensures { IsUnused slot.new }
{
    slot.own.push(0).is_ok()
}

/// Runs a slot's worker.
fn run_slot<W: Work, A: Capped, B: Ledger, C: Ledger, G: Gate, R: Wait>(
    rt: &R,
    alloc: Global,
    slot: &mut Slot<A, B, C>,
    book: &Mutex<LockedBook<W, A, B, C>>,
    work: &W,
    gate: &G,
)
    requires fresh { IsUnused slot.old }
    ensures settled { IsSettledSlot W.first_item W.children_of A.limit slot.new }
{
    worker(rt, alloc, slot, book, work, gate)
}
