//! A run of the pool: the whole tree of a work, judged by workers.

ghost use Rattle.std.specs.Prelude.{◌≡◌, ◌+◌, ◌≤◌, ◌<◌, length, IfOk, IfErr, OnOk};
ghost use Rattle.verdict_book.specs.Books.{claims_in, filings_in};
ghost use Rattle.verdict_book.specs.Items.{ReachesMore};
ghost use Rattle.verdict_book.specs.Lists.{IsWholeTree, IsPoolFault};
ghost use Rattle.steal_pool.specs.Runs.{IsGathered};

use crate::count::{PoolCount, fault_of};
use crate::finish::finish;
use crate::gather::{Gathered, Tally, gather};
use crate::locked::{Capped, LockedBook};
use crate::slots::{make_slots, run_slots};
use dns_data::{List, NoMemory};
use io_edges::Gate;
use std::alloc::Global;
use std::marker::Brand;
use std::sync::ledger::{Blank, Ledger};
use std::sync::{Mutex, Wait};
use std::thread::Threads;
use verdict_book::{Book, Filed, JudgeShare, PoolFault, Work, walk_tree};

/// The reached items of the work with their verdicts, each once, sorted by item, judged by this many workers.
/// One worker is the caller's own thread, which passes no gate; more are a thread each. `TooMany` comes exactly
/// where more than `limit` items are reached.
pub fn run_tree<W: Work + Sync, G: Gate + Sync, R: Threads + Wait + Sync>(
    rt: &R,
    alloc: Global,
    work: &W,
    workers: u32,
    limit: u32,
    gate: &G,
) -> Result<List<Filed<W>>, PoolFault>
    requires workers { 1 ≤ workers }
    requires limit { 1 ≤ limit }
    ensures whole { IfOk result (IsWholeTree W.Item.cmp W.first_item W.children_of W.verdict_of) }
    ensures few { OnOk result (ReachesMore W.first_item W.children_of limit → ⊥) }
    ensures fault { IfErr result (IsPoolFault W.first_item W.children_of limit) }
{
    let mut count = PoolCount::new();
    run_tree_counted(rt, alloc, work, workers, limit, gate, &mut count)
}

/// What `run_tree` answers, with the counts of the run. The old content of `count` is not looked at.
pub fn run_tree_counted<W: Work + Sync, G: Gate + Sync, R: Threads + Wait + Sync>(
    rt: &R,
    alloc: Global,
    work: &W,
    workers: u32,
    limit: u32,
    gate: &G,
    count: &mut PoolCount,
) -> Result<List<Filed<W>>, PoolFault>
    requires workers { 1 ≤ workers }
    requires limit { 1 ≤ limit }
    ensures whole { IfOk result (IsWholeTree W.Item.cmp W.first_item W.children_of W.verdict_of) }
    ensures few { OnOk result (ReachesMore W.first_item W.children_of limit → ⊥) }
    ensures fault { IfErr result (IsPoolFault W.first_item W.children_of limit) }

    // No more was filed, or refused as foreign, than claimed, and no more claimed than the limit. Where there is a list,
    // each claim was one of the two.
    ensures filed { count.new.filed + count.new.foreign ≤ count.new.given }
    ensures met { OnOk result (count.new.given ≡ count.new.filed + count.new.foreign) }
    ensures given { count.new.given ≤ limit }

    // There were as many judging calls as claims.
    ensures judged { count.new.judged ≡ count.new.given }

    // Where no filing was foreign, there were as many of each as items.
    ensures items { IfOk result (λ list. count.new.foreign ≡ 0 → (count.new.given ≡ length list) × (count.new.filed ≡ length list) × (count.new.judged ≡ length list)) }
{
    *count = PoolCount::new();
    let gathered = run_through(rt, alloc, work, workers, limit, gate)?;
    answer(alloc, work, limit, gathered, count)
}

/// What the workers leave. One worker needs no thread, lock or deque: then it is a new book, which the caller
/// finishes.
fn run_through<W: Work + Sync, G: Gate + Sync, R: Threads + Wait + Sync>(
    rt: &R,
    alloc: Global,
    work: &W,
    workers: u32,
    limit: u32,
    gate: &G,
) -> Result<Gathered<W>, NoMemory>
    requires workers { 1 ≤ workers }
    requires limit { 1 ≤ limit }
    ensures { IfOk result (IsGathered W.first_item W.children_of limit) }
{
    if workers == 1 {
        return untouched(alloc, work, limit);
    }
    let parts = workers as u64 + 1;
    run_workers::<W, Brand, Brand, Brand, G, R>(
        rt,
        alloc,
        work,
        workers,
        limit,
        gate,
        Blank::new(parts),
        Blank::new(parts),
        Blank::new(parts),
    )
}

/// A new book, as it is left where no worker ran.
fn untouched<W: Work>(alloc: Global, work: &W, limit: u32) -> Result<Gathered<W>, NoMemory>
    requires { 1 ≤ limit }
    ensures { IfOk result (IsGathered W.first_item W.children_of limit) }
{
    let book = Book::new(alloc, work, limit)?;
    let tally = Tally {
        judged: 0,
        foreign: 0,
        stop: None,
    };
    Ok(Gathered { book, tally })
}

/// Runs the workers on a new book, and gathers what they leave.
fn run_workers<
    W: Work + Sync,
    A: Capped + Sync,
    B: Ledger + Sync,
    C: Ledger + Sync,
    G: Gate + Sync,
    R: Threads + Wait + Sync,
>(
    rt: &R,
    alloc: Global,
    work: &W,
    workers: u32,
    limit: u32,
    gate: &G,
    asked: Blank,
    given: Blank,
    filed: Blank,
) -> Result<Gathered<W>, NoMemory>
    requires workers { 1 ≤ workers }
    requires limit { 1 ≤ limit }
    requires asked { (asked.name ≡ A.name) × (asked.parts ≡ A.parts) × (asked.parts ≡ workers + 1) × (A.limit ≡ limit) }
    requires given { (given.name ≡ B.name) × (given.parts ≡ B.parts) × (given.parts ≡ workers + 1) }
    requires filed { (filed.name ≡ C.name) × (filed.parts ≡ C.parts) × (filed.parts ≡ workers + 1) }
    ensures { IfOk result (IsGathered W.first_item W.children_of limit) }
{
    let (asked, mut asked_left) = asked.open::<A>();
    let (given, mut given_left) = given.open::<B>();
    let (filed, mut filed_left) = filed.open::<C>();
    let book = Book::new(alloc, work, limit)?;
    let locked = Mutex::new(LockedBook::new(book, asked, given, filed));
    let mut slots = make_slots(
        alloc,
        workers as usize,
        &mut asked_left,
        &mut given_left,
        &mut filed_left,
    )?;
    run_slots(rt, alloc, slots.as_mut_slice(), &locked, work, gate);
    Ok(gather(slots, locked.into_inner(), given_left, filed_left))
}

/// The answer after the workers: by the cause of their stop; or, where some filing was foreign, by a walk in
/// this thread; or by the book, once what they left is finished.
fn answer<W: Work>(
    alloc: Global,
    work: &W,
    limit: u32,
    gathered: Gathered<W>,
    count: &mut PoolCount,
) -> Result<List<Filed<W>>, PoolFault>
    requires limit { 1 ≤ limit }
    requires gathered { IsGathered W.first_item W.children_of limit gathered }
    ensures whole { IfOk result (IsWholeTree W.Item.cmp W.first_item W.children_of W.verdict_of) }
    ensures few { OnOk result (ReachesMore W.first_item W.children_of limit → ⊥) }
    ensures fault { IfErr result (IsPoolFault W.first_item W.children_of limit) }
    ensures filed { count.new.filed + count.new.foreign ≤ count.new.given }
    ensures met { OnOk result (count.new.given ≡ count.new.filed + count.new.foreign) }
    ensures given { count.new.given ≤ limit }
    ensures judged { count.new.judged ≡ count.new.given }
    ensures items { IfOk result (λ list. count.new.foreign ≡ 0 → (count.new.given ≡ length list) × (count.new.filed ≡ length list) × (count.new.judged ≡ length list)) }
{
    let Gathered { mut book, tally } = gathered;
    if let Some(cause) = tally.stop {
        *count = count_of(&book, tally.judged, tally.foreign);
        return Err(fault_of(cause, limit));
    }
    if tally.foreign > 0 {
        *count = count_of(&book, tally.judged, tally.foreign);
        return walk_tree(alloc, work, limit);
    }
    let mut share = JudgeShare::new();
    let finished = finish(&mut book, work, &mut share);
    *count = count_of(&book, tally.judged + share.calls(), tally.foreign);
    match finished {
        Ok(()) => Ok(book.into_list(alloc)?),
        Err(cause) => Err(fault_of(cause, limit)),
    }
}

/// The counts of a book for which there were as many judging calls as claims.
fn count_of<W: Work>(book: &Book<W>, judged: u64, foreign: u64) -> PoolCount
    requires { judged ≡ claims_in book.now.history }
    ensures given { (result.given ≡ claims_in book.now.history) × (result.judged ≡ result.given) }
    ensures filed { result.filed ≡ filings_in book.now.history }
    ensures foreign { result.foreign ≡ foreign }
    ensures few { (result.filed ≤ result.given) × (result.given ≤ book.now.limit) }
{
    // The issued tickets are read, so that it is known here how claims and filings stand to them.
    let _issued = book.issued();
    PoolCount {
        given: book.claims() as u64,
        filed: book.filings() as u64,
        judged,
        foreign,
    }
}
