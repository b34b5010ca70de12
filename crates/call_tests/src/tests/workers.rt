//! Works in one thread and in several, and the deques of workers.

ghost use Rattle.std.specs.Prelude.{◌≤◌};

use super::trees::{Tree, counted, new_tree};
use dns_data::NoMemory;
use io_edges::FreeGate;
use std::alloc::Global;
use std::sync::Wait;
use std::test::Fail;
use std::thread::Threads;
use steal_pool::{OwnRow, PoolCount, PoolFault, Stolen, run_tree_counted};
use verdict_book::walk_tree;

// The pool walks so only where some filing was foreign, which no run meets.
#[test]
fn a_walk_judges_each_item_once(rt: HostRuntime) {
    let work = new_tree::<2, 7>(rt.alloc(), 7);
    assert!(rt; walked(rt.alloc(), &work, 6) == Err(PoolFault::TooMany(6)));
    let whole = new_tree::<2, 7>(rt.alloc(), 7);
    assert!(rt; walked(rt.alloc(), &whole, 7) == Ok(Some(7)));
    assert!(rt; whole.calls() == 7);
}

/// How many items a walk gives, if they are in order.
fn walked(alloc: Global, work: &Tree<2, 7>, limit: u32) -> Result<Option<usize>, PoolFault>
    requires { 1 ≤ limit }
{
    let list = walk_tree(alloc, work, limit)?;
    Ok(counted(list.items()))
}

// A run is whole within as many items as there are, whatever workers it has, and passes any lower limit; where one of its
// workers has no memory, it ends.
#[test]
fn runs_end_whole_or_with_their_fault(rt: HostRuntime) {
    let passed = Err(PoolFault::TooMany(6));
    let failed = Err(PoolFault::NoMemory);
    for workers in [1, 2, 8] {
        let seven = new_tree::<2, 7>(rt.alloc(), 7);
        assert!(rt;
            ends(&rt, rt.alloc(), &seven, workers, 7, Ok(Some(7))),
            "{workers}"
        );
        let seven = new_tree::<2, 7>(rt.alloc(), 7);
        assert!(rt;
            ends(&rt, rt.alloc(), &seven, workers, 6, passed),
            "{workers}"
        );
        let hundred = new_tree::<2, 100>(rt.alloc(), 50);
        assert!(rt;
            ends(&rt, rt.alloc(), &hundred, workers, 100, failed),
            "{workers}"
        );
    }
}

#[test]
fn eight_workers_judge_each_of_many_items_once(rt: HostRuntime) {
    let binary = new_tree::<2, 500>(rt.alloc(), 500);
    assert!(rt; ends(&rt, rt.alloc(), &binary, 8, 500, Ok(Some(500))));
    let wide = new_tree::<1000, 1001>(rt.alloc(), 1001);
    assert!(rt;
        ends(
            &rt,
            rt.alloc(),
            &wide,
            8,
            1000,
            Err(PoolFault::TooMany(1000))
        )
    );
    let wide = new_tree::<1000, 1001>(rt.alloc(), 1001);
    assert!(rt; ends(&rt, rt.alloc(), &wide, 8, 1001, Ok(Some(1001))));
}

/// Whether a run ends so, and counts the judging calls that there were; where it is whole, these are as many as the items.
fn ends<const FAN: u32, const SIZE: u32, R: Threads + Wait + Sync>(
    rt: &R,
    alloc: Global,
    work: &Tree<FAN, SIZE>,
    workers: u32,
    limit: u32,
    wanted: Result<Option<usize>, PoolFault>,
) -> bool
    requires workers { 1 ≤ workers }
    requires limit { 1 ≤ limit }
{
    let mut count = PoolCount::new();
    let end = ran(rt, alloc, work, workers, limit, &mut count);
    end == wanted && is_counted(work.calls(), end, &count)
}

/// How many items a run gives, if they are in order.
fn ran<const FAN: u32, const SIZE: u32, R: Threads + Wait + Sync>(
    rt: &R,
    alloc: Global,
    work: &Tree<FAN, SIZE>,
    workers: u32,
    limit: u32,
    count: &mut PoolCount,
) -> Result<Option<usize>, PoolFault>
    requires workers { 1 ≤ workers }
    requires limit { 1 ≤ limit }
{
    let list = run_tree_counted(rt, alloc, work, workers, limit, &FreeGate, count)?;
    Ok(counted(list.items()))
}

/// Whether so many judging calls are counted, no filing is foreign, and of a whole list each item was claimed, judged and
/// filed once.
fn is_counted(calls: u64, end: Result<Option<usize>, PoolFault>, count: &PoolCount) -> bool {
    let is_whole = match end {
        Ok(Some(items)) => {
            let items = items as u64;
            count.given == items && count.filed == items && calls == items
        }
        Ok(None) => false,
        Err(_) => true,
    };
    is_whole && count.judged == calls && count.foreign == 0
}

// The owner and a thief take the first ticket, and so does a seat that was split off and is joined again.
#[test]
fn tickets_leave_a_deque_in_their_order(rt: HostRuntime) -> Result<(), Fail> {
    let mut own = OwnRow::new(rt.alloc(), 1)?;
    assert!(rt; are_pushed(&mut own));
    assert!(rt; first_two_are_taken(&mut own)?);
    assert!(rt; third_is_taken(&mut own)?);
    assert!(rt; own.held() == 1);
    Ok(())
}

/// Whether the tickets 0 to 3 are pushed.
fn are_pushed(own: &mut OwnRow) -> bool {
    for ticket in 0..4 {
        if own.push(ticket).is_err() {
            return false;
        }
    }
    true
}

/// Whether a thief takes the first ticket, and the owner the second.
fn first_two_are_taken(own: &mut OwnRow) -> Result<bool, NoMemory> {
    let mut thief = own.other()?;
    Ok(thief.steal() == Stolen::Ticket(0) && own.pop() == Some(1))
}

/// Whether a seat that is split off takes the third ticket; it is joined again.
fn third_is_taken(own: &mut OwnRow) -> Result<bool, NoMemory> {
    let mut split = own.split()?;
    let taken = split.steal();
    own.join(split);
    Ok(taken == Stolen::Ticket(2))
}
