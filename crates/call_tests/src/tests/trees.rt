//! Works of as many items as a test wants.

ghost use Rattle.std.specs.Prelude.{◌≡◌, ◌+◌, ◌/◌, ◌<◌, ◌^◌, IfOk};
ghost use Rattle.std.specs.List.{range_with_len};
ghost use Rattle.std.proofs.lemmas.Map.Lookups.{exact_unsigned};
ghost use Rattle.call_tests.specs.Trees.{fan_children, tree_apart};

use dns_data::{List, NoMemory};
use std::alloc::Global;
use std::sync::atomic::{AtomicU64, Ordering};
use verdict_book::{Filed, JudgeShare, Judged, Work};

/// The items 0 to SIZE - 1: item i has the children i * FAN + 1 to i * FAN + FAN, as far as they are items. The verdict is
/// half the item. It counts its judging calls, and at one item it has no memory.
#[derive(Drop)]
pub(crate) struct Tree<const FAN: u32, const SIZE: u32> {
    alloc: Global,
    calls: AtomicU64,
    fails: u32,
}

impl<const FAN: u32, const SIZE: u32> Work for Tree<FAN, SIZE> {
    type Item = u32;

    type Verdict = u32;

    ghost first_item = { 0 };

    ghost children_of = { fan_children FAN SIZE };

    ghost verdict_of = { λ item. item / 2 };

    fn first(&self) -> Result<u32, NoMemory> {
        Ok(0)
    }

    fn judge(&self, item: &u32, share: &mut JudgeShare) -> Result<Judged<u32, u32>, NoMemory> {
        share.raise();
        self.calls.fetch_add(1, Ordering::SeqCst);
        if *item == self.fails {
            return Err(NoMemory);
        }
        let first = *item as u64 * FAN as u64 + 1;
        let count = (FAN as u64).min((SIZE as u64).saturating_sub(first));
        Ok(Judged {
            verdict: *item / 2,
            children: list_from(self.alloc, first, count)?,
        })
    }

    fn copy_item(&self, item: &u32) -> Result<u32, NoMemory> {
        Ok(*item)
    }

    ghost parents_apart = { tree_apart FAN SIZE };

    ghost equal_is_same = { exact_unsigned };
}

/// So many numbers, from the first one on.
fn list_from(alloc: Global, first: u64, count: u64) -> Result<List<u32>, NoMemory>
    requires { 0 < count → first + count < 2 ^ 32 }
    ensures { IfOk result (λ list. list ≡ range_with_len first count) }
{
    let mut list = List::new(alloc);
    for place in 0..count {
        list.push((first + place) as u32)?;
    }
    Ok(list)
}

/// A work that has no memory at this item, which may be none of its own.
pub(crate) fn new_tree<const FAN: u32, const SIZE: u32>(
    alloc: Global,
    fails: u32,
) -> Tree<FAN, SIZE> {
    Tree {
        alloc,
        calls: AtomicU64::new(0),
        fails,
    }
}

impl<const FAN: u32, const SIZE: u32> Tree<FAN, SIZE> {
    /// How many judging calls there were.
    pub(crate) fn calls(&self) -> u64 {
        self.calls.load(Ordering::SeqCst)
    }
}

/// How many items a list has, or `None` where they aren't those from 0 on in their order, each with its verdict.
pub(crate) fn counted<const FAN: u32, const SIZE: u32>(
    list: &[Filed<Tree<FAN, SIZE>>],
) -> Option<usize> {
    for place in 0..list.len() {
        let filed = &list[place];
        if filed.item as usize != place || filed.verdict != filed.item / 2 {
            return None;
        }
    }
    Some(list.len())
}
