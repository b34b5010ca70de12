//! A work: items, of which each has children and a verdict.

ghost use Rattle.std.specs.Prelude.{◌≡◌, ◌+◌, ◌^◌, ◌-◌, ℕ, List as Items, IfOk, IfSome, min};
ghost use Rattle.std.specs.declared.cmp.Ordering.TheVariants.{Equal};
ghost use Rattle.verdict_book.specs.Items.{Reached, ParentsApart};

use dns_data::{List, NoMemory};
use std::marker::Model;

/// Counts the judging calls of one worker, and keeps the hint that a call leaves for the next one. Contracts see how many
/// calls there were: no meaning rests on a hint.
#[derive(Debug, Drop)]
pub struct JudgeShare {
    calls: u64,
    hint: usize,
}

impl Model for JudgeShare {
    ghost Value = { ℕ };

    ghost view = { λ share. share.calls };
}

impl JudgeShare {
    /// No call, and no hint.
    pub fn new() -> JudgeShare
        ensures { result ≡ 0 }
    {
        JudgeShare {
            calls: 0,
            hint: usize::MAX,
        }
    }

    /// One call more, up to the type's end.
    pub fn raise(&mut self)
        ensures { self.new ≡ min (self.old + 1) (2 ^ 64 - 1) }
    {
        self.calls = self.calls.saturating_add(1);
    }

    /// How many calls there were.
    pub fn calls(&self) -> u64
        ensures { result ≡ self.now }
    {
        self.calls
    }

    /// What the last call left, or `usize::MAX` before one left anything.
    pub fn hint(&self) -> usize {
        self.hint
    }

    /// Leaves a hint for the next call.
    pub fn leave(&mut self, hint: usize)
        ensures { self.new ≡ self.old }
    {
        self.hint = hint;
    }
}

/// What is found of an item: its verdict, and its children in order.
#[derive(Drop)]
pub struct Judged<I, V> {
    pub verdict: V,
    pub children: List<I>,
}

/// Items in a tree, each with its children and its verdict.
///
/// The meanings belong to the type and not to one value, since only the type of a value behind a lock
/// is known. An item is a child of at most one reached item, and of that one at most once; the first
/// item is a child of none. Items that compare equal are the same value. A work holds its allocator.
pub trait Work {
    type Item: Ord + Drop + Send;

    type Verdict: Drop + Send;

    ghost first_item: { Self.Item };

    ghost children_of: { Self.Item → Items Self.Item };

    ghost verdict_of: { Self.Item → Self.Verdict };

    /// The item from which all others are reached.
    fn first(&self) -> Result<Self::Item, NoMemory>
        ensures { IfOk result (λ item. item ≡ first_item) };

    /// The verdict and the children of a reached item. The share counts the call, also where memory runs out.
    fn judge(
        &self,
        item: &Self::Item,
        share: &mut JudgeShare,
    ) -> Result<Judged<Self::Item, Self::Verdict>, NoMemory>
        requires { Reached first_item children_of item.now }
        ensures verdict { IfOk result (λ judged. judged.verdict ≡ verdict_of item.now) }
        ensures children { IfOk result (λ judged. judged.children ≡ children_of item.now) }
        ensures calls { share.new ≡ min (share.old + 1) (2 ^ 64 - 1) };

    /// An equal item.
    fn copy_item(&self, item: &Self::Item) -> Result<Self::Item, NoMemory>
        ensures { IfOk result (λ copy. copy ≡ item.now) };

    /// Whether an equal verdict may stand in the memory of this one: `false` where a work says nothing else.
    fn may_be_shared(_verdict: &Self::Verdict) -> bool {
        false
    }

    /// The verdict in the memory of another one, where it is equal to that. `None` says nothing.
    fn shared(verdict: &Self::Verdict, _other: &Self::Verdict) -> Option<Self::Verdict>
        ensures { IfSome result (λ same. same ≡ verdict.now) }
    {
        None
    }

    ghost parents_apart: { ParentsApart first_item children_of };

    ghost equal_is_same: { (x y : Self.Item) → Self.Item.cmp x y ≡ Equal → x ≡ y };
}
