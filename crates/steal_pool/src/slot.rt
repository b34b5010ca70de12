//! What a worker has.

use crate::locked::Capped;
use crate::row::{OtherRow, OwnRow};
use pool_core::StopCause;
use std::sync::ledger::{Ledger, Share};
use verdict_book::JudgeShare;

/// How a worker ended.
#[derive(Clone, Copy, Debug, PartialEq, Eq)]
pub enum Ended {
    /// Nothing was unfiled, and this many tickets had been issued.
    Whole(u32),
    /// The book was stopped, for this cause.
    Stopped(StopCause),
}

/// What a worker has: its own deque and its seats at those of the others, its counts, and its shares of
/// the accounts of the book.
#[derive(Drop)]
pub struct Slot<A: Capped, B: Ledger, C: Ledger> {
    pub own: OwnRow,
    pub others: Vec<OtherRow>,
    /// Its judging calls.
    pub share: JudgeShare,
    /// `None` until the worker has returned.
    pub ended: Option<Ended>,
    /// How many of its filings the book refused as foreign.
    pub foreign: u64,
    /// How many pushes its own deque refused.
    pub refused: u64,
    /// Its claim calls.
    pub asked: Share<A>,
    /// The claims that it was given.
    pub given: Share<B>,
    /// Its filings.
    pub filed: Share<C>,
}
