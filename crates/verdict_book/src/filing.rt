//! Filings of claims.

use crate::claim::{Claim, Kept};
use crate::work::Work;
use dns_data::List;

/// The tickets that a filing issued: this many, from the first one on.
#[derive(Clone, Copy, Debug, PartialEq, Eq)]
pub struct Issued {
    pub first: u32,
    pub count: u32,
}

/// What a refused filing hands back.
#[derive(Drop)]
pub struct Back<W: Work> {
    pub claim: Claim<W::Item>,
    pub verdict: W::Verdict,
    pub children: List<W::Item>,
}

/// Why a filing was refused. All that was handed in comes back.
#[derive(Drop)]
pub enum FileFault<W: Work> {
    /// The book does not keep the ticket as claimed, unfiled and with the claim's item: what it keeps of
    /// it, which is `Claimed` where only the item differs.
    Foreign {
        kept: Kept,
        back: Back<W>,
    },
    /// The issued tickets and the children are together more than the limit.
    Full {
        issued: u32,
        limit: u32,
        back: Back<W>,
    },
    /// Memory ran out. It comes only where no other refusal does.
    NoMemory {
        back: Back<W>,
    },
}
