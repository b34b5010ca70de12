//! What a run of the pool counts, and the fault of one that was stopped.

ghost use Rattle.std.specs.Prelude.{◌≡◌};
ghost use Rattle.steal_pool.specs.Faults.{fault_of};

use pool_core::StopCause;
use verdict_book::PoolFault;

/// What a run counted, of the claims, filings and judging calls of its one book.
#[derive(Clone, Copy, Debug, PartialEq, Eq)]
pub struct PoolCount {
    /// The claims in the book's history.
    pub given: u64,
    /// The filings in the book's history.
    pub filed: u64,
    /// The judging calls of the workers and of the caller.
    pub judged: u64,
    /// The filings that the book refused as foreign.
    pub foreign: u64,
}

impl PoolCount {
    /// Nothing.
    pub fn new() -> PoolCount
        ensures { (result.given ≡ 0) × (result.filed ≡ 0) × (result.judged ≡ 0) × (result.foreign ≡ 0) }
    {
        PoolCount {
            given: 0,
            filed: 0,
            judged: 0,
            foreign: 0,
        }
    }
}

/// The fault of a run under this limit that was stopped for the cause.
pub(crate) fn fault_of(cause: StopCause, limit: u32) -> PoolFault
    ensures { result ≡ fault_of cause limit }
{
    match cause {
        StopCause::Full => PoolFault::TooMany(limit),
        StopCause::NoMemory => PoolFault::NoMemory,
    }
}
