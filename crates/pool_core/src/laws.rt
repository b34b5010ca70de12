//! The law of the pool, over every list of events.

ghost use Rattle.pool_core.specs.Law.{AfterEveryRun, EachHasOneSpot, WaitsWhereItStands, StandsOnceAtMost, TakesInOrder, HasBalancedDeques, ClaimsOnce, FilesOnce, FilesAfterClaim, HasLegalShadow, ReplaysToItself, IsRunOfAccepted};

/// The pool law: what holds after every list of events, of which refused ones change nothing, for
/// every number of workers and every limit.
pub fn pool_law()
    // Each issued ticket has one spot.
    ensures one_spot { AfterEveryRun EachHasOneSpot }

    // It waits in a deque exactly where it stands once in it, and it stands in none twice.
    ensures waits { AfterEveryRun WaitsWhereItStands }
    ensures no_twice { AfterEveryRun StandsOnceAtMost }

    // What was taken from a deque is the beginning of what was pushed on it; with what is held it balances that.
    ensures in_order { AfterEveryRun TakesInOrder }
    ensures balance { AfterEveryRun HasBalancedDeques }

    // Each ticket is claimed at most once, and filed at most once, after its claim.
    ensures claims { AfterEveryRun ClaimsOnce }
    ensures filings { AfterEveryRun FilesOnce }
    ensures after_claim { AfterEveryRun FilesAfterClaim }

    // What was claimed, filed and stopped is a legal history of the verdict book, which replays to the same tickets.
    ensures legal { AfterEveryRun HasLegalShadow }
    ensures replay { AfterEveryRun ReplaysToItself }

    // The accepted events alone lead to the same pool.
    ensures accepted { AfterEveryRun IsRunOfAccepted }
{}
