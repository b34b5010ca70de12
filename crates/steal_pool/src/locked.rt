//! The book behind the lock, with its accounts.

ghost use Rattle.std.specs.Prelude.{◌≡◌, ◌+◌, ◌<◌, ◌^◌, ℕ, [], length, IfOk, IfErr, IfSome, OnOk, MatchResult, Err, true};
ghost use Rattle.pool_core.specs.declared.event.StopCause.TheVariants.{Full};
ghost use Rattle.verdict_book.specs.Books.{claims_in, filings_in};
ghost use Rattle.verdict_book.specs.Items.{Reached, ReachesMore};
ghost use Rattle.verdict_book.specs.Refusals.{is_full};
ghost use Rattle.verdict_book.specs.declared.claim.ClaimFault.TheVariants.{Stopped};
ghost use Rattle.steal_pool.specs.Ends.{IsRightEnd};

use crate::slot::Ended;
use dns_data::List;
use pool_core::StopCause;
use std::marker::Brand;
use std::sync::ledger::{Ledger, Share};
use std::sync::{Mutex, MutexGuard, Wait, ledger};
use std::thread;
use verdict_book::{Book, Claim, ClaimFault, FileFault, Issued, Work};

/// The ledger of the claim calls. Its meaning is the limit of the book.
pub trait Capped: Ledger {
    ghost limit: { ℕ };
}

impl Capped for Brand {
    ghost limit = { 0 };
}

/// A book with three accounts: of claim calls, of claims that were given, and of filings. The accounts
/// exist in proofs alone.
#[derive(Drop)]
pub struct LockedBook<W: Work, A: Capped, B: Ledger, C: Ledger> {
    book: Book<W>,
    asked: ledger::Book<A>,
    given: ledger::Book<B>,
    filed: ledger::Book<C>,
    ghost limit_is: { book.limit ≡ A.limit },
    ghost given_is: { given.total ≡ claims_in book.history },
    ghost filed_is: { filed.total ≡ filings_in book.history },
}

impl<W: Work, A: Capped, B: Ledger, C: Ledger> LockedBook<W, A, B, C> {
    /// A new book with accounts of nothing.
    pub(crate) fn new(
        book: Book<W>,
        asked: ledger::Book<A>,
        given: ledger::Book<B>,
        filed: ledger::Book<C>,
    ) -> LockedBook<W, A, B, C>
        requires new { (book.history ≡ []) × (book.limit ≡ A.limit) }
        requires accounts { (given.total ≡ 0) × (filed.total ≡ 0) }
    {
        LockedBook {
            book,
            asked,
            given,
            filed,
        }
    }

    /// Claims a ticket, and counts the call and the claim.
    pub(crate) fn claim(
        &mut self,
        work: &W,
        ticket: u32,
        asked: &mut Share<A>,
        given: &mut Share<B>,
    ) -> Result<Claim<W::Item>, ClaimFault>
        requires parts { (0 < asked.old.parts) × (0 < given.old.parts) }
        ensures asked { (asked.new.amount ≡ asked.old.amount + 1) × (asked.new.parts ≡ asked.old.parts) }
        ensures given { (given.new.parts ≡ given.old.parts) × MatchResult result (λ _. given.new.amount ≡ given.old.amount + 1) (λ _. given.new.amount ≡ given.old.amount) }
        ensures few { OnOk result (given.new.amount < 2 ^ 32) }
        ensures reached { IfOk result (λ claim. Reached W.first_item W.children_of claim.item) }
        ensures full { result ≡ Err (Stopped Full) → ReachesMore W.first_item W.children_of A.limit }
    {
        self.asked.add(asked, 1);
        // The limit is read, so that its range is known here.
        let _limit = self.book.limit();
        let claim = self.book.claim(work, ticket)?;
        self.given.add(given, 1);
        self.given.audit(given);
        Ok(claim)
    }

    /// Files a claim, and counts the filing.
    pub(crate) fn file(
        &mut self,
        claim: Claim<W::Item>,
        verdict: W::Verdict,
        children: List<W::Item>,
        filed: &mut Share<C>,
    ) -> Result<Issued, FileFault<W>>
        requires parts { 0 < filed.old.parts }
        requires verdict { verdict ≡ W.verdict_of claim.item }
        requires children { children ≡ W.children_of claim.item }
        ensures filed { (filed.new.parts ≡ filed.old.parts) × MatchResult result (λ _. filed.new.amount ≡ filed.old.amount + 1) (λ _. filed.new.amount ≡ filed.old.amount) }
        ensures issued { IfOk result (λ issued. (issued.count ≡ length children) × (issued.first + issued.count < 2 ^ 32)) }
        ensures full { IfErr result (λ fault. is_full fault ≡ true → ReachesMore W.first_item W.children_of A.limit) }
    {
        // The limit is read, so that its range is known here.
        let _limit = self.book.limit();
        match self.book.file(claim, verdict, children) {
            Ok(issued) => {
                self.filed.add(filed, 1);
                Ok(issued)
            }
            Err(fault) => Err(fault),
        }
    }

    /// Stops the book. The first cause is kept.
    pub(crate) fn stop(&mut self, cause: StopCause)
        requires full { cause ≡ Full → ReachesMore W.first_item W.children_of A.limit }
    {
        self.book.stop(cause)
    }

    /// How a worker ends that has no ticket: `None` where the book has something unfiled and was not
    /// stopped.
    pub(crate) fn end(&self) -> Option<Ended>
        ensures { IfSome result (IsRightEnd W.first_item W.children_of A.limit) }
    {
        if let Some(cause) = self.book.stopped() {
            return Some(Ended::Stopped(cause));
        }
        if self.book.unfiled() > 0 {
            return None;
        }
        Some(Ended::Whole(self.book.issued()))
    }

    /// Changes nothing, and shows that the claims which a share counts are within the limit.
    pub(crate) fn audit(&mut self, given: &mut Share<B>)
        ensures same { (given.new.amount ≡ given.old.amount) × (given.new.parts ≡ given.old.parts) }
        ensures few { given.old.amount < 2 ^ 32 }
    {
        self.given.audit(given);
        // The limit and the issued tickets are read, so that it is known here that the claims are within them.
        let _limit = self.book.limit();
        let _issued = self.book.issued();
    }

    /// The book. With all parts of a share in one hand, its amounts are the numbers of claims and filings
    /// in the history.
    pub(crate) fn into_book(self, mut given: Share<B>, mut filed: Share<C>) -> Book<W>
        requires parts { (given.parts ≡ B.parts) × (filed.parts ≡ C.parts) }
        ensures given { claims_in result.history ≡ given.amount }
        ensures filed { filings_in result.history ≡ filed.amount }
        ensures limit { result.limit ≡ A.limit }
    {
        let LockedBook {
            book,
            asked: _,
            given: mut claims,
            filed: mut filings,
        } = self;
        claims.audit(&mut given);
        filings.audit(&mut filed);
        book
    }
}

/// How often a worker tries a lock that another one has before it waits for it.
const TRIES: u32 = 100;

/// The book, once no other worker has it. What is done with it takes less time than to fall asleep and to be woken, so
/// it is tried some times before the worker waits.
pub(crate) fn locked<'b, W: Work, A: Capped, B: Ledger, C: Ledger, R: Wait>(
    rt: &R,
    book: &'b Mutex<LockedBook<W, A, B, C>>,
) -> MutexGuard<'b, LockedBook<W, A, B, C>> {
    for _ in 0..TRIES {
        if let Some(guard) = book.try_lock() {
            return guard;
        }
        thread::yield_now();
    }
    book.lock(rt)
}
