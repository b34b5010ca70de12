//! What the caller does where the workers left some tickets.

ghost use Rattle.std.specs.Prelude.{◌≡◌, ◌+◌, ◌-◌, ◌<◌, ◌≤◌, ◌^◌, ◌∷◌, [], ◌++◌, length, IfErr, OnOk, OnErr, Some, min};
ghost use Rattle.pool_core.specs.declared.history.HistoryEntry.TheVariants.{File as FileOf};
ghost use Rattle.pool_core.specs.History.{issued_in};
ghost use Rattle.verdict_book.specs.Books.{NoneInHand, claims_in, filings_in, unfiled_in};
ghost use Rattle.verdict_book.specs.Items.{Reached};
ghost use Rattle.steal_pool.specs.Ends.{IsRightCause};
ghost use Rattle.steal_pool.specs.Finish.{IsFiledBelow};

use pool_core::StopCause;
use verdict_book::{Book, Claim, ClaimFault, FileFault, JudgeShare, Judged, Work};

/// Claims the tickets from 0 upwards, and judges and files each claim that is given, until no ticket is
/// left. It asks no gate.
pub(crate) fn finish<W: Work>(
    book: &mut Book<W>,
    work: &W,
    share: &mut JudgeShare,
) -> Result<(), StopCause>
    requires begun { IsFiledBelow book.old.history 0 }
    requires limit { book.old.limit < 2 ^ 32 }
    requires share { share.old ≡ 0 }
    ensures ok { OnOk result ((unfiled_in book.new.history ≡ 0) × (filings_in book.new.history ≡ issued_in book.new.history) × (claims_in book.new.history ≡ issued_in book.new.history)) }
    ensures calls { share.new + claims_in book.old.history ≡ claims_in book.new.history }
    ensures few { claims_in book.new.history ≤ book.new.limit }
    ensures limit { book.new.limit ≡ book.old.limit }
    ensures fault { IfErr result (λ cause. IsRightCause W.first_item W.children_of book.old.limit (Some cause)) }
{
    let mut ticket = 0;
    while ticket < book.issued() {
        finish_ticket(book, work, ticket, share)?;
        ticket += 1;
    }
    Ok(())
}

/// Claims a ticket, and judges and files it if the claim is given. A ticket that is gone was filed.
fn finish_ticket<W: Work>(
    book: &mut Book<W>,
    work: &W,
    ticket: u32,
    share: &mut JudgeShare,
) -> Result<(), StopCause>
    requires below { IsFiledBelow book.old.history ticket }
    requires none_in_hand { NoneInHand book.old.history }
    requires low { ticket < issued_in book.old.history }
    requires few { claims_in book.old.history ≤ book.old.limit }
    requires limit { book.old.limit < 2 ^ 32 }
    requires share { share.old ≤ claims_in book.old.history }
    ensures ok { OnOk result (IsFiledBelow book.new.history (ticket + 1)) }
    ensures calls { share.new + claims_in book.old.history ≡ share.old + claims_in book.new.history }
    ensures few { claims_in book.new.history ≤ book.new.limit }
    ensures limit { book.new.limit ≡ book.old.limit }
    ensures fault { IfErr result (λ cause. IsRightCause W.first_item W.children_of book.old.limit (Some cause)) }
{
    match book.claim(work, ticket) {
        Ok(claim) => file_claim(book, work, claim, share),
        Err(ClaimFault::Gone(_)) => Ok(()),
        Err(ClaimFault::Stopped(cause)) => Err(cause),
        Err(ClaimFault::NoMemory) => Err(StopCause::NoMemory),
    }
}

/// Judges the item of a claim and files it. After an error the book is as it was.
fn file_claim<W: Work>(
    book: &mut Book<W>,
    work: &W,
    claim: Claim<W::Item>,
    share: &mut JudgeShare,
) -> Result<(), StopCause>
    requires reached { Reached W.first_item W.children_of claim.item }
    ensures ok { OnOk result (book.new.history ≡ book.old.history ++ FileOf claim.ticket (length (W.children_of claim.item)) ∷ []) }
    ensures err { OnErr result (book.new ≡ book.old) }
    ensures calls { share.new ≡ min (share.old + 1) (2 ^ 64 - 1) }
    ensures limit { book.new.limit ≡ book.old.limit }
    ensures fault { IfErr result (λ cause. IsRightCause W.first_item W.children_of book.old.limit (Some cause)) }
{
    let Ok(judged) = work.judge(&claim.item, share) else {
        return Err(StopCause::NoMemory);
    };
    let Judged { verdict, children } = judged;
    match book.file(claim, verdict, children) {
        Ok(_) => Ok(()),
        Err(FileFault::Full { .. }) => Err(StopCause::Full),
        Err(FileFault::Foreign { .. } | FileFault::NoMemory { .. }) => Err(StopCause::NoMemory),
    }
}
