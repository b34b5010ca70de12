//! A book of verdicts by itself: workers make these calls under a lock.

use super::trees::{Tree, new_tree};
use pool_core::StopCause;
use std::test::Fail;
use verdict_book::{Book, ClaimFault, FileFault, Issued, JudgeShare, Kept, Work};

// Ticket 0 is filed with two children, so all three tickets of the limit are issued; the second would issue two more.
#[test]
fn a_book_refuses_tickets_that_are_kept_otherwise(rt: HostRuntime) -> Result<(), Fail> {
    let work = new_tree::<2, 7>(rt.alloc(), 7);
    let mut book = Book::new(rt.alloc(), &work, 3)?;
    assert!(rt; first_issues_two(&mut book, &work));
    assert!(rt; is_gone(&mut book, &work, 0, Kept::Filed));
    assert!(rt; is_gone(&mut book, &work, 9, Kept::Unknown));
    let mut other = Book::new(rt.alloc(), &work, 3)?;
    assert!(rt; is_foreign(&mut book, &mut other, &work));
    assert!(rt; second_is_full(&mut book, &work));
    assert!(rt; third_is_stopped(&mut book, &work));
    Ok(())
}

/// Whether the filing of ticket 0 issues the tickets 1 and 2.
fn first_issues_two(book: &mut Book<Tree<2, 7>>, work: &Tree<2, 7>) -> bool {
    let Ok(claim) = book.claim(work, 0) else {
        return false;
    };
    let Ok(judged) = work.judge(&claim.item, &mut JudgeShare::new()) else {
        return false;
    };
    match book.file(claim, judged.verdict, judged.children) {
        Ok(issued) => issued == Issued { first: 1, count: 2 },
        Err(_) => false,
    }
}

/// Whether no claim of the ticket is given, of which this is kept.
fn is_gone(book: &mut Book<Tree<2, 7>>, work: &Tree<2, 7>, ticket: u32, kept: Kept) -> bool {
    book.claim(work, ticket).err() == Some(ClaimFault::Gone(kept))
}

/// Whether a claim that another book gave of ticket 0 can't be filed in a book that filed it.
fn is_foreign(
    book: &mut Book<Tree<2, 7>>,
    other: &mut Book<Tree<2, 7>>,
    work: &Tree<2, 7>,
) -> bool {
    let Ok(claim) = other.claim(work, 0) else {
        return false;
    };
    let Ok(judged) = work.judge(&claim.item, &mut JudgeShare::new()) else {
        return false;
    };
    match book.file(claim, judged.verdict, judged.children) {
        Err(FileFault::Foreign { kept, .. }) => kept == Kept::Filed,
        _ => false,
    }
}

/// Whether ticket 1 is claimed once, and its filing is refused, for which the book is stopped.
fn second_is_full(book: &mut Book<Tree<2, 7>>, work: &Tree<2, 7>) -> bool {
    let Ok(claim) = book.claim(work, 1) else {
        return false;
    };
    let is_claimed = is_gone(book, work, 1, Kept::Claimed);
    let Ok(judged) = work.judge(&claim.item, &mut JudgeShare::new()) else {
        return false;
    };
    match book.file(claim, judged.verdict, judged.children) {
        Err(FileFault::Full { issued, limit, .. }) => {
            book.stop(StopCause::Full);
            is_claimed && issued == 3 && limit == 3
        }
        _ => false,
    }
}

/// Whether no claim of ticket 2 is given, since the book is stopped.
fn third_is_stopped(book: &mut Book<Tree<2, 7>>, work: &Tree<2, 7>) -> bool {
    book.claim(work, 2).err() == Some(ClaimFault::Stopped(StopCause::Full))
}
