//! The whole tree of a work, in the caller's thread.

ghost use Rattle.std.specs.Prelude.{◌≡◌, ◌≤◌, ◌∷◌, [], ◌++◌, length, IfOk, IfErr, OnOk, None};
ghost use Rattle.pool_core.specs.declared.history.HistoryEntry.TheVariants.{Claim as ClaimOf, File as FileOf};
ghost use Rattle.pool_core.specs.History.{issued_in};
ghost use Rattle.verdict_book.specs.Books.{unfiled_in};
ghost use Rattle.verdict_book.specs.Items.{ReachesMore, item_of};
ghost use Rattle.verdict_book.specs.Lists.{IsWholeTree, IsPoolFault, IsNewBook};
ghost use Rattle.verdict_book.specs.Refusals.{claim_refusal};
ghost use Rattle.verdict_book.specs.declared.walk.PoolFault.TheVariants.{NoMemory};

use crate::book::Book;
use crate::filed::Filed;
use crate::filing::FileFault;
use crate::work::{JudgeShare, Judged, Work};
use dns_data::{List, NoMemory};
use std::alloc::Global;
use thiserror::Error;

/// Why there is no list.
#[derive(Clone, Copy, Debug, PartialEq, Eq, Error)]
pub enum PoolFault {
    /// More items are reached than this limit.
    #[error("more than {0} items")]
    TooMany(u32),
    /// Memory ran out.
    #[error("no memory")]
    NoMemory,
}

impl From<NoMemory> for PoolFault {
    ghost from_gives = { λ _ fault. fault ≡ NoMemory };

    fn from(_fault: NoMemory) -> PoolFault {
        PoolFault::NoMemory
    }
}

/// The reached items of the work with their verdicts, each once, sorted by item. `TooMany` comes exactly
/// where more than `limit` items are reached. Each item is judged once.
pub fn walk_tree<W: Work>(alloc: Global, work: &W, limit: u32) -> Result<List<Filed<W>>, PoolFault>
    requires { 1 ≤ limit }
    ensures whole { IfOk result (IsWholeTree W.Item.cmp W.first_item W.children_of W.verdict_of) }
    ensures few { OnOk result (ReachesMore W.first_item W.children_of limit → ⊥) }
    ensures fault { IfErr result (IsPoolFault W.first_item W.children_of limit) }
{
    let mut book = Book::new(alloc, work, limit)?;
    file_all(&mut book, work)?;
    Ok(book.into_list(alloc)?)
}

/// Claims the tickets of a new book in number order, judges their items and files them, until nothing is
/// unfiled.
fn file_all<W: Work>(book: &mut Book<W>, work: &W) -> Result<(), PoolFault>
    requires { IsNewBook book.old }
    ensures ok { OnOk result (unfiled_in book.new.history ≡ 0) }
    ensures limit { book.new.limit ≡ book.old.limit }
    ensures fault { IfErr result (IsPoolFault W.first_item W.children_of book.old.limit) }
{
    let mut share = JudgeShare::new();
    for ticket in 0..book.limit() {
        if book.unfiled() == 0 {
            break;
        }
        file_ticket(book, work, ticket, &mut share)?;
    }
    Ok(())
}

/// Claims a ticket for which there is no refusal, judges its item and files it.
fn file_ticket<W: Work>(
    book: &mut Book<W>,
    work: &W,
    ticket: u32,
    share: &mut JudgeShare,
) -> Result<(), PoolFault>
    requires { claim_refusal book.old.history ticket ≡ None }
    ensures ok { OnOk result (book.new.history ≡ book.old.history ++ ClaimOf ticket ∷ FileOf ticket (length (W.children_of (item_of W.first_item W.children_of book.old.history ticket))) ∷ []) }
    ensures few { OnOk result (issued_in book.new.history ≤ book.new.limit) }
    ensures limit { book.new.limit ≡ book.old.limit }
    ensures fault { IfErr result (IsPoolFault W.first_item W.children_of book.old.limit) }
{
    let Ok(claim) = book.claim(work, ticket) else {
        return Err(PoolFault::NoMemory);
    };
    let Judged { verdict, children } = work.judge(&claim.item, share)?;
    match book.file(claim, verdict, children) {
        Ok(_) => Ok(()),
        Err(FileFault::Full { limit, .. }) => Err(PoolFault::TooMany(limit)),
        Err(FileFault::Foreign { .. } | FileFault::NoMemory { .. }) => Err(PoolFault::NoMemory),
    }
}
