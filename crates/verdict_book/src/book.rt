//! The book.

ghost use Rattle.std.specs.Prelude.{◌≡◌, ◌∷◌, [], ◌++◌, ◌+◌, ◌≤◌, length, nat_le, true, IfOk, IfErr, OnOk, OnErr, Some, None, Err};
ghost use Rattle.std.specs.Ordering.{is_eq};
ghost use Rattle.pool_core.specs.declared.event.StopCause.TheVariants.{Full};
ghost use Rattle.pool_core.specs.declared.history.HistoryEntry.TheVariants.{Claim as ClaimOf, File as FileOf};
ghost use Rattle.pool_core.specs.History.{issued_in, first_stop};
ghost use Rattle.pool_core.specs.Refusals.{RefusesOr};
ghost use Rattle.verdict_book.specs.Items.{Reached, AreReachedItems, ReachesExactly, ReachesMore, item_of, items_of};
ghost use Rattle.verdict_book.specs.Books.{claims_in, filings_in, unfiled_in, kept_in, IsBookOf, EachOnce, CountsTickets, history_stopped};
ghost use Rattle.verdict_book.specs.Lists.{IsWholeTree};
ghost use Rattle.verdict_book.specs.declared.claim.ClaimFault.TheVariants.{Stopped};
ghost use Rattle.verdict_book.specs.Refusals.{claim_refusal, file_refusal, keeps_claim, handed_back, is_full};

use crate::claim::{Claim, ClaimFault, Kept, is_claimed};
use crate::filed::{Filed, list_rows};
use crate::filing::{Back, FileFault, Issued};
use crate::order::sort_by_places;
use crate::row::{Row, TicketState, file_row, kept_at};
use crate::sharing::{COMPARED, shared};
use crate::work::Work;
use dns_data::{List, NoMemory};
use pool_core::{HistoryEntry, StopCause};
use std::alloc::Global;
use std::marker::Model;

/// A book over a work. Contracts see its limit and its history, which says all else.
///
/// A call looks at the row of one ticket, and a filing costs the moving of the children. At the end the
/// history is let go of, and the list is made from the last row on, while the room of the rows is given back:
/// both together take hardly more than the rows did. Then the list is put in order with 8 octets more an item:
/// the places of the items are sorted, and the items go there by fewer exchanges than there are items. Long
/// runs of rows that are in order already, as the levels of a tree are where children come in order and the
/// oldest ticket is always claimed first, are found by a comparison an item and merged by about as many more
/// as the binary logarithm of the number of runs; where there are only short ones, an item takes about the
/// binary logarithm of the number of items.
///
/// A verdict that may be shared is compared with the last few such verdicts, and is kept in the memory of an equal one.
#[derive(Drop)]
pub struct Book<W: Work> {
    limit: u32,
    rows: Vec<Row<W::Item, W::Verdict>>,
    history: Vec<HistoryEntry>,
    stopped: Option<StopCause>,
    filed: u32,
    last: [u32; COMPARED],
}

impl<W: Work> Model for Book<W> {
    ghost use Rattle.std.specs.Prelude.{vec_capacity};
    ghost use Rattle.verdict_book.specs.Books.{Pages};
    ghost use Rattle.verdict_book.specs.Keeping.{IsBookAfter};

    ghost Value = { Pages };

    ghost view = { λ book. record { limit = book.limit; history = book.history.items } };

    ghost invariant = { λ book. IsBookAfter W.first_item W.children_of W.verdict_of (record { limit = book.limit; history = book.history.items }) book.rows.items book.stopped book.filed (vec_capacity book.history) };
}

impl<W: Work> Book<W> {
    /// A book in which ticket 0 is issued, for the first item. At most `limit` tickets will be issued.
    pub fn new(alloc: Global, work: &W, limit: u32) -> Result<Book<W>, NoMemory>
        requires { 1 ≤ limit }
        ensures ok { IfOk result (λ book. (book.limit ≡ limit) × (book.history ≡ [])) }
    {
        let mut rows = Vec::new(alloc);
        let mut history = Vec::new(alloc);
        let item = work.first()?;
        rows.push(Row {
            item,
            state: TicketState::Issued,
        })?;
        history.reserve(1)?;
        Ok(Book {
            limit,
            rows,
            history,
            stopped: None,
            filed: 0,
            last: [0; COMPARED],
        })
    }

    /// Claims a ticket that is issued and unclaimed: with a copy of its item, which the book keeps. After
    /// an error the book is as it was.
    pub fn claim(&mut self, work: &W, ticket: u32) -> Result<Claim<W::Item>, ClaimFault>
        ensures answers { RefusesOr ClaimFault.NoMemory result (claim_refusal self.old.history ticket) }
        ensures claim { IfOk result (λ claim. (claim.ticket ≡ ticket) × (claim.item ≡ item_of W.first_item W.children_of self.old.history ticket)) }
        ensures reached { IfOk result (λ claim. Reached W.first_item W.children_of claim.item) }
        ensures ok { OnOk result (self.new.history ≡ self.old.history ++ ClaimOf ticket ∷ []) }
        ensures few { OnOk result (claims_in self.new.history ≤ self.new.limit) }
        ensures limit { self.new.limit ≡ self.old.limit }
        ensures err { OnErr result (self.new ≡ self.old) }
        ensures full { result ≡ Err (Stopped Full) → ReachesMore W.first_item W.children_of self.old.limit }
    {
        match self.claim_refusal(ticket) {
            Some(fault) => Err(fault),
            None => Ok(self.give(work, ticket)?),
        }
    }

    /// Why no claim of the ticket is given, where memory is not the cause.
    fn claim_refusal(&self, ticket: u32) -> Option<ClaimFault>
        ensures said { result ≡ claim_refusal self.now.history ticket }
        ensures full { result ≡ Some (Stopped Full) → ReachesMore W.first_item W.children_of self.now.limit }
    {
        if let Some(cause) = self.stopped() {
            return Some(ClaimFault::Stopped(cause));
        }
        match self.kept(ticket) {
            Kept::Issued => None,
            kept => Some(ClaimFault::Gone(kept)),
        }
    }

    /// What is kept of a ticket.
    fn kept(&self, ticket: u32) -> Kept
        ensures { result ≡ kept_in self.now.history ticket }
    {
        kept_at(self.rows.as_slice(), ticket)
    }

    /// The claim of a ticket for which there is no refusal. After an error the book is as it was.
    fn give(&mut self, work: &W, ticket: u32) -> Result<Claim<W::Item>, NoMemory>
        requires { claim_refusal self.old.history ticket ≡ None }
        ensures claim { IfOk result (λ claim. (claim.ticket ≡ ticket) × (claim.item ≡ item_of W.first_item W.children_of self.old.history ticket)) }
        ensures reached { IfOk result (λ claim. Reached W.first_item W.children_of claim.item) }
        ensures ok { OnOk result (self.new.history ≡ self.old.history ++ ClaimOf ticket ∷ []) }
        ensures few { OnOk result (claims_in self.new.history ≤ self.new.limit) }
        ensures limit { self.new.limit ≡ self.old.limit }
        ensures err { OnErr result (self.new ≡ self.old) }
    {
        let place = ticket as usize;
        let item = work.copy_item(&self.rows[place].item)?;
        self.history.reserve(2)?;
        self.rows[place].state = TicketState::Claimed;
        self.history.push_reserved(HistoryEntry::Claim { ticket });
        Ok(Claim { ticket, item })
    }

    /// Files a claim with the verdict of its item, and issues tickets for the item's children: which they
    /// are. A stopped book files too. After an error the book is as it was, and all comes back.
    pub fn file(
        &mut self,
        claim: Claim<W::Item>,
        verdict: W::Verdict,
        children: List<W::Item>,
    ) -> Result<Issued, FileFault<W>>
        requires verdict { verdict ≡ W.verdict_of claim.item }
        requires children { children ≡ W.children_of claim.item }
        ensures answers { RefusesOr (FileFault.NoMemory (handed_back claim verdict children)) result (file_refusal W.Item.cmp W.first_item W.children_of self.old (handed_back claim verdict children)) }
        ensures issued { IfOk result (λ issued. (issued.first ≡ issued_in self.old.history) × (issued.count ≡ length children)) }
        ensures ok { OnOk result (self.new.history ≡ self.old.history ++ FileOf claim.ticket (length children) ∷ []) }
        ensures limit { self.new.limit ≡ self.old.limit }
        ensures err { OnErr result (self.new ≡ self.old) }
        ensures full { IfErr result (λ fault. is_full fault ≡ true → ReachesMore W.first_item W.children_of self.old.limit) }
    {
        let back = Back {
            claim,
            verdict,
            children,
        };
        if !self.keeps_claim(&back.claim) {
            let kept = self.kept(back.claim.ticket);
            return Err(FileFault::Foreign { kept, back });
        }
        if !self.has_room(back.children.items().len()) {
            let issued = self.issued();
            let limit = self.limit;
            return Err(FileFault::Full {
                issued,
                limit,
                back,
            });
        }
        self.accept(back)
    }

    /// Whether the book keeps the claim's ticket as claimed, unfiled and with the claim's item.
    fn keeps_claim(&self, claim: &Claim<W::Item>) -> bool
        ensures { result ≡ keeps_claim W.Item.cmp W.first_item W.children_of self.now.history claim.now }
    {
        if is_claimed(self.kept(claim.ticket)) {
            are_same(&self.rows[claim.ticket as usize].item, &claim.item)
        } else {
            false
        }
    }

    /// Whether this many more tickets are within the limit.
    fn has_room(&self, count: usize) -> bool
        ensures { result ≡ nat_le (issued_in self.now.history + count) self.now.limit }
    {
        count <= (self.limit - self.issued()) as usize
    }

    /// A filing for which there is no refusal. After an error the book is as it was.
    fn accept(&mut self, back: Back<W>) -> Result<Issued, FileFault<W>>
        requires kept { keeps_claim W.Item.cmp W.first_item W.children_of self.old.history back.claim ≡ true }
        requires room { issued_in self.old.history + length back.children ≤ self.old.limit }
        requires verdict { back.verdict ≡ W.verdict_of back.claim.item }
        requires children { back.children ≡ W.children_of back.claim.item }
        ensures issued { IfOk result (λ issued. (issued.first ≡ issued_in self.old.history) × (issued.count ≡ length back.children)) }
        ensures ok { OnOk result (self.new.history ≡ self.old.history ++ FileOf back.claim.ticket (length back.children) ∷ []) }
        ensures limit { self.new.limit ≡ self.old.limit }
        ensures err { IfErr result (λ fault. (fault ≡ FileFault.NoMemory back) × (self.new ≡ self.old)) }
    {
        let count = back.children.items().len();
        if self.rows.reserve(count).is_err() || self.history.reserve(2).is_err() {
            return Err(FileFault::NoMemory { back });
        }
        let ticket = back.claim.ticket;
        let issued = Issued {
            first: self.rows.len() as u32,
            count: count as u32,
        };
        let verdict = shared::<W>(self.rows.as_slice(), &mut self.last, ticket, back.verdict);
        file_row(&mut self.rows, ticket as usize, verdict, back.children);
        self.history.push_reserved(HistoryEntry::File {
            ticket,
            children: issued.count,
        });
        self.filed += 1;
        Ok(issued)
    }

    /// Stops the book, which gives no claim from then on and files as before. The first cause is kept. It
    /// takes no memory.
    pub fn stop(&mut self, cause: StopCause)
        requires full { cause ≡ Full → ReachesMore W.first_item W.children_of self.old.limit }
        ensures history { self.new.history ≡ history_stopped self.old.history cause }
        ensures limit { self.new.limit ≡ self.old.limit }
    {
        if self.stopped.is_none() {
            self.stopped = Some(cause);
            self.history.push_reserved(HistoryEntry::Stop { cause });
        }
    }

    /// The cause for which the book was stopped, or `None` where it was not. It takes no memory.
    pub fn stopped(&self) -> Option<StopCause>
        ensures cause { result ≡ first_stop self.now.history }
        ensures full { result ≡ Some Full → ReachesMore W.first_item W.children_of self.now.limit }
    {
        self.stopped
    }

    /// How many tickets are issued at most.
    pub fn limit(&self) -> u32
        ensures { result ≡ self.now.limit }
    {
        self.limit
    }

    /// How many issued tickets are not filed. It takes no memory.
    pub fn unfiled(&self) -> u32
        ensures { result ≡ unfiled_in self.now.history }
    {
        self.issued() - self.filed
    }

    /// How many tickets were issued. Where nothing is unfiled, exactly that many items of the work are
    /// reached. It takes no memory.
    pub fn issued(&self) -> u32
        ensures count { result ≡ issued_in self.now.history }
        ensures book { IsBookOf W.first_item W.children_of self.now }
        ensures counts { CountsTickets self.now.history }
        ensures few { result ≤ self.now.limit }
        ensures reached { unfiled_in self.now.history ≡ 0 → ReachesExactly W.first_item W.children_of result }
    {
        // The limit is read, so that it is known here that the tickets up to it have numbers of this type.
        let _limit = self.limit;
        self.rows.len() as u32
    }

    /// How many claims were given. It goes over the history.
    pub fn claims(&self) -> usize
        ensures { result ≡ claims_in self.now.history }
    {
        self.history
            .iter()
            .filter(|entry| matches!(entry, HistoryEntry::Claim { .. }))
            .count()
    }

    /// How many tickets were filed. It takes no memory.
    pub fn filings(&self) -> u32
        ensures { result ≡ filings_in self.now.history }
    {
        self.filed
    }

    /// The reached items of the work with their verdicts, each once, sorted by item.
    pub fn into_list(self, alloc: Global) -> Result<List<Filed<W>>, NoMemory>
        requires { unfiled_in self.history ≡ 0 }
        ensures whole { IfOk result (IsWholeTree W.Item.cmp W.first_item W.children_of W.verdict_of) }
        ensures count { IfOk result (λ list. length list ≡ issued_in self.history) }
        ensures reached { AreReachedItems W.first_item W.children_of (items_of W.first_item W.children_of self.history) }
        ensures once { EachOnce self.history }
        ensures few { OnOk result (issued_in self.history ≤ self.limit) }
    {
        // The limit is read, so that it is known here that there are fewer rows than numbers of its type.
        let _limit = self.limit();
        // The history's room is given back before the list takes room.
        drop(self.history);
        let mut list = list_rows(alloc, self.rows)?;
        sort_by_places(alloc, &mut list)?;
        Ok(List::from_vec(list))
    }
}

/// Whether the items are the same. Items of a work come here as items of any ordered type, since the law that tells this of
/// their order is known of a type parameter alone.
fn are_same<T: Ord>(one: &T, other: &T) -> bool
    ensures { result ≡ is_eq (T.cmp one.now other.now) }
{
    *one == *other
}
