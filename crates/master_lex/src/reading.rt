//! The entries of a whole text.

ghost use Rattle.std.specs.Prelude.{◌≡◌, ◌-◌, ◌^◌, ◌<◌, ℕ, List, [], length, true, IfOk};
ghost use Rattle.std.specs.List.{flat_map};
ghost use Rattle.master_lex.specs.Contents.{text_entries, text_fault};
ghost use Rattle.master_lex.specs.Lexer.{IsLexerOf};

use crate::entry::Entry;
use crate::fault::{LexFault, TakeFault};
use crate::lexer::Lexer;
use crate::taken::Taken;
use dns_data::{List, NoMemory};
use std::alloc::Global;

/// What a text holds.
#[derive(Debug, Drop)]
pub struct Reading {
    /// The entries in order, up to the first fault.
    pub entries: List<Entry>,
    /// The first fault, or `None` where the text has none.
    pub fault: Option<LexFault>,
}

impl Reading {
    /// These entries and this fault.
    fn new(entries: List<Entry>, fault: Option<LexFault>) -> Reading
        ensures entries { result.entries ≡ entries }
        ensures fault { result.fault ≡ fault }
    {
        Reading { entries, fault }
    }
}

/// The entries of a text that comes in these pieces, and its first fault.
pub fn read_entries(alloc: Global, pieces: &[&[u8]]) -> Result<Reading, NoMemory>
    requires { length (flat_map (λ piece. piece.now) pieces.now) < 2 ^ 32 - 1 }
    ensures { IfOk result (λ reading. (reading.entries ≡ text_entries (flat_map (λ piece. piece.now) pieces.now))
        × (reading.fault ≡ text_fault (flat_map (λ piece. piece.now) pieces.now))) }
{
    let mut lexer = Lexer::new(alloc);
    for piece in pieces {
        lexer.feed(alloc, piece)?;
    }
    lexer.finish();
    take_all(alloc, &mut lexer)
}

/// Takes all entries of a text that has ended, and its fault.
fn take_all(alloc: Global, lexer: &mut Lexer) -> Result<Reading, NoMemory>
    requires { lexer.old.finished ≡ true }
    ensures { (text : List ℕ) → IsLexerOf lexer.old text []
        → IfOk result (λ reading. (reading.entries ≡ text_entries text) × (reading.fault ≡ text_fault text)) }
{
    let mut entries = List::new(alloc);
    loop {
        match lexer.take(alloc) {
            Ok(Taken::Entry(entry)) => entries.push(entry)?,
            Ok(Taken::More) => return Ok(Reading::new(entries, None)),
            Ok(Taken::End) => return Ok(Reading::new(entries, None)),
            Err(TakeFault::Lex { line, kind }) => {
                return Ok(Reading::new(entries, Some(LexFault { line, kind })));
            }
            Err(TakeFault::NoMemory) => return Err(NoMemory),
        }
    }
}
