//! The lexer.

ghost use Rattle.std.specs.Prelude.{◌≡◌, ◌+◌, ◌-◌, ◌^◌, ◌<◌, ◌≤◌, ℕ, List, [], ◌++◌, length, take, true, false, OnOk, OnErr, IfOk, IfSome, IfNone};
ghost use Rattle.master_lex.specs.declared.entry.Entry.{Entry as LexEntry};
ghost use Rattle.master_lex.specs.Lexer.{IsLexerOf, left};
ghost use Rattle.master_lex.specs.Lines.{line_entries};
ghost use Rattle.master_lex.specs.Taking.{IsNextEntry, given_with};

use crate::entry::Entry;
use crate::fault::TakeFault;
use crate::line::PlainLine;
use crate::position::Mode;
use crate::scanner::Scanner;
use crate::taken::Taken;
use crate::text_token::TextToken;
use dns_data::NoMemory;
use std::alloc::Global;
use std::marker::Model;

/// The entries of a master file, from octets that come in pieces.
#[derive(Debug, Drop)]
pub struct Lexer {
    scanner: Scanner,
    fed: u32,
    finished: bool,
}

impl Model for Lexer {
    ghost use Rattle.master_lex.specs.States.{state_of};
    ghost use Rattle.master_lex.specs.Lexer.{Lexing, IsSoundLexer};

    ghost Value = { Lexing };

    ghost view = { λ a. record { state = state_of a.scanner; fed = a.fed; finished = a.finished } };

    ghost invariant = { λ a. IsSoundLexer (state_of a.scanner) a.fed };
}

impl Lexer {
    /// The lexer that was fed nothing. It takes no memory.
    pub fn new(alloc: Global) -> Lexer
        ensures stands { IsLexerOf result [] [] }
        ensures open { result.finished ≡ false }
    {
        Lexer {
            scanner: Scanner::new(alloc),
            fed: 0,
            finished: false,
        }
    }

    /// Takes the next piece of the text. After an error nothing of the piece was taken.
    pub fn feed(&mut self, alloc: Global, piece: &[u8]) -> Result<(), NoMemory>
        requires open { self.old.finished ≡ false }
        requires short { self.old.fed + length piece.now < 2 ^ 32 - 1 }
        ensures stands { (text : List ℕ) (given : List LexEntry) → IsLexerOf self.old text given
            → OnOk result (IsLexerOf self.new (text ++ piece.now) given) }
        ensures fed { OnOk result (self.new.fed ≡ self.old.fed + length piece.now) }
        ensures open { self.new.finished ≡ false }
        ensures err { OnErr result (self.new ≡ self.old) }
    {
        let mark = self.scanner.mark();
        if self.scanner.pass_all(alloc, piece).is_err() {
            self.scanner.undo(mark);
            return Err(NoMemory);
        }
        self.fed += piece.len() as u32;
        Ok(())
    }

    /// Passes over the plain line with which the next octets of the text begin, if no entry is under way and none is to
    /// be taken, and puts its tokens in place of those given; they are those of the next entry, which counts as taken, or
    /// none where the line has no token. `None` where nothing was passed: such a line has no backslash, no parenthesis and
    /// no quotes that it doesn't close, and stands whole among the octets (RFC 1035 section 5.1).
    pub fn pass_line<'a>(
        &mut self,
        octets: &'a [u8],
        tokens: &mut Vec<TextToken<'a>>,
    ) -> Option<PlainLine>
        requires open { self.old.finished ≡ false }
        requires short { self.old.fed + length octets.now < 2 ^ 32 - 1 }
        ensures stands { (text : List ℕ) (given : List LexEntry) → IsLexerOf self.old text given
            → IfSome result (λ line. IsLexerOf self.new (text ++ take line.octets octets.now) (given ++ line_entries line tokens.new.items)) }
        ensures within { IfSome result (λ line. line.octets ≤ length octets.now) }
        ensures some { IfSome result (λ line. 0 < line.octets) }
        ensures fed { IfSome result (λ line. self.new.fed ≡ self.old.fed + line.octets) }
        ensures open { self.new.finished ≡ false }
        ensures none { IfNone result (self.new ≡ self.old) }
    {
        let line = self.scanner.pass_line(octets, tokens)?;
        self.fed += line.octets as u32;
        Some(line)
    }

    /// Says that the text has ended.
    pub fn finish(&mut self)
        requires { self.old.finished ≡ false }
        ensures stands { (text : List ℕ) (given : List LexEntry) → IsLexerOf self.old text given → IsLexerOf self.new text given }
        ensures finished { self.new.finished ≡ true }
    {
        self.finished = true;
    }

    /// Takes the next entry. `Lex` comes where it has a fault, and then again at each call; after
    /// `NoMemory` the call can be tried again.
    pub fn take(&mut self, alloc: Global) -> Result<Taken, TakeFault>
        ensures answer { (text : List ℕ) (given : List LexEntry) → IsLexerOf self.old text given
            → IsNextEntry self.old.finished text given result }
        ensures stands { (text : List ℕ) (given : List LexEntry) → IsLexerOf self.old text given
            → IfOk result (λ taken. IsLexerOf self.new text (given_with given taken)) }
        ensures left { IfOk result (λ taken. left self.old ≡ given_with [] taken ++ left self.new) }
        ensures finished { self.new.finished ≡ self.old.finished }
        ensures fed { self.new.fed ≡ self.old.fed }
        ensures err { OnErr result (self.new ≡ self.old) }
    {
        if let Some(entry) = self.scanner.ready.pop_front() {
            return Ok(Taken::Entry(entry));
        }
        if let Mode::Faulty(fault) = self.scanner.position.mode {
            return Err(fault.into());
        }
        if !self.finished {
            return Ok(Taken::More);
        }
        self.scanner.take_last(alloc)
    }
}
