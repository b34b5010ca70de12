//! The last entry of a text.

ghost use Rattle.std.specs.Prelude.{◌≡◌, OnOk, OnErr, IfOk, true};
ghost use Rattle.master_lex.specs.Lists.{is_empty};
ghost use Rattle.dns_data.specs.Answers.{AnswersOr};
ghost use Rattle.master_lex.specs.declared.fault.TakeFault.TheVariants.{NoMemory as OutOfMemory};
ghost use Rattle.master_lex.specs.States.{state_of, paren_fault, last_fault, whole, last_entry, IsTidy};
ghost use Rattle.master_lex.specs.Taking.{left_answer};
ghost use Rattle.master_lex.specs.Lexer.{LastTaken};

use crate::entry::Entry;
use crate::fault::{LexFault, LexKind, TakeFault};
use crate::position::{Escape, Mode, Position};
use crate::scanner::Scanner;
use crate::taken::Taken;
use dns_data::{List, NoMemory};
use std::alloc::Global;
use std::mem;

impl Position {
    /// The fault in which the text ends where parentheses are open.
    fn open_paren(&self) -> Option<LexFault>
        ensures { result ≡ paren_fault self.now }
    {
        if self.depth == 0 {
            return None;
        }
        Some(LexFault {
            line: self.opened,
            kind: LexKind::OpenParen,
        })
    }

    /// The fault in which the text ends, if it ends here.
    fn fault_at_end(&self) -> Option<LexFault>
        ensures { result ≡ last_fault self.now }
    {
        let kind = match self.mode {
            Mode::Faulty(fault) => return Some(fault),
            Mode::InToken {
                quoted: true,
                escape: Escape::Outside,
            } => LexKind::OpenQuote,
            Mode::InToken {
                quoted: false,
                escape: Escape::Outside,
            } => return self.open_paren(),
            Mode::InToken { .. } => LexKind::BadEscape,
            Mode::Start | Mode::Between | Mode::Comment => return self.open_paren(),
        };
        Some(LexFault {
            line: self.line,
            kind,
        })
    }
}

impl Scanner {
    /// Ends the token under way, if there is one. After an error nothing has changed.
    fn end_last_token(&mut self) -> Result<(), NoMemory>
        ensures ok { OnOk result (state_of self.new ≡ whole (state_of self.old)) }
        ensures err { OnErr result (state_of self.new ≡ state_of self.old) }
    {
        match self.position.mode {
            Mode::InToken { quoted, .. } => self.end_token(quoted),
            _ => Ok(()),
        }
    }

    /// Whether the entry under way has no whole token.
    fn has_no_token(&self) -> bool
        ensures { result ≡ is_empty self.now.tokens.items }
    {
        self.tokens.is_empty()
    }

    /// Takes the entry that ends with the text, or says which fault the text ends in. After an error
    /// nothing has changed.
    pub(crate) fn take_last(&mut self, alloc: Global) -> Result<Taken, TakeFault>
        requires { IsTidy (state_of self.old) }
        ensures answer { AnswersOr OutOfMemory result (left_answer true (last_entry (state_of self.old)) (last_fault self.old.position)) }
        ensures taken { IfOk result (LastTaken (state_of self.old) (state_of self.new)) }
        ensures err { OnErr result (state_of self.new ≡ state_of self.old) }
    {
        if let Some(fault) = self.position.fault_at_end() {
            return Err(fault.into());
        }
        self.end_last_token()?;
        if self.has_no_token() {
            return Ok(Taken::End);
        }
        let tokens = List::from_vec(mem::replace(&mut self.tokens, Vec::new(alloc)));
        let Position {
            line,
            blank_start,
            first,
            ..
        } = self.position;
        self.position = Position::start(line);
        Ok(Taken::Entry(Entry {
            line: first,
            blank_start,
            tokens,
        }))
    }
}
