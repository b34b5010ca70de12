//! Passing over a text octet by octet.

ghost use Rattle.std.specs.Prelude.{◌≡◌, ◌+◌, ◌-◌, ◌^◌, ◌<◌, ◌≤◌, if◌then◌else◌, OnOk, OnErr, length};
ghost use Rattle.master_lex.specs.declared.fault.LexKind.TheVariants.{BadEscape};
ghost use Rattle.master_lex.specs.declared.position.Mode.TheVariants.{InToken};
ghost use Rattle.master_lex.specs.Octets.{kind};
ghost use Rattle.master_lex.specs.States.{state_of, empty, passed, between_by, in_word_by, in_quotes_by, behind_backslash, behind_digits, in_token, kept, pushed, failed, with_mode, escape_begun, token_ended, line_ended, in_comment_by, entry_ended, opened, closed, run, IsHalfway, IsTidy};
ghost use Rattle.master_lex.specs.Undo.{Grew};

use crate::entry::{Entry, Token};
use crate::fault::{LexFault, LexKind};
use crate::octet::{OctetKind, is_code, is_space_octet, kind_of};
use crate::position::{Escape, Mode, Position};
use dns_data::{List, NoMemory, Octets};
use std::alloc::Global;
use std::collections::VecDeque;
use std::mem;

/// The most octets that a token has as written.
pub(crate) const MOST: usize = 131_072;

/// The whole entries that weren't taken, and the entry under way.
#[derive(Debug, Drop)]
pub(crate) struct Scanner {
    /// Whole entries.
    pub ready: VecDeque<Entry>,
    /// The whole tokens of the entry under way.
    pub tokens: Vec<Token>,
    /// The octets of the token under way, without those of an escape that isn't whole.
    pub raw: Octets,
    /// How far the entry under way has come.
    pub position: Position,
}

impl Scanner {
    /// Nothing of a text. It takes no memory.
    pub(crate) fn new(alloc: Global) -> Scanner
        ensures { state_of result ≡ empty }
    {
        Scanner {
            ready: VecDeque::new(alloc),
            tokens: Vec::new(alloc),
            raw: Octets::new(),
            position: Position::start(1),
        }
    }

    /// Notes a fault in the line under way.
    fn fail(&mut self, kind: LexKind)
        ensures { state_of self.new ≡ failed (state_of self.old) kind }
    {
        self.position.mode = Mode::Faulty(LexFault {
            line: self.position.line,
            kind,
        });
    }

    /// Puts octets into the token under way, however long it is. After an error nothing has
    /// changed.
    fn push(&mut self, alloc: Global, octets: &[u8], quoted: bool) -> Result<(), NoMemory>
        ensures ok { OnOk result (state_of self.new ≡ pushed (state_of self.old) octets.now quoted) }
        ensures err { OnErr result (state_of self.new ≡ state_of self.old) }
    {
        self.raw.extend_from_slice(alloc, octets)?;
        self.position.mode = Mode::InToken {
            quoted,
            escape: Escape::Outside,
        };
        Ok(())
    }

    /// Puts octets into the token under way, which is at most so long. After an error nothing has
    /// changed.
    fn keep(&mut self, alloc: Global, octets: &[u8], quoted: bool) -> Result<(), NoMemory>
        ensures ok { OnOk result (state_of self.new ≡ kept (state_of self.old) octets.now quoted) }
        ensures err { OnErr result (state_of self.new ≡ state_of self.old) }
    {
        if octets.len() <= MOST.saturating_sub(self.raw.len()) {
            self.push(alloc, octets, quoted)
        } else {
            self.fail(LexKind::TokenTooLong);
            Ok(())
        }
    }

    /// Goes on with an escape, if it can be one.
    fn go_on(&mut self, can_be: bool, quoted: bool, escape: Escape)
        ensures { state_of self.new ≡ (if can_be then with_mode (state_of self.old) (InToken quoted escape) else failed (state_of self.old) BadEscape) }
    {
        if can_be {
            self.position.mode = Mode::InToken { quoted, escape };
        } else {
            self.fail(LexKind::BadEscape);
        }
    }

    /// Passes over a `\`, which has to be within the length of a token.
    fn begin_escape(&mut self, quoted: bool)
        ensures { state_of self.new ≡ escape_begun (state_of self.old) quoted }
    {
        if self.raw.len() < MOST {
            self.position.mode = Mode::InToken {
                quoted,
                escape: Escape::Begun,
            };
        } else {
            self.fail(LexKind::TokenTooLong);
        }
    }

    /// Ends the token under way. After an error nothing has changed.
    pub(crate) fn end_token(&mut self, quoted: bool) -> Result<(), NoMemory>
        ensures ok { OnOk result (state_of self.new ≡ token_ended (state_of self.old) quoted) }
        ensures err { OnErr result (state_of self.new ≡ state_of self.old) }
    {
        let is_first = self.tokens.is_empty();
        let raw = mem::replace(&mut self.raw, Octets::new());
        match self.tokens.push(Token { raw, quoted }) {
            Ok(()) => {
                if is_first {
                    self.position.first = self.position.line;
                }
                self.position.mode = Mode::Between;
                Ok(())
            }
            Err(failed) => {
                self.raw = failed.value.raw;
                Err(NoMemory)
            }
        }
    }

    /// Ends the entry under way, which is none without a token. After an error nothing has
    /// changed.
    pub(crate) fn end_entry(&mut self, alloc: Global) -> Result<(), NoMemory>
        requires { self.old.position.line < 2 ^ 32 - 1 }
        ensures ok { OnOk result (state_of self.new ≡ entry_ended (state_of self.old)) }
        ensures err { OnErr result (state_of self.new ≡ state_of self.old) }
    {
        if !self.tokens.is_empty() {
            let tokens = List::from_vec(mem::replace(&mut self.tokens, Vec::new(alloc)));
            let entry = Entry {
                line: self.position.first,
                blank_start: self.position.blank_start,
                tokens,
            };
            if let Err(failed) = self.ready.push_back(entry) {
                self.tokens = failed.value.tokens.into_vec();
                return Err(NoMemory);
            }
        }
        self.position = Position::start(self.position.line + 1);
        Ok(())
    }

    /// Passes over a line feed outside tokens. After an error nothing has changed.
    fn end_line(&mut self, alloc: Global) -> Result<(), NoMemory>
        requires { self.old.position.line < 2 ^ 32 - 1 }
        ensures ok { OnOk result (state_of self.new ≡ line_ended (state_of self.old)) }
        ensures err { OnErr result (state_of self.new ≡ state_of self.old) }
    {
        if self.position.depth > 0 {
            self.position.line += 1;
            self.position.mode = Mode::Between;
            return Ok(());
        }
        self.end_entry(alloc)
    }

    /// Passes over an opening parenthesis.
    fn open(&mut self)
        requires { self.old.position.depth < 2 ^ 32 - 1 }
        ensures { state_of self.new ≡ opened (state_of self.old) }
    {
        if self.position.depth == 0 {
            self.position.opened = self.position.line;
        }
        self.position.depth += 1;
        self.position.mode = Mode::Between;
    }

    /// Passes over a closing parenthesis.
    fn close(&mut self)
        ensures { state_of self.new ≡ closed (state_of self.old) }
    {
        if self.position.depth == 0 {
            self.fail(LexKind::StrayClose);
        } else {
            self.position.depth -= 1;
            self.position.mode = Mode::Between;
        }
    }

    /// Passes over an octet outside comments and tokens. After an error nothing has changed.
    #[inline]
    fn between_tokens(&mut self, alloc: Global, octet: u8) -> Result<(), NoMemory>
        requires line { self.old.position.line < 2 ^ 32 - 1 }
        requires depth { self.old.position.depth < 2 ^ 32 - 1 }
        ensures ok { OnOk result (state_of self.new ≡ between_by (kind octet) (state_of self.old) octet) }
        ensures err { OnErr result (state_of self.new ≡ state_of self.old) }
    {
        match kind_of(octet) {
            OctetKind::Plain => return self.keep(alloc, &[octet], false),
            OctetKind::LineFeed => return self.end_line(alloc),
            OctetKind::Backslash => self.begin_escape(false),
            OctetKind::Blank => self.position.mode = Mode::Between,
            OctetKind::Semicolon => self.position.mode = Mode::Comment,
            OctetKind::Open => self.open(),
            OctetKind::Close => self.close(),
            OctetKind::Quote => {
                self.position.mode = Mode::InToken {
                    quoted: true,
                    escape: Escape::Outside,
                };
            }
        }
        Ok(())
    }

    /// Passes over an octet in a token without quotes. After an error the octet wasn't passed.
    fn in_word(&mut self, alloc: Global, octet: u8) -> Result<(), NoMemory>
        requires line { self.old.position.line < 2 ^ 32 - 1 }
        requires depth { self.old.position.depth < 2 ^ 32 - 1 }
        ensures ok { OnOk result (state_of self.new ≡ in_word_by (kind octet) (state_of self.old) octet) }
        ensures err { OnErr result (IsHalfway (state_of self.old) (state_of self.new)) }
    {
        match kind_of(octet) {
            OctetKind::Plain => self.keep(alloc, &[octet], false),
            OctetKind::Backslash => {
                self.begin_escape(false);
                Ok(())
            }
            _ => {
                self.end_token(false)?;
                self.between_tokens(alloc, octet)
            }
        }
    }

    /// Passes over an octet in a token in quotes. After an error nothing has changed.
    fn in_quotes(&mut self, alloc: Global, octet: u8) -> Result<(), NoMemory>
        ensures ok { OnOk result (state_of self.new ≡ in_quotes_by (kind octet) (state_of self.old) octet) }
        ensures err { OnErr result (state_of self.new ≡ state_of self.old) }
    {
        match kind_of(octet) {
            OctetKind::Quote => self.end_token(true),
            OctetKind::LineFeed => {
                self.fail(LexKind::OpenQuote);
                Ok(())
            }
            OctetKind::Backslash => {
                self.begin_escape(true);
                Ok(())
            }
            _ => self.keep(alloc, &[octet], true),
        }
    }

    /// Passes over the octet behind a `\`. After an error nothing has changed.
    fn behind_backslash(&mut self, alloc: Global, octet: u8, quoted: bool) -> Result<(), NoMemory>
        ensures ok { OnOk result (state_of self.new ≡ behind_backslash (state_of self.old) octet quoted) }
        ensures err { OnErr result (state_of self.new ≡ state_of self.old) }
    {
        if octet.is_ascii_digit() {
            self.go_on(is_code(octet, b'0', b'0'), quoted, Escape::One(octet));
            return Ok(());
        }
        if octet == b'\n' {
            self.fail(LexKind::BadEscape);
            return Ok(());
        }
        self.keep(alloc, &[b'\\', octet], quoted)
    }

    /// Passes over the third of three digits. After an error nothing has changed.
    fn behind_digits(
        &mut self,
        alloc: Global,
        first: u8,
        second: u8,
        octet: u8,
        quoted: bool,
    ) -> Result<(), NoMemory>
        ensures ok { OnOk result (state_of self.new ≡ behind_digits first second (state_of self.old) octet quoted) }
        ensures err { OnErr result (state_of self.new ≡ state_of self.old) }
    {
        if is_code(first, second, octet) {
            return self.keep(alloc, &[b'\\', first, second, octet], quoted);
        }
        self.fail(LexKind::BadEscape);
        Ok(())
    }

    /// Passes over an octet in a token. After an error it wasn't passed.
    fn in_token(
        &mut self,
        alloc: Global,
        octet: u8,
        quoted: bool,
        escape: Escape,
    ) -> Result<(), NoMemory>
        requires line { self.old.position.line < 2 ^ 32 - 1 }
        requires depth { self.old.position.depth < 2 ^ 32 - 1 }
        ensures ok { OnOk result (state_of self.new ≡ in_token quoted escape (state_of self.old) octet) }
        ensures err { OnErr result (IsHalfway (state_of self.old) (state_of self.new)) }
    {
        match escape {
            Escape::Outside if quoted => self.in_quotes(alloc, octet),
            Escape::Outside => self.in_word(alloc, octet),
            Escape::Begun => self.behind_backslash(alloc, octet, quoted),
            Escape::One(first) => {
                self.go_on(
                    is_code(first, octet, b'0'),
                    quoted,
                    Escape::Two(first, octet),
                );
                Ok(())
            }
            Escape::Two(first, second) => self.behind_digits(alloc, first, second, octet, quoted),
        }
    }

    /// Passes over an octet in a comment. After an error nothing has changed.
    fn in_comment(&mut self, alloc: Global, octet: u8) -> Result<(), NoMemory>
        requires { self.old.position.line < 2 ^ 32 - 1 }
        ensures ok { OnOk result (state_of self.new ≡ in_comment_by (kind octet) (state_of self.old)) }
        ensures err { OnErr result (state_of self.new ≡ state_of self.old) }
    {
        match kind_of(octet) {
            OctetKind::LineFeed => self.end_line(alloc),
            _ => Ok(()),
        }
    }

    /// Passes over one octet. After an error it wasn't passed.
    #[tactic(auto, unfolding(crate::specs::States::passed))]
    pub(crate) fn pass(&mut self, alloc: Global, octet: u8) -> Result<(), NoMemory>
        requires line { self.old.position.line < 2 ^ 32 - 1 }
        requires depth { self.old.position.depth < 2 ^ 32 - 1 }
        ensures ok { OnOk result (state_of self.new ≡ passed (state_of self.old) octet) }
        ensures err { OnErr result (IsHalfway (state_of self.old) (state_of self.new)) }
    {
        match self.position.mode {
            Mode::Start => {
                self.position.blank_start = is_space_octet(octet);
                self.between_tokens(alloc, octet)
            }
            Mode::Between => self.between_tokens(alloc, octet),
            Mode::Comment => self.in_comment(alloc, octet),
            Mode::InToken { quoted, escape } => self.in_token(alloc, octet, quoted, escape),
            Mode::Faulty(_) => Ok(()),
        }
    }

    /// Passes over octets. After an error what was held before can be brought back.
    pub(crate) fn pass_all(&mut self, alloc: Global, octets: &[u8]) -> Result<(), NoMemory>
        requires tidy { IsTidy (state_of self.old) }
        requires line { self.old.position.line + length octets.now < 2 ^ 32 }
        requires depth { self.old.position.depth + length octets.now < 2 ^ 32 }
        ensures ok { OnOk result (state_of self.new ≡ run (state_of self.old) octets.now) }
        ensures tidy { OnOk result (IsTidy (state_of self.new)) }
        ensures line { OnOk result (self.new.position.line ≤ self.old.position.line + length octets.now) }
        ensures depth { OnOk result (self.new.position.depth ≤ self.old.position.depth + length octets.now) }
        ensures err { OnErr result (Grew (state_of self.old) (state_of self.new)) }
    {
        let mut passed = 0;
        loop {
            passed += self.pass_plain(alloc, &octets[passed..])?;
            let Some(octet) = octets.get(passed) else {
                return Ok(());
            };
            self.pass(alloc, *octet)?;
            passed += 1;
        }
    }
}
