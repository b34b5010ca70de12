//! The way back to what was held before a piece.

ghost use Rattle.std.specs.Prelude.{◌≡◌, ℕ, List, length};
ghost use Rattle.master_lex.specs.declared.entry.Entry.{Entry};
ghost use Rattle.master_lex.specs.declared.entry.Token.{Token};
ghost use Rattle.master_lex.specs.States.{LexState, state_of};
ghost use Rattle.master_lex.specs.Undo.{mark_of, TokensGrew, EntriesGrew, Grew};

use crate::entry::{Entry, Token};
use crate::position::Position;
use crate::scanner::Scanner;
use dns_data::Octets;
use std::collections::VecDeque;

/// How much was held before a piece.
#[derive(Clone, Copy, Debug)]
pub(crate) struct Mark {
    /// How many whole entries.
    pub ready: usize,
    /// How many whole tokens of the entry under way.
    pub tokens: usize,
    /// How many octets of the token under way.
    pub raw: usize,
    /// How far the entry under way had come.
    pub position: Position,
}

/// Brings back the first `tokens_len` tokens and the first `raw_len` octets of the token behind
/// them, from what has grown since.
fn undo_tokens(tokens: &mut Vec<Token>, raw: &mut Octets, tokens_len: usize, raw_len: usize)
    ensures tokens { (before : List Token) (begun : List ℕ) → length before ≡ tokens_len → length begun ≡ raw_len
        → TokensGrew before begun tokens.old.items raw.old → tokens.new.items ≡ before }
    ensures raw { (before : List Token) (begun : List ℕ) → length before ≡ tokens_len → length begun ≡ raw_len
        → TokensGrew before begun tokens.old.items raw.old → raw.new ≡ begun }
{
    if tokens.len() <= tokens_len {
        raw.truncate(raw_len);
        return;
    }
    let token = tokens.remove(tokens_len);
    tokens.truncate(tokens_len);
    *raw = token.raw;
    raw.truncate(raw_len);
}

/// Brings back the first `len` entries, and the tokens of the entry behind them.
fn undo_entries(ready: &mut VecDeque<Entry>, tokens: &mut Vec<Token>, raw: &mut Octets, len: usize)
    ensures ready { (before : List Entry) (whole : List Token) (begun : List ℕ) → length before ≡ len
        → EntriesGrew before whole begun ready.old.items tokens.old.items raw.old → ready.new.items ≡ before }
    ensures tokens { (before : List Entry) (whole : List Token) (begun : List ℕ) → length before ≡ len
        → EntriesGrew before whole begun ready.old.items tokens.old.items raw.old
        → TokensGrew whole begun tokens.new.items raw.new }
{
    let Some(entry) = ready.remove(len) else {
        return;
    };
    ready.truncate(len);
    *tokens = entry.tokens.into_vec();
    raw.clear();
}

impl Scanner {
    /// How much is held.
    pub(crate) fn mark(&self) -> Mark
        ensures { result ≡ mark_of (state_of self.now) }
    {
        Mark {
            ready: self.ready.len(),
            tokens: self.tokens.len(),
            raw: self.raw.len(),
            position: self.position,
        }
    }

    /// Brings back what was held at the mark.
    pub(crate) fn undo(&mut self, mark: Mark)
        ensures { (before : LexState) → mark ≡ mark_of before → Grew before (state_of self.old) → state_of self.new ≡ before }
    {
        undo_entries(&mut self.ready, &mut self.tokens, &mut self.raw, mark.ready);
        undo_tokens(&mut self.tokens, &mut self.raw, mark.tokens, mark.raw);
        self.position = mark.position;
    }
}
