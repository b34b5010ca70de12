//! Plain lines, which are passed over at once.

ghost use Rattle.std.specs.Prelude.{◌≡◌, ◌+◌, ◌^◌, ◌<◌, ◌≤◌, [], length, get_or, true, IfSome, IfNone};
ghost use Rattle.master_lex.specs.Lines.{IsWord, IsQuoted, IsLineEnd, in_line, HasPassedPart, IsPartWithin, HoldsNothing, HasPassedLine};
ghost use Rattle.master_lex.specs.Octets.{is_space};
ghost use Rattle.master_lex.specs.Plain.{PassedFirst};
ghost use Rattle.master_lex.specs.States.{LexState, state_of, entry_ended};

use crate::octet::{ends_word, is_feed_octet, is_space_octet};
use crate::plain::{blank_len, line_len, token_len};
use crate::position::{Mode, Position};
use crate::scanner::{MOST, Scanner};
use crate::text_token::TextToken;

/// A line that was passed over at once.
#[derive(Clone, Copy, Debug)]
pub struct PlainLine {
    /// How many octets it has, its line feed among them.
    pub octets: usize,
    /// The line, counted from 1.
    pub line: u32,
    /// Whether it has a space or a tab in front.
    pub blank_start: bool,
}

/// What stands in front of a line, behind white space, and how many octets it has with that.
#[derive(Clone, Copy, Debug)]
pub(crate) enum LinePart {
    /// A token, behind which the line goes on.
    Token(usize),
    /// A token or none, and the line's end.
    End(usize),
    /// Nothing that is passed over at once.
    Other,
}

/// How many octets a token without quotes has that stands whole in front, with white space or the line's end behind it,
/// or none where no such token stands there.
#[tactic(auto, using(crate::proofs::Lines::is_word))]
fn word_len(octets: &[u8]) -> usize
    ensures { 0 < result → IsWord octets.now result }
{
    let count = token_len(octets, false);
    if count > MOST || count >= octets.len() || !ends_word(octets[count]) {
        return 0;
    }
    count
}

/// How many octets a token in quotes has that stands whole in front, its quotes among them, or none where no such
/// token stands there.
fn quoted_len(octets: &[u8]) -> usize
    ensures { 0 < result → IsQuoted octets.now result }
{
    let [b'"', rest @ ..] = octets else {
        return 0;
    };
    let count = token_len(rest, true);
    if count > MOST || count >= rest.len() || rest[count] != b'"' {
        return 0;
    }
    count + 2
}

/// How many octets the line has left, its line feed among them, where that or a comment stands in front, or none.
fn end_len(octets: &[u8]) -> usize
    ensures { 0 < result → IsLineEnd octets.now result }
{
    match octets {
        [b'\n', ..] => 1,
        [b';', comment @ ..] => {
            let count = line_len(comment);
            if count < comment.len() { count + 2 } else { 0 }
        }
        _ => 0,
    }
}

/// Passes over white space and a token, or the line's end, or both, and puts the token among those of the line.
fn pass_part<'a>(octets: &'a [u8], tokens: &mut Vec<TextToken<'a>>) -> LinePart
    ensures passed { (s : LexState) → HasPassedPart s tokens.old.items tokens.new.items octets.now result }
    ensures within { IsPartWithin (length octets.now) result }
{
    let blank = blank_len(octets);
    let rest = &octets[blank..];
    let word = word_len(rest);
    if word > 0 {
        if tokens.push(TextToken::new(&rest[..word], false)).is_err() {
            return LinePart::Other;
        }
        let count = blank + (word + 1);
        return if is_feed_octet(rest[word]) {
            LinePart::End(count)
        } else {
            LinePart::Token(count)
        };
    }
    let quoted = quoted_len(rest);
    if quoted > 0 {
        if tokens
            .push(TextToken::new(&rest[1..quoted - 1], true))
            .is_err()
        {
            return LinePart::Other;
        }
        return LinePart::Token(blank + quoted);
    }
    let end = end_len(rest);
    if end > 0 {
        LinePart::End(blank + end)
    } else {
        LinePart::Other
    }
}

/// Puts the tokens of the plain line in front among `tokens`, which is empty, and says how many octets the line has,
/// its line feed among them, or none where no plain line stands whole there.
fn read_line<'a>(octets: &'a [u8], tokens: &mut Vec<TextToken<'a>>) -> usize
    requires { tokens.old.items ≡ [] }
    ensures line { 0 < result → (s : LexState) → PassedFirst (in_line s []) (entry_ended (in_line s tokens.new.items)) octets.now result }
    ensures within { result ≤ length octets.now }
{
    let mut passed = 0;
    loop {
        match pass_part(&octets[passed..], tokens) {
            LinePart::Token(count) => passed += count,
            LinePart::End(count) => return passed + count,
            LinePart::Other => return 0,
        }
    }
}

/// Whether a space or a tab stands in front.
fn begins_blank(octets: &[u8]) -> bool
    ensures { result ≡ is_space (get_or octets.now 0 0) }
{
    match octets {
        [] => false,
        [first, ..] => is_space_octet(*first),
    }
}

impl Scanner {
    /// Whether nothing is held, and an entry may begin.
    fn holds_nothing(&self) -> bool
        ensures { result ≡ true → HoldsNothing (state_of self.now) }
    {
        matches!(self.position.mode, Mode::Start)
            && self.position.depth == 0
            && self.ready.is_empty()
            && self.tokens.is_empty()
            && self.raw.is_empty()
    }

    /// Passes over a plain line in front, where nothing is held, and puts its tokens in place of those given, or answers
    /// `None` and passes nothing.
    pub(crate) fn pass_line<'a>(
        &mut self,
        octets: &'a [u8],
        tokens: &mut Vec<TextToken<'a>>,
    ) -> Option<PlainLine>
        requires { self.old.position.line + length octets.now < 2 ^ 32 }
        ensures some { IfSome result (HasPassedLine (state_of self.old) (state_of self.new) tokens.new.items octets.now) }
        ensures none { IfNone result (state_of self.new ≡ state_of self.old) }
    {
        if !self.holds_nothing() {
            return None;
        }
        tokens.clear();
        let count = read_line(octets, tokens);
        if count == 0 {
            return None;
        }
        let line = self.position.line;
        self.position = Position::start(line + 1);
        Some(PlainLine {
            octets: count,
            line,
            blank_start: begins_blank(octets),
        })
    }
}
