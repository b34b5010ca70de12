//! How far the entry under way has come.

ghost use Rattle.std.specs.Prelude.{◌≡◌};
ghost use Rattle.master_lex.specs.States.{start_of};

use crate::fault::LexFault;

/// How far an escape has come.
#[derive(Clone, Copy, Debug, PartialEq, Eq)]
pub(crate) enum Escape {
    /// No escape is under way.
    Outside,
    /// The `\` alone.
    Begun,
    /// The `\` and this digit.
    One(u8),
    /// The `\` and these digits.
    Two(u8, u8),
}

/// What is under way.
#[derive(Clone, Copy, Debug, PartialEq, Eq)]
pub(crate) enum Mode {
    /// Nothing of an entry yet.
    Start,
    /// White space and parentheses.
    Between,
    /// A comment.
    Comment,
    /// A token.
    InToken { quoted: bool, escape: Escape },
    /// A fault, behind which nothing is read.
    Faulty(LexFault),
}

/// How far the entry under way has come.
#[derive(Clone, Copy, Debug, PartialEq, Eq)]
pub(crate) struct Position {
    /// The line, counted from 1.
    pub line: u32,
    /// Whether the entry's first octet is a space or a tab.
    pub blank_start: bool,
    /// How many parentheses are open.
    pub depth: u32,
    /// The line of the outermost open parenthesis.
    pub opened: u32,
    /// The line of the first token.
    pub first: u32,
    /// What is under way.
    pub mode: Mode,
}

impl Position {
    /// The start of an entry in a line.
    pub(crate) fn start(line: u32) -> Position
        ensures { result ≡ start_of line }
    {
        Position {
            line,
            blank_start: false,
            depth: 0,
            opened: 0,
            first: 0,
            mode: Mode::Start,
        }
    }
}
