//! The programs that read words.

ghost use Rattle.std.specs.Prelude.{◌≡◌, ◌<◌, ◌≤◌};
ghost use Rattle.groot_line.specs.Program.{largest_names, most_digits, most_names, usual_names};

/// The most names that a class tree may be allowed to have, whatever the program: they are counted in 31 bits.
const LARGEST_NAMES: u32 = 2_147_483_647;

/// Which program reads the words. They have the same commands and options, but for `scopes`, which `groot-large` alone has.
#[derive(Clone, Copy, Debug, PartialEq, Eq)]
pub enum Program {
    /// `groot`, whose numbers keep a run small.
    Groot,
    /// `groot-large`, whose numbers are the largest that are counted.
    GrootLarge,
}

impl Program {
    /// How many names the class tree may have, where the words say no other number.
    pub fn usual_names(self) -> u32
        ensures is { result ≡ usual_names self }
        ensures some { 0 < result }
        ensures few { result ≤ largest_names }
    {
        match self {
            Program::Groot => 100_000,
            Program::GrootLarge => LARGEST_NAMES,
        }
    }

    /// The most names that the words may allow the class tree to have.
    pub(crate) fn most_names(self) -> u32
        ensures { result ≡ most_names self }
    {
        match self {
            Program::Groot => 1_000_000,
            Program::GrootLarge => LARGEST_NAMES,
        }
    }

    /// How many digits a number has at most.
    pub(crate) fn most_digits(self) -> usize
        ensures { result ≡ most_digits self }
    {
        match self {
            Program::Groot => 7,
            Program::GrootLarge => 10,
        }
    }
}
