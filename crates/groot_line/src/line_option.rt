//! The options.

ghost use Rattle.std.specs.Prelude.{◌≡◌};
ghost use Rattle.groot_line.specs.LineOption.{option_name, most_of, default_of};

use crate::program::Program;

/// How many workers judge, where the words say no other number.
pub const USUAL_WORKERS: u32 = 4;

/// How many rewrites a query may use, where the words say no other number.
pub const USUAL_REWRITES: u32 = 12;

/// A number that a run may be given.
#[derive(Clone, Copy, Debug, PartialEq, Eq)]
pub(crate) enum LineOption {
    /// How many workers judge.
    Workers,
    /// How many names the class tree may have.
    Classes,
    /// How many rewrites a query may use.
    Rewrites,
}

impl LineOption {
    /// The option's name, which stands behind two dashes.
    pub(crate) fn name<'a>(&self) -> &'a str
        ensures { result.now ≡ option_name self.now }
    {
        match self {
            LineOption::Workers => "workers",
            LineOption::Classes => "classes",
            LineOption::Rewrites => "rewrites",
        }
    }

    /// The most that the option's number may be.
    pub(crate) fn most(&self, program: Program) -> u32
        ensures { result ≡ most_of program self.now }
    {
        match self {
            LineOption::Workers => 64,
            LineOption::Classes => program.most_names(),
            LineOption::Rewrites => 64,
        }
    }

    /// The number where the words don't say it.
    pub(crate) fn unsaid(&self, program: Program) -> u32
        ensures { result ≡ default_of program self.now }
    {
        match self {
            LineOption::Workers => USUAL_WORKERS,
            LineOption::Classes => program.usual_names(),
            LineOption::Rewrites => USUAL_REWRITES,
        }
    }
}
