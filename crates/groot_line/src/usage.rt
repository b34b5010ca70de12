//! The line for words that ask for nothing.

ghost use Rattle.std.specs.Prelude.{◌≡◌};
ghost use Rattle.groot_line.specs.Usage.{usage_line};

use crate::program::Program;

/// The program's line on err where the words are no job, with its line feed.
pub fn usage_line(program: Program) -> &'static str
    ensures { result.now ≡ usage_line program }
{
    match program {
        Program::Groot =>
            "usage: groot check META [--workers N] [--classes N] [--rewrites K] | ask META NAME TYPE | classes META [--classes N] | drill N [--workers N] | site META | recheck META REPORT | same META META | scope META NAME\n",
        Program::GrootLarge =>
            "usage: groot-large check META [--workers N] [--classes N] [--rewrites K] | ask META NAME TYPE | classes META [--classes N] | drill N [--workers N] | site META | recheck META REPORT | same META META | scope META NAME | scopes META FILE\n",
    }
}
