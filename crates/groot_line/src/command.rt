//! The commands.

ghost use Rattle.std.specs.Prelude.{◌≡◌};
ghost use Rattle.groot_line.specs.Command.{command_word, command_of, has_command, has_option};

use crate::line_option::LineOption;
use crate::program::Program;

/// What the first word asks for.
#[derive(Clone, Copy, Debug, PartialEq, Eq)]
pub(crate) enum Command {
    /// The report of a configuration.
    Check,
    /// All walks of one query.
    Ask,
    /// The classes of query names.
    Classes,
    /// A report on files that are made for it.
    Drill,
    /// What the checks of sites find in a configuration.
    Site,
    /// Whether the entries of a report are right.
    Recheck,
    /// Whether two configurations give the same answers.
    Same,
    /// The report on the queries at or below a name.
    Scope,
    /// Such a report for each name of a file.
    Scopes,
}

impl Command {
    /// All commands.
    const ALL: [Command; 9] = [
        Command::Check,
        Command::Ask,
        Command::Classes,
        Command::Drill,
        Command::Site,
        Command::Recheck,
        Command::Same,
        Command::Scope,
        Command::Scopes,
    ];

    /// The command's word.
    fn word(&self) -> &'static str
        ensures { result.now ≡ command_word self.now }
    {
        match self {
            Command::Check => "check",
            Command::Ask => "ask",
            Command::Classes => "classes",
            Command::Drill => "drill",
            Command::Site => "site",
            Command::Recheck => "recheck",
            Command::Same => "same",
            Command::Scope => "scope",
            Command::Scopes => "scopes",
        }
    }

    /// The command with this word, if the program has it. The word is compared as written.
    pub(crate) fn from_word(program: Program, word: &[u8]) -> Option<Command>
        ensures { result ≡ command_of program word.now }
    {
        Command::ALL.iter().copied().find(|command| command.is_of(program)
            && word == command.word().as_bytes())
    }

    /// Whether the program has the command.
    fn is_of(&self, program: Program) -> bool
        ensures { result ≡ has_command program self.now }
    {
        match (program, self) {
            (Program::Groot, Command::Scopes) => false,
            _ => true,
        }
    }

    /// Whether the command has the option.
    pub(crate) fn has(&self, option: LineOption) -> bool
        ensures { result ≡ has_option self.now option }
    {
        match (self, option) {
            (Command::Check, _) => true,
            (Command::Classes, LineOption::Classes) => true,
            (Command::Drill, LineOption::Workers) => true,
            _ => false,
        }
    }
}
