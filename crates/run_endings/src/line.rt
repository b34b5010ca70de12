//! The line that a run tells on err.

ghost use Rattle.std.specs.Prelude.{◌≡◌, IfOk};
ghost use Rattle.std.specs.List.{flat_map};

use dns_data::{NoMemory, Octets};
use std::alloc::Global;
use std::marker::Model;

/// The octets of a line: the program's own, which take no memory, or made ones.
#[derive(Debug, Drop)]
enum LineOctets {
    Fixed(&'static str),
    Made(Octets),
}

/// A line for err, or nothing. Contracts see it as its octets.
#[derive(Debug, Drop)]
pub struct EndingLine {
    octets: LineOctets,
}

impl Model for EndingLine {
    ghost use Rattle.std.specs.Prelude.{List, ℕ};
    ghost use Rattle.run_endings.specs.Line.{line_octets};

    ghost Value = { List ℕ };

    ghost view = { λ line. line_octets line.octets };
}

impl EndingLine {
    /// A text of the program's own. It takes no memory.
    pub(crate) fn fixed(text: &'static str) -> EndingLine
        ensures { result ≡ text.now }
    {
        EndingLine {
            octets: LineOctets::Fixed(text),
        }
    }

    /// A text in pieces.
    pub fn of_pieces(alloc: Global, pieces: &[&[u8]]) -> Result<EndingLine, NoMemory>
        ensures { IfOk result (λ line. line ≡ flat_map (λ piece. piece.now) pieces.now) }
    {
        let mut text = Octets::new();
        for piece in pieces {
            text.extend_from_slice(alloc, piece)?;
        }
        Ok(EndingLine {
            octets: LineOctets::Made(text),
        })
    }

    /// The line's octets.
    pub fn octets(&self) -> &[u8]
        ensures { result.now ≡ self.now }
    {
        match &self.octets {
            LineOctets::Fixed(text) => text.as_bytes(),
            LineOctets::Made(text) => text.items(),
        }
    }
}
