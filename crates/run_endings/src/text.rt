//! The text that a run writes on out.

ghost use Rattle.std.specs.Prelude.{◌≡◌, []};
ghost use Rattle.std.specs.List.{flat_map};
ghost use Rattle.run_endings.specs.Text.{text_octets};

use dns_data::{List, Octets};
use std::marker::Model;

/// How the octets of a text stand: one after the other, or in pieces of which each stands by itself.
#[derive(Debug, Drop)]
pub(crate) enum TextForm {
    Whole(Octets),
    Pieces(List<Octets>),
}

/// A text for out, which is whole before its first octet is written. A large one may stand in pieces, so that it needs no
/// room for a second copy. Contracts see it as its octets.
#[derive(Debug, Drop)]
pub struct OutText {
    form: TextForm,
}

impl Model for OutText {
    ghost use Rattle.std.specs.Prelude.{List, ℕ};
    ghost use Rattle.run_endings.specs.Text.{text_octets};

    ghost Value = { List ℕ };

    ghost view = { λ text. text_octets text.form };
}

impl OutText {
    /// No octet. It takes no memory.
    pub(crate) fn none() -> OutText
        ensures { result ≡ [] }
    {
        OutText::whole(Octets::new())
    }

    /// A text whose octets stand one after the other.
    pub fn whole(octets: Octets) -> OutText
        ensures { result ≡ octets }
    {
        OutText {
            form: TextForm::Whole(octets),
        }
    }

    /// A text of pieces, each behind the one before.
    pub fn of_pieces(pieces: List<Octets>) -> OutText
        ensures { result ≡ flat_map (λ piece. piece) pieces }
    {
        OutText {
            form: TextForm::Pieces(pieces),
        }
    }

    /// How its octets stand.
    pub(crate) fn form(&self) -> &TextForm
        ensures { text_octets result.now ≡ self.now }
    {
        &self.form
    }
}
