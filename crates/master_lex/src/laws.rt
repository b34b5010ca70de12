//! What the definitions say of each text.

ghost use Rattle.std.specs.Prelude.{◌≡◌, ℕ, List, ◌++◌, false};
ghost use Rattle.std.specs.List.{flat_map, list_any};
ghost use Rattle.master_lex.specs.declared.entry.Entry.{Entry};
ghost use Rattle.master_lex.specs.Pieces.{pieces, written_octets, is_broken, written_front};
ghost use Rattle.master_lex.specs.Contents.{contents, text_entries};

/// What is whole stays: the entries that a line feed ends are the first of each text that goes on from there.
pub fn what_is_whole_stays()
    ensures { (text more : List ℕ) → (others : List Entry) × (text_entries (text ++ more) ≡ (contents text).whole ++ others) }
{}

/// Nothing of a text is lost: the octets of its pieces in a row are the text, unless one of them is a fault; and those
/// of the pieces up to a fault are a front of the text.
pub fn pieces_spell_the_text()
    ensures whole { (text : List ℕ) → list_any is_broken (pieces text) ≡ false → flat_map written_octets (pieces text) ≡ text }
    ensures front { (text : List ℕ) → (rest : List ℕ) × (written_front (pieces text) ++ rest ≡ text) }
{}
