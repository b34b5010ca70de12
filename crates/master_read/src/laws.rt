//! What the definitions say of each text.

ghost use Rattle.std.specs.Prelude.{◌≡◌, ◌≢◌, ◌≤◌, ℕ, List, length, Ok, Err, IfErr};
ghost use Rattle.dns_data.specs.Name.{Labels};
ghost use Rattle.master_lex.specs.declared.entry.Token.{Token};
ghost use Rattle.master_read.specs.declared.zone_text.ZoneText.{ZoneText};
ghost use Rattle.master_read.specs.Entries.{Front, front_in, one_more};
ghost use Rattle.master_read.specs.ZoneText.{Faulty, Asks, TellsOfUnread, opened_record_entries, zone_text};

use crate::fault::TextFault;

/// What is taken in front of a type is all that may be: the word behind it is neither a further TTL nor a further
/// class.
pub fn front_is_whole()
    ensures { (tokens : List Token) (front : Front) → front_in tokens ≡ Ok front → one_more front ≡ Ok front }
{}

/// Where texts have records, `seen` counts the record entries of the files that were opened, dropped ones among them,
/// and they are at most as many as there was room for; nor were more files included than might be.
pub fn seen_counts_record_entries()
    ensures { (origin : Labels) (room includes : ℕ) (texts : List (List ℕ)) (given : ZoneText) → zone_text origin room includes texts ≡ Ok given
        → (given.seen ≡ length (opened_record_entries given.included texts)) × (given.seen ≤ room) × (given.included ≤ includes) }
{}

/// A file is asked for only where another may be included: the texts so far are at most as many as files may be.
pub fn asks_within_the_limit()
    ensures { (origin : Labels) (room includes : ℕ) (texts : List (List ℕ)) (file : List ℕ) → zone_text origin room includes texts ≡ Err (Asks file) → length texts ≤ includes }
{}

/// No texts are refused because memory ran out, nor does that error stand in their fault: that answer is a call's alone.
pub fn no_text_wants_memory()
    ensures own { (origin : Labels) (room includes : ℕ) (texts : List (List ℕ)) → zone_text origin room includes texts ≢ Err (Faulty TextFault.NoMemory) }
    ensures inside { (origin : Labels) (room includes : ℕ) (texts : List (List ℕ)) → IfErr (zone_text origin room includes texts) TellsOfUnread }
{}
