//! What the definitions say of data and of records.

ghost use Rattle.std.specs.Prelude.{◌≡◌, ◌↔◌, true, List, [], ◌∷◌, ◌++◌, if◌then◌else◌, IsSome};
ghost use Rattle.std.specs.List.{list_any};
ghost use Rattle.dns_data.specs.DataText.{data_text};
ghost use Rattle.dns_data.specs.Distinct.{distinct};
ghost use Rattle.dns_data.specs.Identical.{is_identical};
ghost use Rattle.dns_data.specs.Rdata.{IsData, data_eq, type_of_data};

use crate::rdata::{Rdata, Rr};

/// Data that are equal are one. Data of one of the twelve types are equal to others of that type exactly where their
/// texts are one.
pub fn texts_tell_data()
    ensures equal { (a b : Rdata) → (data_eq a b ≡ true) ↔ (a ≡ b) }
    ensures texts { (a b : Rdata) → IsData a → IsData b → type_of_data a ≡ type_of_data b → IsSome (type_of_data a)
        → (data_text a ≡ data_text b) ↔ (data_eq a b ≡ true) }
{}

/// Records are identical exactly where their owners and their data are one, and a record is kept unless one in front
/// of it is identical (RFC 2181 section 5).
pub fn identical_records()
    ensures parts { (a b : Rr) → (is_identical a b ≡ true) ↔ ((a.owner ≡ b.owner) × (a.rdata ≡ b.rdata)) }
    ensures first { (before : List Rr) (rr : Rr) → distinct is_identical (before ++ rr ∷ [])
        ≡ (if list_any (is_identical rr) before then distinct is_identical before else distinct is_identical before ++ rr ∷ []) }
{}
