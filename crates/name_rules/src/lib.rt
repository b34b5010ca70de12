//! What a DNAME record makes of a name, also of one with an open tail.
//!
//! The layer above may rest on this: each substitution is the definition `swap`, and `TooLong` comes exactly where the name
//! that it makes, with its tail, has more than 255 octets. What the owner of a DNAME record answers is the definition
//! `redirected`.
//!
//! Names with an open tail are a promise of the library alone. The program substitutes in whole names: it follows the
//! representative of each class, and the calls on a `SymName` meet no tail there.
//!
//! Costs: a substitution copies the labels once.
#![tactic(auto)]

mod redirection;
mod substitution;
mod sym_name;

pub use redirection::{redirected, redirected_whole};
pub use substitution::{fits, substitute, substitute_sym};
pub use sym_name::SymName;
