//! The law of the rules of zones in parts, as the contract of a function without a body.
//!
//! What is left of a zone keeps the rules of zones if the zone does and its origin is held. A zone keeps the rules if its
//! origin, and each of its owners, is held somewhere where what is left of the zone keeps them.
#![tactic(auto)]

mod laws;

pub use laws::part_rules;
