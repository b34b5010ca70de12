//! The laws over the definitions of walks, classes and faults, as contracts of functions without a body.
//!
//! The crates above may rest on these: a configuration has one set in force (`one_in_force`); a name walks as each
//! longer one with which it shares the labels that are named (`simulation`), and where it meets an overlong rewrite the
//! longer one does too (`overlong_law`); so, under every ground that covers the configuration (`covering_grounds`), the
//! representative of a class shows each fault that a member shows (`carrying`), and has the outcomes of each member of
//! which no walk ends in a name that is too long (`outcomes`); and a walk that comes back is one that ends at the
//! rewrite limit (`return_law`).
#![tactic(auto)]

mod laws;

pub use laws::{
    carrying, covering_grounds, one_in_force, outcomes, overlong_law, return_law, simulation,
};
