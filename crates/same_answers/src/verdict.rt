//! The verdict of a class of the joint class tree.

use dns_data::RrType;

/// The verdict of a class, by its representative.
#[derive(Clone, Copy, Debug, PartialEq, Eq)]
pub enum PairEnd {
    /// Both configurations bound it, and with each type it has the same outcomes in both. It also stands where the
    /// name of some server reaches more pairs of state and type than are looked at.
    Equal,
    /// Both bound it, and its outcomes differ with this type, the first one.
    Apart(RrType),
    /// One of them doesn't bound it.
    Unbounded,
    /// It reaches more pairs of state and type than are looked at, in one of them.
    StatesPassed,
}
