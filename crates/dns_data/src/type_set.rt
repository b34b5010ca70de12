//! Sets of record types.

ghost use Rattle.std.specs.Prelude.{◌≡◌, ◌↔◌, ◌≤◌, ◌&&◌, ◌||◌, not, true, false, IsNone, IfSome};
ghost use Rattle.std.specs.List.{find};
ghost use Rattle.dns_data.specs.RrType.{types, type_eq, number_of};
ghost use Rattle.dns_data.specs.TypeSet.{has_bit};

use crate::rr_type::RrType;
use std::array;
use std::marker::Model;

/// A set of the twelve record types.
#[derive(Clone, Copy, Debug, PartialEq, Eq)]
pub struct TypeSet {
    members: [bool; RrType::COUNT],
}

impl Model for TypeSet {
    ghost use Rattle.std.specs.Prelude.{List, Bool};

    ghost Value = { List Bool };

    ghost view = { λ set. set.members };

    ghost inverse = { λ members. record { members = members } };
}

impl TypeSet {
    /// The set without a type.
    pub fn empty() -> TypeSet
        ensures { (t : RrType) → has_bit result t ≡ false }
    {
        TypeSet {
            members: [false; RrType::COUNT],
        }
    }

    /// The set of the twelve types.
    pub fn all() -> TypeSet
        ensures { (t : RrType) → has_bit result t ≡ true }
    {
        TypeSet {
            members: [true; RrType::COUNT],
        }
    }

    /// The set of one type.
    pub fn one(t: RrType) -> TypeSet
        ensures { (other : RrType) → has_bit result other ≡ type_eq t other }
    {
        let mut set = TypeSet::empty();
        set.members[t as usize] = true;
        set
    }

    /// Whether the set has the type.
    pub fn has(&self, t: RrType) -> bool
        ensures { result ≡ has_bit self.now t }
    {
        self.members[t as usize]
    }

    /// The types that one of the sets has.
    pub fn union(&self, other: TypeSet) -> TypeSet
        ensures { (t : RrType) → has_bit result t ≡ (has_bit self.now t || has_bit other t) }
    {
        TypeSet {
            members: array::from_fn(|place| self.members[place] || other.members[place]),
        }
    }

    /// The types that this set has and the other hasn't.
    pub fn minus(&self, other: TypeSet) -> TypeSet
        ensures { (t : RrType) → has_bit result t ≡ (has_bit self.now t && not (has_bit other t)) }
    {
        TypeSet {
            members: array::from_fn(|place| self.members[place] && !other.members[place]),
        }
    }

    /// The type of the set with the least number, or `None` where the set is empty.
    pub fn first(&self) -> Option<RrType>
        ensures found { result ≡ find (has_bit self.now) types }
        ensures none { IsNone result ↔ ((t : RrType) → has_bit self.now t ≡ false) }
        ensures member { IfSome result (λ t. has_bit self.now t ≡ true) }
        ensures least { IfSome result (λ t. (other : RrType) → has_bit self.now other ≡ true → number_of t ≤ number_of other) }
    {
        RrType::ALL.iter().copied().find(|t| self.has(*t))
    }
}
