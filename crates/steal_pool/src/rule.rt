//! The rule of a deque of tickets, and the kinds of step that it allows.

use crossbeam_deque::protocol::{Join, Lesson, Outcome, Protocol, Split};
use std::collections::LinkedList;

/// What a seat at a deque has pushed and taken, each the first one first. It exists in proofs alone: no
/// value of it is made.
pub struct SeatView {
    pub pushed: LinkedList<u32>,
    pub taken: LinkedList<u32>,
}

/// What was pushed is balanced by what is held and what was taken.
pub(crate) struct Balance;

impl Protocol<u32, SeatView> for Balance {
    ghost use Rattle.steal_pool.specs.Rule.{KeepsBalance, new_seat};

    ghost holds = { KeepsBalance };

    ghost first = { new_seat };

    ghost guest = { new_seat };
}

/// A push at the back.
pub(crate) struct Pushes;

impl Outcome<u32, SeatView> for Pushes {
    ghost use Rattle.std.specs.Prelude.{◌≡◌, ◌++◌};
    ghost use Rattle.steal_pool.specs.Rule.{seat_view};

    ghost then = { λ before tickets after. after ≡ seat_view (before.pushed ++ tickets) before.taken };
}

/// A pop of the first ticket, or a steal of it.
pub(crate) struct Takes;

impl Outcome<u32, SeatView> for Takes {
    ghost use Rattle.std.specs.Prelude.{◌≡◌, ◌++◌};
    ghost use Rattle.steal_pool.specs.Rule.{seat_view, WasEmpty};

    ghost then = { λ before tickets after. after ≡ seat_view before.pushed (before.taken ++ tickets) };

    ghost empty = { WasEmpty };
}

/// Splitting a seat, and joining one.
pub(crate) struct Seats;

impl Split<SeatView> for Seats {
    ghost use Rattle.steal_pool.specs.Rule.{new_seat};

    ghost left = { λ seat. seat };

    ghost right = { λ seat. new_seat };
}

impl Join<SeatView> for Seats {
    ghost use Rattle.std.specs.Prelude.{◌++◌};
    ghost use Rattle.steal_pool.specs.Rule.{new_seat, seat_view};

    ghost both = { λ seat other. seat_view seat.pushed (seat.taken ++ other.taken) };

    ghost spent = { new_seat };
}

/// What is held at one moment.
pub(crate) struct Holds;

impl Lesson<u32, SeatView> for Holds {
    ghost use Rattle.steal_pool.specs.Rule.{IsHeldBeside};

    ghost fact = { IsHeldBeside };
}
