//! The two ends of a deque of tickets.

ghost use Rattle.std.specs.Prelude.{◌≡◌};
ghost use Rattle.crossbeam_deque.specs.Handles.{worker_flavor, worker_port, stealer_deque, stealer_flavor, IsPassOf};

use crate::rule::{Balance, SeatView};
use crossbeam_deque::{Pass, Stealer, Worker};
use std::alloc::Global;

mod other;
mod own;

pub use other::Stolen;

/// A worker's own deque of tickets, in which the first one in is the first one out, with the owner's
/// seat. A push costs no more than a ticket's place.
#[derive(Drop)]
pub struct OwnRow {
    deque: Worker<u32, Global, SeatView, Balance>,
    ghost fifo: { worker_flavor deque ≡ 0 },
    ghost first_seat: { worker_port deque ≡ 0 },
}

/// The deque of another worker, with a seat at it.
#[derive(Drop)]
pub struct OtherRow {
    deque: Stealer<u32, Global, SeatView, Balance>,
    seat: Pass<u32, SeatView>,
    ghost fifo: { stealer_flavor deque ≡ 0 },
    ghost seated: { ∥ IsPassOf (stealer_deque deque) seat ∥₁ },
}
