//! Why an event is refused.

ghost use Rattle.std.specs.Prelude.{◌≡◌, ◌≤◌, None, Some, nat_le, if◌then◌else◌};
ghost use Rattle.pool_core.specs.Refusals.{refusal, no_worker, no_ticket, stopped, illegal, empty_deque, too_many, ticket_named, deque_named, moves_from};
ghost use Rattle.pool_core.specs.Law.{IsRunOfAccepted};

use super::Core;
use crate::event::Event;
use crate::fault::StepFault;
use crate::spot::Spot;

impl Core {
    /// The first cause for which the event is refused.
    pub(super) fn refusal(&self, event: Event) -> Option<StepFault>
        ensures said { result ≡ refusal self.now event }
        ensures run { IsRunOfAccepted self.now }
        ensures some_ticket { 1 ≤ self.now.limit }
    {
        // A field is read, so that what each `Core` keeps is known here.
        let _limit = self.limit;
        self.no_worker(event)
            .or_else(|| self.no_ticket(event))
            .or_else(|| self.stopped(event))
            .or_else(|| self.illegal(event))
            .or_else(|| self.empty_deque(event))
            .or_else(|| self.too_many(event))
    }

    /// The first worker or deque of the event that is not there.
    fn no_worker(&self, event: Event) -> Option<StepFault>
        ensures { result ≡ no_worker self.now event }
    {
        match event {
            Event::Push { worker, .. }
            | Event::Pop { worker }
            | Event::Claim { worker, .. }
            | Event::File { worker, .. } => self.unknown(worker),
            Event::Steal { worker, from } => self.unknown(worker).or(self.unknown(from)),
            Event::Stop { .. } => None,
        }
    }

    /// A worker or a deque that is not below the number of workers.
    fn unknown(&self, worker: u32) -> Option<StepFault>
        ensures { result ≡ (if nat_le self.now.workers worker then Some (StepFault.NoWorker worker) else None) }
    {
        (worker >= self.workers).then_some(StepFault::NoWorker(worker))
    }

    /// A ticket that was not issued.
    fn no_ticket(&self, event: Event) -> Option<StepFault>
        ensures { result ≡ no_ticket self.now event }
    {
        let ticket = ticket_named(event)?;
        (ticket as usize >= self.spots.len()).then_some(StepFault::NoTicket(ticket))
    }

    /// A claim after a stop.
    fn stopped(&self, event: Event) -> Option<StepFault>
        ensures { result ≡ stopped self.now event }
    {
        match event {
            Event::Claim { .. } => self.stop.is_some().then_some(StepFault::Stopped),
            Event::Push { .. }
            | Event::Pop { .. }
            | Event::Steal { .. }
            | Event::File { .. }
            | Event::Stop { .. } => None,
        }
    }

    /// A ticket with a spot from which the event does not move it.
    fn illegal(&self, event: Event) -> Option<StepFault>
        ensures { result ≡ illegal self.now event }
    {
        let ticket = ticket_named(event)?;
        let kept = self.spot(ticket)?;
        (!moves_from(event, kept)).then_some(StepFault::Illegal { ticket, kept })
    }

    /// A deque that holds nothing.
    fn empty_deque(&self, event: Event) -> Option<StepFault>
        ensures { result ≡ empty_deque self.now event }
    {
        let deque = deque_named(event)?;
        let empty = match self.queues.get(deque as usize) {
            Some(queue) => queue.is_empty(),
            None => true,
        };
        empty.then_some(StepFault::EmptyDeque(deque))
    }

    /// More tickets than the limit.
    fn too_many(&self, event: Event) -> Option<StepFault>
        ensures { result ≡ too_many self.now event }
    {
        let Event::File { children, .. } = event else {
            return None;
        };
        let limit = self.limit;
        let issued = self.spots.len() as u32;
        (children > limit - issued).then_some(StepFault::TooMany { issued, limit })
    }
}

/// The ticket that an event names.
fn ticket_named(event: Event) -> Option<u32>
    ensures { result ≡ ticket_named event }
{
    match event {
        Event::Push { ticket, .. } | Event::Claim { ticket, .. } | Event::File { ticket, .. } => {
            Some(ticket)
        }
        Event::Pop { .. } | Event::Steal { .. } | Event::Stop { .. } => None,
    }
}

/// The deque from which an event takes.
fn deque_named(event: Event) -> Option<u32>
    ensures { result ≡ deque_named event }
{
    match event {
        Event::Pop { worker } => Some(worker),
        Event::Steal { from, .. } => Some(from),
        Event::Push { .. } | Event::Claim { .. } | Event::File { .. } | Event::Stop { .. } => None,
    }
}

/// Whether the spot is one from which the event moves its ticket.
fn moves_from(event: Event, spot: Spot) -> bool
    ensures { result ≡ moves_from event spot }
{
    match (event, spot) {
        (Event::Push { worker, .. }, Spot::Issued(owner)) => owner == worker,
        (Event::Claim { worker, .. }, Spot::Issued(owner) | Spot::Held(owner)) => owner == worker,
        (Event::File { worker, .. }, Spot::Claimed(owner)) => owner == worker,
        _ => false,
    }
}
