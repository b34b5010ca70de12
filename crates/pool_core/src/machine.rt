//! The pool machine.

ghost use Rattle.std.specs.Prelude.{◌≡◌, ◌≤◌, ◌↔◌, IsNone, OnOk, OnErr, IfOk, None, replicate, []};
ghost use Rattle.pool_core.specs.Pools.{new_pool, issued, spot_of};
ghost use Rattle.pool_core.specs.Refusals.{refusal, RefusesOr};
ghost use Rattle.pool_core.specs.Steps.{happens};
ghost use Rattle.pool_core.specs.Law.{EachHasOneSpot, WaitsWhereItStands, StandsOnceAtMost, TakesInOrder, HasBalancedDeques, ClaimsOnce, FilesOnce, FilesAfterClaim, HasLegalShadow, ReplaysToItself, IsRunOfAccepted};

use crate::event::{Event, StopCause};
use crate::fault::StepFault;
use crate::queue::Queue;
use crate::spot::Spot;
use dns_data::NoMemory;
use std::alloc::Global;
use std::marker::Model;

mod moves;
mod refusals;

/// A pool of tickets, with a deque for each worker. Contracts see it as the run of the events that it
/// accepted, which it stores.
///
/// A step looks at no other ticket and at no earlier event: it costs the storing of its event, and a
/// filing the tickets that it issues.
#[derive(Debug, Drop)]
pub struct Core {
    workers: u32,
    limit: u32,
    events: Vec<Event>,
    spots: Vec<Spot>,
    queues: Vec<Queue>,
    stop: Option<StopCause>,
}

impl Model for Core {
    ghost use Rattle.pool_core.specs.Pools.{Pool};

    ghost Value = { Pool };

    ghost use Rattle.pool_core.specs.Steps.{run};
    ghost use Rattle.pool_core.specs.Kept.{IsPoolAfter};

    ghost view = { λ core. run core.workers core.limit core.events.items };

    ghost invariant = { λ core. IsPoolAfter (run core.workers core.limit core.events.items) core.workers core.limit core.events.items core.spots.items core.queues.items core.stop };
}

impl Core {
    /// A pool in which ticket 0 is issued to worker 0. At most `limit` tickets will be issued.
    pub fn new(alloc: Global, workers: u32, limit: u32) -> Result<Core, NoMemory>
        requires some_worker { 1 ≤ workers }
        requires some_ticket { 1 ≤ limit }
        ensures ok { IfOk result (λ core. core ≡ new_pool workers limit) }
        ensures run { IfOk result IsRunOfAccepted }

        // The pool law holds.
        ensures one_spot { IfOk result EachHasOneSpot }
        ensures waits { IfOk result WaitsWhereItStands }
        ensures no_twice { IfOk result StandsOnceAtMost }
        ensures in_order { IfOk result TakesInOrder }
        ensures balance { IfOk result HasBalancedDeques }
        ensures claims { IfOk result ClaimsOnce }
        ensures filings { IfOk result FilesOnce }
        ensures after_claim { IfOk result FilesAfterClaim }
        ensures legal { IfOk result HasLegalShadow }
        ensures replay { IfOk result ReplaysToItself }
    {
        let mut spots = Vec::new(alloc);
        spots.push(Spot::Issued(0))?;
        Ok(Core {
            workers,
            limit,
            events: Vec::new(alloc),
            spots,
            queues: empty_queues(alloc, workers)?,
            stop: None,
        })
    }

    /// One step of a worker. Refusals are tried in this order: a worker or a deque that is not there, a
    /// ticket that was not issued, a claim after a stop, a spot from which the event moves no ticket, an
    /// empty deque, more tickets than the limit, `NoMemory`. A refused event changes nothing.
    pub fn step(&mut self, event: Event) -> Result<(), StepFault>
        ensures answers { RefusesOr StepFault.NoMemory result (refusal self.old event) }
        ensures ok { OnOk result (self.new ≡ happens self.old event) }
        ensures err { OnErr result (self.new ≡ self.old) }
        ensures run { IsRunOfAccepted self.new }

        // The pool law holds of the pool that the call leaves.
        ensures one_spot { EachHasOneSpot self.new }
        ensures waits { WaitsWhereItStands self.new }
        ensures no_twice { StandsOnceAtMost self.new }
        ensures in_order { TakesInOrder self.new }
        ensures balance { HasBalancedDeques self.new }
        ensures claims { ClaimsOnce self.new }
        ensures filings { FilesOnce self.new }
        ensures after_claim { FilesAfterClaim self.new }
        ensures legal { HasLegalShadow self.new }
        ensures replay { ReplaysToItself self.new }
    {
        match self.refusal(event) {
            Some(fault) => Err(fault),
            None => Ok(self.accept(event)?),
        }
    }

    /// An event that is not refused happens. After an error the pool is as it was.
    fn accept(&mut self, event: Event) -> Result<(), NoMemory>
        requires { refusal self.old event ≡ None }
        ensures ok { OnOk result (self.new ≡ happens self.old event) }
        ensures err { OnErr result (self.new ≡ self.old) }
    {
        match event {
            Event::Push { worker, ticket } => self.push(worker, ticket),
            Event::Pop { worker } => self.pop(worker),
            Event::Steal { worker, from } => self.steal(worker, from),
            Event::Claim { worker, ticket } => self.claim(worker, ticket),
            Event::File {
                worker,
                ticket,
                children,
            } => self.file(worker, ticket, children),
            Event::Stop { cause } => self.halt(cause),
        }
    }

    /// Where a ticket is, or `None` where it was not issued. It takes no memory.
    pub fn spot(&self, ticket: u32) -> Option<Spot>
        ensures value { result ≡ spot_of self.now ticket }
        ensures none { IsNone result ↔ (issued self.now ≤ ticket) }
    {
        self.spots.get(ticket as usize).copied()
    }
}

/// An empty queue for each worker.
fn empty_queues(alloc: Global, workers: u32) -> Result<Vec<Queue>, NoMemory>
    ensures { IfOk result (λ queues. queues.items ≡ replicate workers []) }
{
    let mut queues = Vec::new(alloc);
    for _worker in 0..workers {
        queues.push(Queue::new(alloc))?;
    }
    Ok(queues)
}
