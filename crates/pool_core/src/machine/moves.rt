//! What an accepted event does.

ghost use Rattle.std.specs.Prelude.{◌≡◌, ◌<◌, ◌∷◌, ◌++◌, [], OnOk, OnErr, None, vec_len, vec_capacity, length, drop, slice_get, slice_set, IfSome};
ghost use Rattle.std.specs.List.{slice_index_or};
ghost use Rattle.pool_core.specs.Refusals.{refusal};
ghost use Rattle.pool_core.specs.Steps.{happens, first_held};

use super::Core;
use crate::event::{Event, StopCause};
use crate::queue::Queue;
use crate::spot::Spot;
use dns_data::NoMemory;

impl Core {
    /// The ticket goes to the back of the worker's deque. After an error the pool is as it was.
    pub(super) fn push(&mut self, worker: u32, ticket: u32) -> Result<(), NoMemory>
        requires { refusal self.old (Event.Push worker ticket) ≡ None }
        ensures ok { OnOk result (self.new ≡ happens self.old (Event.Push worker ticket)) }
        ensures err { OnErr result (self.new ≡ self.old) }
    {
        self.events.reserve(1)?;
        self.queues[worker as usize].push_back(ticket)?;
        self.spots[ticket as usize] = Spot::Waiting(worker);
        store(&mut self.events, Event::Push { worker, ticket });
        Ok(())
    }

    /// The worker takes the first ticket of its deque. After an error the pool is as it was.
    pub(super) fn pop(&mut self, worker: u32) -> Result<(), NoMemory>
        requires { refusal self.old (Event.Pop worker) ≡ None }
        ensures ok { OnOk result (self.new ≡ happens self.old (Event.Pop worker)) }
        ensures err { OnErr result (self.new ≡ self.old) }
    {
        self.events.push(Event::Pop { worker })?;
        hold_first(&mut self.queues, &mut self.spots, worker, worker);
        Ok(())
    }

    /// The worker takes the first ticket of the deque `from`. After an error the pool is as it was.
    pub(super) fn steal(&mut self, worker: u32, from: u32) -> Result<(), NoMemory>
        requires { refusal self.old (Event.Steal worker from) ≡ None }
        ensures ok { OnOk result (self.new ≡ happens self.old (Event.Steal worker from)) }
        ensures err { OnErr result (self.new ≡ self.old) }
    {
        self.events.push(Event::Steal { worker, from })?;
        hold_first(&mut self.queues, &mut self.spots, worker, from);
        Ok(())
    }

    /// The ticket is claimed by the worker. After an error the pool is as it was.
    pub(super) fn claim(&mut self, worker: u32, ticket: u32) -> Result<(), NoMemory>
        requires { refusal self.old (Event.Claim worker ticket) ≡ None }
        ensures ok { OnOk result (self.new ≡ happens self.old (Event.Claim worker ticket)) }
        ensures err { OnErr result (self.new ≡ self.old) }
    {
        self.events.push(Event::Claim { worker, ticket })?;
        self.spots[ticket as usize] = Spot::Claimed(worker);
        Ok(())
    }

    /// The ticket is filed, and the next numbers are issued to the worker. After an error the pool is as it was.
    pub(super) fn file(&mut self, worker: u32, ticket: u32, children: u32) -> Result<(), NoMemory>
        requires { refusal self.old (Event.File worker ticket children) ≡ None }
        ensures ok { OnOk result (self.new ≡ happens self.old (Event.File worker ticket children)) }
        ensures err { OnErr result (self.new ≡ self.old) }
    {
        self.events.reserve(1)?;
        let issued = self.spots.len() + children as usize;
        self.spots.resize(issued, Spot::Issued(worker))?;
        self.spots[ticket as usize] = Spot::Filed;
        let event = Event::File {
            worker,
            ticket,
            children,
        };
        store(&mut self.events, event);
        Ok(())
    }

    /// The first cause of a stop is kept. After an error the pool is as it was.
    pub(super) fn halt(&mut self, cause: StopCause) -> Result<(), NoMemory>
        ensures ok { OnOk result (self.new ≡ happens self.old (Event.Stop cause)) }
        ensures err { OnErr result (self.new ≡ self.old) }
    {
        self.events.push(Event::Stop { cause })?;
        let first = self.stop.or(Some(cause));
        self.stop = first;
        Ok(())
    }
}

/// Stores an event in the room that there is.
fn store(events: &mut Vec<Event>, event: Event)
    requires { vec_len events.old < vec_capacity events.old }
    ensures { events.new.items ≡ events.old.items ++ event ∷ [] }
{
    events.push(event).unwrap();
}

/// The worker takes the first ticket of a queue.
fn hold_first(queues: &mut [Queue], spots: &mut [Spot], worker: u32, from: u32)
    requires queue { from < length queues.old }
    requires ticket { IfSome (slice_get (slice_index_or queues.old from []) 0) (λ ticket. ticket < length spots.old) }
    ensures queues { queues.new ≡ slice_set queues.old from (drop 1 (slice_index_or queues.old from [])) }
    ensures spots { spots.new ≡ first_held spots.old worker (slice_index_or queues.old from []) }
{
    if let Some(ticket) = queues[from as usize].pop_front() {
        spots[ticket as usize] = Spot::Held(worker);
    }
}
