//! The pool machine, which no worker runs: a model of their steps.

use pool_core::{Core, Event, Spot, StepFault, StopCause};
use std::alloc::Global;
use std::test::Fail;

// Worker 1 steals the first ticket and files it with two children, of which it takes one: then all three tickets are
// issued.
#[test]
fn tickets_go_from_deques_to_their_filing_up_to_the_limit(rt: HostRuntime) -> Result<(), Fail> {
    let mut core = Core::new(rt.alloc(), 2, 3)?;
    assert!(rt; is_refused_before(rt.alloc(), &mut core));
    assert!(rt; first_ticket_is_filed(&mut core));
    assert!(rt; second_ticket_is_claimed(&mut core));
    assert!(rt; has_spots(&core));
    assert!(rt; is_full(&mut core));
    Ok(())
}

/// Whether the first ticket, which waits where it was issued, goes by a thief to its filing.
fn first_ticket_is_filed(core: &mut Core) -> bool {
    happen(
        core,
        &[
            Event::Push {
                worker: 0,
                ticket: 0,
            },
            Event::Steal { worker: 1, from: 0 },
            Event::Claim {
                worker: 1,
                ticket: 0,
            },
            Event::File {
                worker: 1,
                ticket: 0,
                children: 2,
            },
        ],
    )
}

/// Whether the second goes by its own deque to its claim.
fn second_ticket_is_claimed(core: &mut Core) -> bool {
    happen(
        core,
        &[
            Event::Push {
                worker: 1,
                ticket: 1,
            },
            Event::Pop { worker: 1 },
            Event::Claim {
                worker: 1,
                ticket: 1,
            },
        ],
    )
}

/// Whether none of the events is refused.
fn happen(core: &mut Core, events: &[Event]) -> bool {
    for event in events {
        if refusal(core, *event).is_some() {
            return false;
        }
    }
    true
}

/// Why the event is refused.
fn refusal(core: &mut Core, event: Event) -> Option<StepFault> {
    core.step(event).err()
}

/// Whether the first ticket is filed, the second claimed, and the third issued.
fn has_spots(core: &Core) -> bool {
    core.spot(0) == Some(Spot::Filed)
        && core.spot(1) == Some(Spot::Claimed(1))
        && core.spot(2) == Some(Spot::Issued(1))
}

/// Whether a filing that would issue a fourth ticket is refused, and after a stop a claim.
fn is_full(core: &mut Core) -> bool {
    let fourth = Event::File {
        worker: 1,
        ticket: 1,
        children: 1,
    };
    let stop = Event::Stop {
        cause: StopCause::Full,
    };
    let claim = Event::Claim {
        worker: 1,
        ticket: 2,
    };
    let full = StepFault::TooMany {
        issued: 3,
        limit: 3,
    };
    refusal(core, fourth) == Some(full)
        && refusal(core, stop).is_none()
        && refusal(core, claim) == Some(StepFault::Stopped)
}

/// Whether a claim is refused of the first ticket before a worker took it. No clause tells the text of a fault.
fn is_refused_before(alloc: Global, core: &mut Core) -> bool {
    let claim = Event::Claim {
        worker: 1,
        ticket: 0,
    };
    match refusal(core, claim) {
        Some(fault) => has_text(
            alloc,
            fault,
            "ticket 0 is not where the event takes it from, but Issued(0)",
        ),
        None => false,
    }
}

/// Whether the fault has this text.
fn has_text(alloc: Global, fault: StepFault, text: &str) -> bool {
    match format!(in alloc; "{fault}") {
        Ok(told) => told.as_str() == text,
        Err(_) => false,
    }
}
