//! The walk of a query that has no other with the type.

ghost use Rattle.std.specs.Prelude.{◌≡◌, ◌++◌, IfOk, IfSome, OnOk};
ghost use Rattle.std.specs.Option.{option_to_list};
ghost use Rattle.query_verdicts.specs.OnlyWalk.{IsOnlyWalk, IsPutOnly};

use dns_data::{Boxed, List, Name, NoMemory, RrType};
use net_model::{Hop, Leaf, State, Walk};
use std::alloc::Global;
use zone_lookup::{Step, Walker, starts, steps_of};

/// No walk of more states is followed.
const MOST_STATES: u32 = 256;

/// The walk of a query with a type that has no other, where that is seen: it begins at the one top server, and each of its
/// states leads to one thing alone. It is `None` for other queries. No graph is made.
pub(crate) fn only_walk(
    alloc: Global,
    walker: &Walker<'_, '_>,
    query: &Name,
    rtype: RrType,
) -> Result<Option<Walk>, NoMemory>
    ensures { IfOk result (λ found. IfSome found (IsOnlyWalk walker.now query.now rtype)) }
{
    let first = starts(alloc, walker.hosts(), query)?;
    match first.items() {
        [state] => {
            let mut states = List::new(alloc);
            let mut hops = List::new(alloc);
            match put_only(
                alloc,
                walker,
                state.get(),
                rtype,
                MOST_STATES,
                &mut states,
                &mut hops,
            )? {
                Some(leaf) => Ok(Some(Walk { states, hops, leaf })),
                None => Ok(None),
            }
        }
        _ => Ok(None),
    }
}

/// The end of the walk from a state that has no other, where that is seen and it has no more states than these. Its states
/// and hops are put behind the others.
fn put_only(
    alloc: Global,
    walker: &Walker<'_, '_>,
    state: &State,
    rtype: RrType,
    most: u32,
    states: &mut List<State>,
    hops: &mut List<Hop>,
) -> Result<Option<Leaf>, NoMemory>
    ensures { IfOk result (λ found. IfSome found (IsPutOnly walker.now rtype state.now states.old hops.old states.new hops.new)) }
{
    if most == 0 {
        return Ok(None);
    }
    let steps = steps_of(alloc, walker, state, rtype)?;
    let [step] = steps.items() else {
        return Ok(None);
    };
    states.push(state.copy(alloc)?)?;
    match step {
        Step::Go(hop, to) => {
            hops.push(hop.get().copy(alloc)?)?;
            // Named, since the proof speaks of the end that comes where memory suffices.
            let end = put_only(alloc, walker, to.get(), rtype, most - 1, states, hops)?;
            Ok(end)
        }
        Step::End(hop, leaf) => {
            put_last(alloc, hop, hops)?;
            Ok(Some(leaf.get().copy(alloc)?))
        }
    }
}

/// Puts the hop to a walk's end behind the others, if there is one.
fn put_last(alloc: Global, last: &Option<Boxed<Hop>>, hops: &mut List<Hop>) -> Result<(), NoMemory>
    ensures { OnOk result (hops.new ≡ hops.old ++ option_to_list last.now) }
{
    if let Some(hop) = last {
        hops.push(hop.get().copy(alloc)?)?;
    }
    Ok(())
}
