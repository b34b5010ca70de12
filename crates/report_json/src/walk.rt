//! Walks, as lists of their steps.

ghost use Rattle.std.specs.Prelude.{◌≡◌, ◌++◌, length, IfOk, OnOk};
ghost use Rattle.serde.specs.Event.{WritesEach};
ghost use Rattle.serde_json.specs.Events.{SendsValue};
ghost use Rattle.report_json.specs.Walks.{hop_value, hop_values, leaf_value, end_values, answer_value, absence_value, stop_value, unmade_value, walk_value, walk_text, rewrite_word};

use crate::object::{name, send_object, texts, word};
use crate::written::{Written, compact_text};
use dns_data::{Name, NoMemory, Octets, Rdata};
use net_model::{Hop, Leaf, Place, State, Walk};
use serde::Serializer;
use std::alloc::Global;

/// The text of a walk, as it stands in a report, without a line feed.
pub fn walk_text(alloc: Global, walk: &Walk) -> Result<Octets, NoMemory>
    ensures { IfOk result (λ text. text ≡ walk_text walk.now) }
{
    Ok(Octets::from_vec(compact_text(alloc, walk)?))
}

impl Written for Walk {
    ghost value = { walk_value };

    fn send<S: Serializer>(&self, alloc: Global, out: &mut S) -> Result<(), S::Error> {
        send_walk(alloc, self, out)
    }
}

/// Writes a walk: its hops, and its end in the last state.
fn send_walk<S: Serializer>(alloc: Global, walk: &Walk, out: &mut S) -> Result<(), S::Error>
    ensures { OnOk result (SendsValue (walk_value walk.now) (S.written out.old) (S.written out.new)) }
{
    let states = walk.states.items();
    let hops = walk.hops.items();
    out.begin_seq(Some(step_count(states, hops)))?;
    send_hops(alloc, states, hops, out)?;
    send_end(alloc, states, &walk.leaf, out)?;
    out.end_seq()
}

/// How many steps a walk has.
fn step_count(states: &[State], hops: &[Hop]) -> usize
    ensures { (leaf : Leaf) → result ≡ length (hop_values states.now hops.now ++ end_values leaf states.now) }
{
    if states.is_empty() {
        return 0;
    }
    states.len().min(hops.len()) + 1
}

/// Writes the hops, each in its state.
fn send_hops<S: Serializer>(
    alloc: Global,
    states: &[State],
    hops: &[Hop],
    out: &mut S,
) -> Result<(), S::Error>
    ensures { OnOk result (WritesEach SendsValue (hop_values states.now hops.now) (S.written out.old) (S.written out.new)) }
{
    for (i, hop) in hops.iter().enumerate() {
        if let Some(state) = states.get(i) {
            send_hop(alloc, state, hop, out)?;
        }
    }
    Ok(())
}

/// Writes the end of a walk, in its last state.
fn send_end<S: Serializer>(
    alloc: Global,
    states: &[State],
    leaf: &Leaf,
    out: &mut S,
) -> Result<(), S::Error>
    ensures { OnOk result (WritesEach SendsValue (end_values leaf.now states.now) (S.written out.old) (S.written out.new)) }
{
    match states.last() {
        Some(state) => send_leaf(alloc, state, leaf, out),
        None => Ok(()),
    }
}

/// Writes what a walk takes from a state.
fn send_hop<S: Serializer>(
    alloc: Global,
    state: &State,
    hop: &Hop,
    out: &mut S,
) -> Result<(), S::Error>
    ensures { OnOk result (SendsValue (hop_value state.now hop.now) (S.written out.old) (S.written out.new)) }
{
    match hop {
        Hop::Refer(cut) => {
            let members = [
                name("cut", &cut.cut),
                word("did", "refer"),
                name("name", &state.name),
                name("ns", &cut.ns),
                name("server", &cut.server),
            ];
            send_object(alloc, members.as_slice(), Some(&cut.zone), out)
        }
        Hop::Rewrite {
            place,
            by_dname,
            to,
        } => {
            let members = [
                word("did", rewrite_word(*by_dname)),
                name("name", &state.name),
                name("owner", &place.owner),
                name("server", &place.server),
                name("to", to),
            ];
            send_object(alloc, members.as_slice(), Some(&place.zone), out)
        }
    }
}

/// What a rewrite was made by.
fn rewrite_word(by_dname: bool) -> &'static str
    ensures { result.now ≡ rewrite_word by_dname }
{
    if by_dname { "dname" } else { "cname" }
}

/// Writes the end of a walk in a state.
fn send_leaf<S: Serializer>(
    alloc: Global,
    state: &State,
    leaf: &Leaf,
    out: &mut S,
) -> Result<(), S::Error>
    ensures { OnOk result (SendsValue (leaf_value state.now leaf.now) (S.written out.old) (S.written out.new)) }
{
    match leaf {
        Leaf::Answer(rdata) => send_answer(alloc, state, rdata.items(), out),
        Leaf::NoData => send_absence(alloc, state, "nodata", out),
        Leaf::NxDomain => send_absence(alloc, state, "nxdomain", out),
        Leaf::Outside => send_absence(alloc, state, "outside", out),
        Leaf::Unhosted(ns) => send_stop(alloc, state, "unhosted", ns, out),
        Leaf::Lame(ns) => send_stop(alloc, state, "lame", ns, out),
        Leaf::Limit(place) => send_unmade(alloc, state, "limit", place, out),
        Leaf::Overlong(place) => send_unmade(alloc, state, "overlong", place, out),
        Leaf::NoAddress(ns) => send_stop(alloc, state, "no-address", ns, out),
    }
}

/// Writes that a server answers with data.
fn send_answer<S: Serializer>(
    alloc: Global,
    state: &State,
    rdata: &[Rdata],
    out: &mut S,
) -> Result<(), S::Error>
    ensures { OnOk result (SendsValue (answer_value state.now rdata.now) (S.written out.old) (S.written out.new)) }
{
    let members = [
        word("did", "answer"),
        name("name", &state.name),
        texts("rdata", rdata),
        name("server", &state.server),
    ];
    send_object(alloc, members.as_slice(), state.zone.as_ref(), out)
}

/// Writes that there is nothing at the state's name.
fn send_absence<S: Serializer>(
    alloc: Global,
    state: &State,
    did: &'static str,
    out: &mut S,
) -> Result<(), S::Error>
    ensures { OnOk result (SendsValue (absence_value state.now did.entry.now) (S.written out.old) (S.written out.new)) }
{
    let members = [
        word("did", did),
        name("name", &state.name),
        name("server", &state.server),
    ];
    send_object(alloc, members.as_slice(), state.zone.as_ref(), out)
}

/// Writes that a walk stops at a name server.
fn send_stop<S: Serializer>(
    alloc: Global,
    state: &State,
    did: &'static str,
    ns: &Name,
    out: &mut S,
) -> Result<(), S::Error>
    ensures { OnOk result (SendsValue (stop_value state.now did.entry.now ns.now) (S.written out.old) (S.written out.new)) }
{
    let members = [word("did", did), name("name", &state.name), name("ns", ns)];
    send_object(alloc, members.as_slice(), None, out)
}

/// Writes that a rewrite isn't made.
fn send_unmade<S: Serializer>(
    alloc: Global,
    state: &State,
    did: &'static str,
    place: &Place,
    out: &mut S,
) -> Result<(), S::Error>
    ensures { OnOk result (SendsValue (unmade_value state.now did.entry.now place.now) (S.written out.old) (S.written out.new)) }
{
    let members = [
        word("did", did),
        name("name", &state.name),
        name("owner", &place.owner),
        name("server", &state.server),
    ];
    send_object(alloc, members.as_slice(), state.zone.as_ref(), out)
}
