//! States and walks of a query.

ghost use Rattle.std.specs.Prelude.{◌≡◌, IfOk};

use crate::place::{Cut, Place};
use dns_data::{List, Name, NoMemory, Rdata, copied_data};
use std::alloc::Global;

/// Where a query stands: at which server it asks for which name, whether the name still carries the query's
/// last labels (no CNAME was followed), the labels of the zone cut that led here, the rewrites used and the
/// place of the last, and the origin of the zone in which the server looks the name up.
#[derive(Debug, Drop)]
pub struct State {
    pub server: Name,
    pub name: Name,
    pub carried: bool,
    pub cut: u32,
    pub used: u32,
    pub last: Option<Place>,
    pub zone: Option<Name>,
}

/// What a walk takes from one state to the next, or to its end at a name server.
#[derive(Debug, Drop)]
pub enum Hop {
    /// A referral to one name server.
    Refer(Cut),
    /// A rewrite of the name.
    Rewrite {
        place: Place,
        by_dname: bool,
        to: Name,
    },
}

/// How a walk ends, a variant for each way.
#[derive(Debug, Drop)]
pub enum Leaf {
    /// The data of the type, in the order of their texts.
    Answer(List<Rdata>),
    /// The name exists and owns no record of the type.
    NoData,
    /// The name doesn't exist.
    NxDomain,
    /// The server holds no zone for the name.
    Outside,
    /// The name server isn't configured.
    Unhosted(Name),
    /// The name server is configured and doesn't serve the delegated zone (RFC 1912 section 2.8).
    Lame(Name),
    /// As many rewrites as are allowed were used; the place of the one that wasn't made.
    Limit(Place),
    /// The rewritten name would have more than 255 octets; the place of that rewrite (RFC 6672 section 2.2).
    Overlong(Place),
    /// No address of the name server can be learnt.
    NoAddress(Name),
}

/// A walk of a query: its states, what it took from each to the next (and to the name server at which it
/// ends), and its end.
#[derive(Debug, Drop)]
pub struct Walk {
    pub states: List<State>,
    pub hops: List<Hop>,
    pub leaf: Leaf,
}

impl State {
    /// An equal state.
    pub fn copy(&self, alloc: Global) -> Result<State, NoMemory>
        ensures { IfOk result (λ copy. copy ≡ self.now) }
    {
        Ok(State {
            server: self.server.copy(alloc)?,
            name: self.name.copy(alloc)?,
            carried: self.carried,
            cut: self.cut,
            used: self.used,
            last: copied_last(alloc, &self.last)?,
            zone: copied_zone(alloc, &self.zone)?,
        })
    }
}

/// An equal place of the last rewrite.
fn copied_last(alloc: Global, last: &Option<Place>) -> Result<Option<Place>, NoMemory>
    ensures { IfOk result (λ copy. copy ≡ last.now) }
{
    match last {
        Some(place) => Ok(Some(place.copy(alloc)?)),
        None => Ok(None),
    }
}

/// An equal origin of a state's zone.
fn copied_zone(alloc: Global, zone: &Option<Name>) -> Result<Option<Name>, NoMemory>
    ensures { IfOk result (λ copy. copy ≡ zone.now) }
{
    match zone {
        Some(origin) => Ok(Some(origin.copy(alloc)?)),
        None => Ok(None),
    }
}

impl Hop {
    /// An equal hop.
    pub fn copy(&self, alloc: Global) -> Result<Hop, NoMemory>
        ensures { IfOk result (λ copy. copy ≡ self.now) }
    {
        match self {
            Hop::Refer(cut) => Ok(Hop::Refer(cut.copy(alloc)?)),
            Hop::Rewrite {
                place,
                by_dname,
                to,
            } => Ok(Hop::Rewrite {
                place: place.copy(alloc)?,
                by_dname: *by_dname,
                to: to.copy(alloc)?,
            }),
        }
    }
}

impl Leaf {
    /// An equal end.
    pub fn copy(&self, alloc: Global) -> Result<Leaf, NoMemory>
        ensures { IfOk result (λ copy. copy ≡ self.now) }
    {
        match self {
            Leaf::Answer(rdata) => Ok(Leaf::Answer(copied_data(alloc, rdata.items())?)),
            Leaf::NoData => Ok(Leaf::NoData),
            Leaf::NxDomain => Ok(Leaf::NxDomain),
            Leaf::Outside => Ok(Leaf::Outside),
            Leaf::Unhosted(ns) => Ok(Leaf::Unhosted(ns.copy(alloc)?)),
            Leaf::Lame(ns) => Ok(Leaf::Lame(ns.copy(alloc)?)),
            Leaf::Limit(place) => Ok(Leaf::Limit(place.copy(alloc)?)),
            Leaf::Overlong(place) => Ok(Leaf::Overlong(place.copy(alloc)?)),
            Leaf::NoAddress(ns) => Ok(Leaf::NoAddress(ns.copy(alloc)?)),
        }
    }
}

impl Walk {
    /// An equal walk.
    pub fn copy(&self, alloc: Global) -> Result<Walk, NoMemory>
        ensures { IfOk result (λ copy. copy ≡ self.now) }
    {
        let states = copied_states(alloc, self.states.items())?;
        let hops = copied_hops(alloc, self.hops.items())?;
        let leaf = self.leaf.copy(alloc)?;
        Ok(Walk { states, hops, leaf })
    }
}

/// Equal states.
pub fn copied_states(alloc: Global, states: &[State]) -> Result<List<State>, NoMemory>
    ensures { IfOk result (λ copies. copies ≡ states.now) }
{
    let mut copies = List::new(alloc);
    for state in states {
        copies.push(state.copy(alloc)?)?;
    }
    Ok(copies)
}

/// Equal hops.
pub fn copied_hops(alloc: Global, hops: &[Hop]) -> Result<List<Hop>, NoMemory>
    ensures { IfOk result (λ copies. copies ≡ hops.now) }
{
    let mut copies = List::new(alloc);
    for hop in hops {
        copies.push(hop.copy(alloc)?)?;
    }
    Ok(copies)
}
