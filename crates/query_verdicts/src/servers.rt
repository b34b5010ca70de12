//! Whether addresses of the servers' names are learnt.

ghost use Rattle.std.specs.Prelude.{IfOk, IfSome, OnOk, IsErrOf};
ghost use Rattle.address_deps.specs.Addresses.{IsAddressOf};
ghost use Rattle.query_verdicts.specs.Learnt.{AreKnown, AreAddressesOrPassed};
ghost use Rattle.query_verdicts.specs.Verdict.{PassesStates};
ghost use Rattle.zone_lookup.specs.Resting.{Rests};
ghost use Rattle.zone_lookup.specs.Tops.{StandsForTops};

use crate::known_classes::KnownClasses;
use crate::queries::{Queries, graph_of};
use address_deps::{AddressLearnt, learnt_by_graph};
use dns_data::{List, Name, NoMemory, RrType};
use interp_graph::GraphFault;
use zone_lookup::{TopServers, learnt_at_tops};

/// A graph of so many nodes is large: what it tells of its name is noted for others, for which it would be made again.
const MANY: u32 = 64;

/// Whether an address of each server's name is learnt, in their order, or the first name that reaches too many pairs of
/// state and type.
pub(crate) fn addresses_of_servers<'a>(
    queries: &Queries<'a>,
) -> Result<Result<List<AddressLearnt<'a>>, Name>, NoMemory>
    ensures { IfOk result (AreAddressesOrPassed queries.now.trees queries.now.rewrites queries.now.states) }
{
    let config = queries.trees.config();
    let tops = TopServers::unlike(queries.alloc, &queries.trees)?;
    let mut classes = KnownClasses::new(queries.alloc);
    let mut addresses = List::new(queries.alloc);
    for server in config.servers() {
        // The labels are read, so that the length of the name is known here.
        let _ = server.name.labels();
        match address_of(queries, &tops, &mut classes, &server.name) {
            Ok(one) => addresses.push(one)?,
            Err(GraphFault::StatesPassed) => return Ok(Err(server.name.copy(queries.alloc)?)),
            Err(GraphFault::NoMemory) => return Err(NoMemory),
        }
    }
    Ok(Ok(addresses))
}

/// Whether an address of a server's name is learnt. No graph is made of one that is seen at once to rest, where it reaches
/// no more pairs of state and type than it may, or of which it is known by its class.
fn address_of<'a>(
    queries: &Queries<'a>,
    tops: &TopServers<'_>,
    classes: &mut KnownClasses,
    name: &Name,
) -> Result<AddressLearnt<'a>, GraphFault>
    requires tops { StandsForTops queries.now.trees tops.now }
    requires known { AreKnown queries.now.trees queries.now.rewrites queries.now.states classes.old }
    ensures address { IfOk result (IsAddressOf queries.now.trees queries.now.rewrites name.now) }
    ensures few { OnOk result (PassesStates queries.now.trees queries.now.rewrites queries.now.states name.now → ⊥) }
    ensures passed { IsErrOf result GraphFault.StatesPassed → PassesStates queries.now.trees queries.now.rewrites queries.now.states name.now }
    ensures known { OnOk result (AreKnown queries.now.trees queries.now.rewrites queries.now.states classes.new) }
{
    if let Some(learnt) = learnt_within(queries, tops, name)? {
        return Ok(AddressLearnt::Known(learnt));
    }
    if let Some(learnt) = classes.learnt(queries.alloc, name)? {
        return Ok(AddressLearnt::Known(learnt));
    }
    address_by_graph(queries, classes, name)
}

/// What the graph of a server's name tells of its address; the graph is kept no longer. Where it is large and the servers
/// that are followed make no difference, that is noted for other names of the class.
fn address_by_graph<'a>(
    queries: &Queries<'a>,
    classes: &mut KnownClasses,
    name: &Name,
) -> Result<AddressLearnt<'a>, GraphFault>
    requires { AreKnown queries.now.trees queries.now.rewrites queries.now.states classes.old }
    ensures address { IfOk result (IsAddressOf queries.now.trees queries.now.rewrites name.now) }
    ensures few { OnOk result (PassesStates queries.now.trees queries.now.rewrites queries.now.states name.now → ⊥) }
    ensures passed { IsErrOf result GraphFault.StatesPassed → PassesStates queries.now.trees queries.now.rewrites queries.now.states name.now }
    ensures known { OnOk result (AreKnown queries.now.trees queries.now.rewrites queries.now.states classes.new) }
{
    let graph = graph_of(queries, name)?;
    let address = learnt_by_graph(queries.alloc, &queries.trees, &graph)?;
    if graph.nodes() >= MANY {
        note_known(queries, classes, name, &address)?;
    }
    Ok(address)
}

/// Notes whether an address of a name is learnt for other names of its class, if the servers that are followed make no
/// difference.
fn note_known(
    queries: &Queries<'_>,
    classes: &mut KnownClasses,
    name: &Name,
    address: &AddressLearnt<'_>,
) -> Result<(), NoMemory>
    requires known { AreKnown queries.now.trees queries.now.rewrites queries.now.states classes.old }
    requires address { IsAddressOf queries.now.trees queries.now.rewrites name.now address.now }
    requires few { PassesStates queries.now.trees queries.now.rewrites queries.now.states name.now → ⊥ }
    ensures { OnOk result (AreKnown queries.now.trees queries.now.rewrites queries.now.states classes.new) }
{
    match address {
        AddressLearnt::Known(learnt) => classes.note(queries.alloc, &queries.trees, name, *learnt),
        AddressLearnt::ByPaths(_) => Ok(()),
    }
}

/// Whether an address of a name can be learnt; or `None` where it isn't seen at once that the name rests, or where it
/// reaches more pairs of state and type than it may, which are the twelve types at each top server.
fn learnt_within(
    queries: &Queries<'_>,
    tops: &TopServers<'_>,
    name: &Name,
) -> Result<Option<bool>, NoMemory>
    requires { StandsForTops queries.now.trees tops.now }
    ensures rests { IfOk result (λ learnt. IfSome learnt (Rests queries.now.trees name.now)) }
    ensures few { IfOk result (λ found. IfSome found (λ learnt. PassesStates queries.now.trees queries.now.rewrites queries.now.states name.now → ⊥)) }
{
    let count = queries.trees.config().tops().len();
    if count > queries.states as usize / RrType::COUNT {
        return Ok(None);
    }
    learnt_at_tops(queries.alloc, &queries.trees, tops, name)
}
