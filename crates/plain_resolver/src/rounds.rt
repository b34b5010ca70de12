//! The servers whose addresses are learnt.

ghost use Rattle.std.specs.Prelude.{◌≡◌, ◌++◌, ◌∷◌, [], ℕ, List as Items, length, IfOk, IfSome, OnOk, IsErrOf, if◌then◌else◌};
ghost use Rattle.std.specs.List.{AllByRecursion};
ghost use Rattle.dns_data.specs.Name.{Labels};
ghost use Rattle.net_model.specs.Learnt.{AfterRounds};
ghost use Rattle.net_model.specs.Nearest.{server_names};
ghost use Rattle.plain_resolver.specs.Passed.{HasTooMany, NoneInRounds, IsFirstWithTooMany};
ghost use Rattle.plain_resolver.specs.Shown.{HasMore, ShownAll};
ghost use Rattle.plain_resolver.specs.KnownNames.{IsFirstOf, StaysKnown, StaysUnlessNew, names_learnt, names_known, seen_after, known_of};
ghost use Rattle.zone_lookup.specs.Resting.{Rests};
ghost use Rattle.zone_lookup.specs.Tops.{StandsForTops};

use crate::fault::{LearntFault, ResolveFault};
use crate::known_names::{FollowedNames, KnownName, WaitList};
use crate::resolver::Resolver;
use crate::visitor::AddressSeen;
use crate::walks::visit_walks;
use dns_data::{List, Name, NoMemory, RrType};
use net_model::Config;
use std::alloc::Global;
use zone_lookup::{Hosts, TopServers, learnt_at_tops};

/// How many walks of one query are followed at most where no other limit is named: of a server's name with type A or
/// with type AAAA, to learn its address, as of any query.
pub const MOST_WALKS_FOLLOWED: u32 = 10_000;

/// The names of the servers whose addresses are learnt after as many rounds as there are servers, begun with these. It
/// is `WalksPassed` where for one of the sets from which a round starts some server's name has more than `most` walks of
/// type A or of type AAAA, with the first such server of the first such set.
pub fn learnt(
    alloc: Global,
    config: &Config,
    rewrites: u32,
    from: &List<Name>,
    most: u32,
) -> Result<List<Name>, LearntFault>
    ensures rounds { IfOk result (λ learnt. AfterRounds config.now rewrites (length config.now.servers) from.now learnt) }
    ensures few { OnOk result (NoneInRounds config.now rewrites most from.now (length config.now.servers)) }
    ensures passed { (name : Labels) → IsErrOf result (LearntFault.WalksPassed name) → IsFirstWithTooMany config.now rewrites most from.now name }
{
    let hosts = Hosts::build(alloc, config)?;
    learnt_at(alloc, &hosts, rewrites, from, most)
}

/// The names of the servers whose addresses are learnt after as many rounds as there are servers, begun with these, by
/// the trees of the configuration's zones. It is `WalksPassed` where for one of the sets from which a round starts some
/// server's name has more than `most` walks of type A or of type AAAA, with the first such server of the first such
/// set.
pub fn learnt_at(
    alloc: Global,
    hosts: &Hosts<'_>,
    rewrites: u32,
    from: &List<Name>,
    most: u32,
) -> Result<List<Name>, LearntFault>
    ensures rounds { IfOk result (λ learnt. AfterRounds hosts.now rewrites (length hosts.now.servers) from.now learnt) }
    ensures few { OnOk result (NoneInRounds hosts.now rewrites most from.now (length hosts.now.servers)) }
    ensures passed { (name : Labels) → IsErrOf result (LearntFault.WalksPassed name) → IsFirstWithTooMany hosts.now rewrites most from.now name }
{
    let config = hosts.config();
    let tops = TopServers::unlike(alloc, hosts)?;
    let mut followed = FollowedNames::first(alloc, from.copy(alloc)?);
    let mut known = nothing_known(alloc, config)?;
    for _round in 0..config.servers().len() {
        known = known_while(alloc, hosts, &tops, rewrites, &followed, known, most)?;
        let learnt = names_learnt(alloc, known.items())?;
        if learnt == followed.names {
            return Ok(learnt);
        }
        followed = FollowedNames::after(alloc, followed.names.items(), learnt)?;
    }
    Ok(followed.names)
}

/// The servers' names, of which nothing is known yet.
fn nothing_known(alloc: Global, config: &Config) -> Result<List<KnownName>, NoMemory>
    ensures { IfOk result (λ known. names_known known ≡ server_names config.now) }
{
    let mut known = List::new(alloc);
    for server in config.servers() {
        known.push(KnownName {
            name: server.name.copy(alloc)?,
            learnt: false,
            waits: WaitList::new(alloc),
        })?;
    }
    Ok(known)
}

/// What is known of the names while these are followed, in their order, by what was known before.
fn known_while(
    alloc: Global,
    hosts: &Hosts<'_>,
    tops: &TopServers<'_>,
    rewrites: u32,
    followed: &FollowedNames,
    known: List<KnownName>,
    most: u32,
) -> Result<List<KnownName>, LearntFault>
    requires tops { StandsForTops hosts.now tops.now }
    requires before { AllByRecursion (StaysUnlessNew hosts.now rewrites most followed.now) known }
    ensures names { IfOk result (λ now. names_known now ≡ names_known known) }
    ensures known { IfOk result (AllByRecursion (StaysKnown hosts.now rewrites most followed.now.names)) }
    ensures passed { (name : Labels) → IsErrOf result (LearntFault.WalksPassed name) → IsFirstOf hosts.now rewrites most followed.now.names (names_known known) name }
{
    let mut now = List::new(alloc);
    for one in known {
        now.push(known_again(alloc, hosts, tops, rewrites, followed, one, most)?)?;
    }
    Ok(now)
}

/// What is known of a name while these are followed: what was known before, where nothing of what it waits for is followed
/// newly; else it is asked for.
fn known_again(
    alloc: Global,
    hosts: &Hosts<'_>,
    tops: &TopServers<'_>,
    rewrites: u32,
    followed: &FollowedNames,
    one: KnownName,
    most: u32,
) -> Result<KnownName, LearntFault>
    requires tops { StandsForTops hosts.now tops.now }
    requires before { StaysUnlessNew hosts.now rewrites most followed.now one }
    ensures name { IfOk result (λ now. now.name ≡ one.name) }
    ensures known { IfOk result (StaysKnown hosts.now rewrites most followed.now.names) }
    ensures passed { (other : Labels) → IsErrOf result (LearntFault.WalksPassed other) → (one.name ≡ other) × HasTooMany hosts.now rewrites most followed.now.names one.name }
{
    if one.waits.has_nothing_new(followed) {
        return Ok(one);
    }
    let seen = asked(
        alloc,
        hosts,
        tops,
        rewrites,
        followed.names.items(),
        &one.name,
        most,
    )?;
    Ok(KnownName {
        name: one.name,
        learnt: seen.gives,
        waits: seen.waits,
    })
}

/// The names of those that are known to be learnt, in their order.
fn names_learnt(alloc: Global, known: &[KnownName]) -> Result<List<Name>, NoMemory>
    ensures { IfOk result (λ learnt. learnt ≡ names_learnt known.now) }
{
    let mut learnt = List::new(alloc);
    for one in known {
        put_if(alloc, &mut learnt, &one.name, one.learnt)?;
    }
    Ok(learnt)
}

/// Puts a copy of the name at the end, where it is to be put.
fn put_if(alloc: Global, names: &mut List<Name>, name: &Name, is_put: bool) -> Result<(), NoMemory>
    ensures { OnOk result (names.new ≡ names.old ++ (if is_put then name.now ∷ [] else [])) }
{
    if is_put {
        names.push(name.copy(alloc)?)?;
    }
    Ok(())
}

/// What is seen of the name while these are followed. It is `WalksPassed` with the name where it has more than `most` walks
/// of type A or of type AAAA. No walk is looked at where it is seen at once that the name rests, and it has no more.
fn asked(
    alloc: Global,
    hosts: &Hosts<'_>,
    tops: &TopServers<'_>,
    rewrites: u32,
    followed: &[Name],
    name: &Name,
    most: u32,
) -> Result<AddressSeen, LearntFault>
    requires { StandsForTops hosts.now tops.now }
    ensures known { IfOk result (λ seen. StaysKnown hosts.now rewrites most followed.now (known_of name.now seen)) }
    ensures passed { (other : Labels) → IsErrOf result (LearntFault.WalksPassed other) → (name.now ≡ other) × HasTooMany hosts.now rewrites most followed.now name.now }
{
    match learnt_within(alloc, hosts, tops, name, most)? {
        Some(learnt) => Ok(AddressSeen::new(alloc, learnt)),
        None => seen_by_walks(alloc, hosts, rewrites, followed, name, most),
    }
}

/// Whether an address of a name can be learnt; or `None` where it isn't seen at once that the name rests, or where it has
/// more than `most` walks of a type, which are one at each top server.
fn learnt_within(
    alloc: Global,
    hosts: &Hosts<'_>,
    tops: &TopServers<'_>,
    name: &Name,
    most: u32,
) -> Result<Option<bool>, NoMemory>
    requires { StandsForTops hosts.now tops.now }
    ensures rests { IfOk result (λ found. IfSome found (Rests hosts.now name.now)) }
    ensures few { IfOk result (λ found. IfSome found (λ learnt. (rewrites : ℕ) (followed : Items Labels) → HasTooMany hosts.now rewrites most followed name.now → ⊥)) }
{
    if hosts.config().tops().len() > most as usize {
        return Ok(None);
    }
    learnt_at_tops(alloc, hosts, tops, name)
}

/// What is seen of the name by its walks of type A and of type AAAA. It is `WalksPassed` with the name where it has more
/// than `most` of either.
fn seen_by_walks(
    alloc: Global,
    hosts: &Hosts<'_>,
    rewrites: u32,
    followed: &[Name],
    name: &Name,
    most: u32,
) -> Result<AddressSeen, LearntFault>
    ensures known { IfOk result (λ seen. StaysKnown hosts.now rewrites most followed.now (known_of name.now seen)) }
    ensures passed { (other : Labels) → IsErrOf result (LearntFault.WalksPassed other) → (name.now ≡ other) × HasTooMany hosts.now rewrites most followed.now name.now }
{
    let mut seen = AddressSeen::new(alloc, false);
    let four = Resolver::new(hosts, rewrites, followed, name, RrType::A);
    see_walks(alloc, &four, most, &mut seen)?;
    let six = Resolver::new(hosts, rewrites, followed, name, RrType::Aaaa);
    see_walks(alloc, &six, most, &mut seen)?;
    Ok(seen)
}

/// Looks at the walks of a query. It is `WalksPassed` with its name where there are more than `most`. The walks are counted
/// and looked at, and none is made.
fn see_walks(
    alloc: Global,
    resolver: &Resolver<'_, '_>,
    most: u32,
    seen: &mut AddressSeen,
) -> Result<(), LearntFault>
    ensures shown { OnOk result (ShownAll seen_after resolver.now seen.old seen.new) }
    ensures few { OnOk result (HasMore resolver.now most → ⊥) }
    ensures passed { (other : Labels) → IsErrOf result (LearntFault.WalksPassed other) → (resolver.now.query ≡ other) × HasMore resolver.now most }
{
    match visit_walks(alloc, resolver, most, seen) {
        Ok(()) => Ok(()),
        Err(ResolveFault::WalksPassed) => Err(LearntFault::WalksPassed(
            resolver.query().copy(alloc)?,
        )),
        Err(ResolveFault::NoMemory) => Err(LearntFault::NoMemory),
    }
}
