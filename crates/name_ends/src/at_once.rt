//! Names whose walks end at the top servers, where they begin, or at name servers that aren't configured.

ghost use Rattle.std.specs.Prelude.{◌≡◌, ◌==◌, ◌∷◌, [], ℕ, List, false, length, map, not, IfSome};
ghost use Rattle.std.specs.List.{list_any};
ghost use Rattle.dns_data.specs.Name.{Labels};
ghost use Rattle.net_model.specs.Nearest.{is_configured};
ghost use Rattle.net_model.specs.Step.{following};
ghost use Rattle.name_ends.specs.Asked.{ends_in};
ghost use Rattle.name_ends.specs.AtOnce.{AreSeen, RefersOutside, data_ends, either_ends, either_seen, no_ends, plain_ends, seen_alike};

use crate::ends::{NameEnds, TypeEnds};
use dns_data::{Name, Rdata, RrType};
use zone_lookup::{Hosts, Reply, reply_of};

/// How many top servers there are at most where names are looked up at each of them.
const MOST_TOPS: usize = 8;

/// How many name servers a zone cut has at most that is looked at.
const MOST_SERVERS: usize = 100;

/// What is told of walks of type A and of those of type AAAA.
#[derive(Clone, Copy, Debug)]
pub(crate) struct SeenEnds {
    pub four: TypeEnds,
    pub six: TypeEnds,
}

/// How the walks of a name end, if that is seen without following one: at each top server what it replies ends them, or
/// they end at name servers that aren't configured. There are few walks then. It takes no memory.
pub(crate) fn ends_at_once(hosts: &Hosts<'_>, name: &Name) -> Option<NameEnds>
    ensures { IfSome result (λ ends. (rewrites : ℕ) (followed : List Labels) → ends ≡ ends_in (following hosts.now rewrites followed) name.now) }
{
    let tops = hosts.config().tops();
    if tops.len() > MOST_TOPS {
        return None;
    }
    let seen = seen_at(hosts, tops, name)?;
    Some(NameEnds {
        four: Some(seen.four),
        six: Some(seen.six),
    })
}

/// How the walks end that begin at these servers, if each ends there at once.
fn seen_at(hosts: &Hosts<'_>, servers: &[Name], name: &Name) -> Option<SeenEnds>
    ensures { IfSome result (AreSeen hosts.now name.now servers.now) }
{
    let mut seen = alike(no_ends());
    for server in servers {
        let here = ends_at(hosts, server, name)?;
        seen = either(&seen, &here);
    }
    Some(seen)
}

/// How the walks end that begin at the server, if each ends there at once.
#[tactic(auto, using(crate::proofs::WalksAtOnce::outside_seen, crate::proofs::WalksAtOnce::nothing_seen, crate::proofs::WalksAtOnce::records_seen, crate::proofs::WalksAtOnce::refers_seen))]
fn ends_at(hosts: &Hosts<'_>, server: &Name, name: &Name) -> Option<SeenEnds>
    ensures { IfSome result (AreSeen hosts.now name.now (server.now ∷ [])) }
{
    match reply_of(hosts, server, name) {
        Reply::Outside => Some(alike(plain(false, false, false, true, false))),
        Reply::Records(tree, owner) => Some(SeenEnds {
            four: by_data(tree.set(owner, RrType::A)),
            six: by_data(tree.set(owner, RrType::Aaaa)),
        }),
        Reply::Nothing(_) => Some(alike(plain(false, false, true, false, false))),
        Reply::Refers(tree, cut) => unhosted_at(hosts, tree.name_servers(cut)),
        _ => None,
    }
}

/// What is told of walks that lead to these name servers, if there aren't too many and none of them is configured.
fn unhosted_at(hosts: &Hosts<'_>, names: &[&Name]) -> Option<SeenEnds>
    ensures { IfSome result (RefersOutside hosts.now (map (λ name. name.now) names.now)) }
{
    if names.len() > MOST_SERVERS {
        return None;
    }
    if some_configured(hosts, names) {
        return None;
    }
    Some(alike(by_servers(names)))
}

/// What is told of walks that end at these name servers, one at each.
fn by_servers(names: &[&Name]) -> TypeEnds
    ensures { result ≡ plain_ends false false false false (not (length names.now == 0)) }
{
    match names {
        [] => no_ends(),
        [_, ..] => plain(false, false, false, false, true),
    }
}

/// Whether one of the servers is configured.
fn some_configured(hosts: &Hosts<'_>, names: &[&Name]) -> bool
    ensures { result ≡ list_any (λ name. is_configured hosts.now name.now) names.now }
{
    names.iter().any(|name| is_configured(hosts, *name))
}

/// Whether the server is configured.
fn is_configured(hosts: &Hosts<'_>, name: &Name) -> bool
    ensures { result ≡ is_configured hosts.now name.now }
{
    hosts.host(name).is_some()
}

/// What is told of walks that end in the same with both types.
fn alike(ends: TypeEnds) -> SeenEnds
    ensures { result ≡ seen_alike ends }
{
    SeenEnds {
        four: ends,
        six: ends,
    }
}

/// What is told of a walk that ends in these data, or in that there are none.
fn by_data(all: &[Rdata]) -> TypeEnds
    ensures { result ≡ data_ends all.now }
{
    match all {
        [] => plain(false, true, false, false, false),
        [_, ..] => plain(true, false, false, false, false),
    }
}

/// The kinds of no end.
fn no_ends() -> TypeEnds
    ensures { result ≡ no_ends }
{
    plain(false, false, false, false, false)
}

/// What is told of walks without a rewrite, of which some end in each of these, if it is so.
fn plain(answer: bool, no_data: bool, no_name: bool, outside: bool, unhosted: bool) -> TypeEnds
    ensures { result ≡ plain_ends answer no_data no_name outside unhosted }
{
    TypeEnds {
        answer,
        no_data,
        no_name,
        outside,
        unhosted,
        lame: false,
        no_address: false,
        limit: false,
        overlong: false,
        rewritten: false,
    }
}

/// What is told of walks, some of which are these, and the others those.
fn either(a: &SeenEnds, b: &SeenEnds) -> SeenEnds
    ensures { result ≡ either_seen a.now b.now }
{
    SeenEnds {
        four: either_ends(&a.four, &b.four),
        six: either_ends(&a.six, &b.six),
    }
}

/// The same of walks of one type.
fn either_ends(a: &TypeEnds, b: &TypeEnds) -> TypeEnds
    ensures { result ≡ either_ends a.now b.now }
{
    TypeEnds {
        answer: a.answer | b.answer,
        no_data: a.no_data | b.no_data,
        no_name: a.no_name | b.no_name,
        outside: a.outside | b.outside,
        unhosted: a.unhosted | b.unhosted,
        lame: a.lame | b.lame,
        no_address: a.no_address | b.no_address,
        limit: a.limit | b.limit,
        overlong: a.overlong | b.overlong,
        rewritten: a.rewritten | b.rewritten,
    }
}
