//! What is learnt of a configuration before its queries are judged, made once.

ghost use Rattle.std.specs.Prelude.{◌≡◌, ◌||◌, true, IfOk};
ghost use Rattle.std.specs.BTreeSet as tree;
ghost use Rattle.std.specs.List.{list_all};
ghost use Rattle.address_deps.specs.Addresses.{AreAddresses};
ghost use Rattle.query_verdicts.specs.Learnt.{FollowsAll, IsLearntOf, IsRightLearnt};
ghost use Rattle.query_verdicts.specs.Queries.{AreSets};
ghost use Rattle.query_verdicts.specs.Verdict.{SomeServerPasses};
ghost use Rattle.dns_data.specs.Name.{name_cmp, is_among};

use crate::alike::AlikeBelow;
use crate::alike_rows::alike_rows;
use crate::queries::Queries;
use crate::servers::addresses_of_servers;
use address_deps::{AddressLearnt, dependencies_among};
use dns_data::{List, Name, NoMemory};
use net_model::{Config, Server};
use std::alloc::Global;
use std::collections::BTreeSet;
use straight_walks::Regions;
use zone_lookup::{CutTable, LearntSets, set_of};

/// The two sets of learnt addresses, the table of what the referrals of all zone cuts show, the regions of names by which
/// queries are seen to go straight, whether each configured server is seen to be a top server or in the least set, and what
/// is seen of all names below one.
#[derive(Drop)]
pub(crate) struct Learnt<'a> {
    pub sets: LearntSets,
    pub table: CutTable<'a>,
    pub regions: Regions<'a>,
    pub all_followed: bool,
    pub alike: List<AlikeBelow>,
}

/// What is learnt of the configuration, or the name of the first server that reaches too many pairs of state and type.
pub(crate) fn learnt_of<'a>(queries: &Queries<'a>) -> Result<Result<Learnt<'a>, Name>, NoMemory>
    ensures { IfOk result (IsLearntOf queries.now.trees queries.now.rewrites queries.now.states) }
{
    match addresses_of_servers(queries)? {
        Ok(addresses) => {
            let learnt = learnt_from(queries, addresses.items())?;
            let learnt = with_alike(queries, learnt)?;
            Ok(Ok(learnt))
        }
        Err(server) => Ok(Err(server)),
    }
}

/// What is learnt, with what is seen of all names below one.
fn with_alike<'a>(queries: &Queries<'a>, mut learnt: Learnt<'a>) -> Result<Learnt<'a>, NoMemory>
    requires { IsRightLearnt queries.now.trees queries.now.rewrites queries.now.states learnt }
    ensures { IfOk result (IsRightLearnt queries.now.trees queries.now.rewrites queries.now.states) }
{
    let alike = alike_rows(queries, &learnt)?;
    learnt.alike = alike;
    Ok(learnt)
}

/// What is learnt by the addresses of the servers' names, before names below one are looked at.
fn learnt_from<'a>(
    queries: &Queries<'a>,
    addresses: &[AddressLearnt<'_>],
) -> Result<Learnt<'a>, NoMemory>
    requires addresses { AreAddresses queries.now.trees queries.now.rewrites addresses.now }
    requires few { SomeServerPasses queries.now.trees queries.now.rewrites queries.now.states → ⊥ }
    ensures { IfOk result (IsRightLearnt queries.now.trees queries.now.rewrites queries.now.states) }
{
    let sets = sets_from(queries, addresses)?;
    let table = CutTable::build(queries.alloc, &queries.trees, &sets)?;
    let regions = Regions::build(queries.alloc, &queries.trees, &sets, &table)?;
    let all_followed = follows_all(queries.alloc, queries.trees.config(), &sets)?;
    Ok(Learnt {
        sets,
        table,
        regions,
        all_followed,
        alike: List::new(queries.alloc),
    })
}

/// The two sets of learnt addresses, by those of the servers' names.
fn sets_from(queries: &Queries<'_>, addresses: &[AddressLearnt<'_>]) -> Result<LearntSets, NoMemory>
    requires addresses { AreAddresses queries.now.trees queries.now.rewrites addresses.now }
    requires few { SomeServerPasses queries.now.trees queries.now.rewrites queries.now.states → ⊥ }
    ensures { IfOk result (AreSets queries.now.trees queries.now.rewrites queries.now.states) }
{
    let deps = dependencies_among(queries.alloc, &queries.trees, addresses)?;
    LearntSets::build(queries.alloc, deps)
}

/// Whether each configured server is a top server or in the least set.
fn follows_all(alloc: Global, config: &Config, sets: &LearntSets) -> Result<bool, NoMemory>
    ensures { IfOk result (λ all. all ≡ true → FollowsAll config.now sets.now.least) }
{
    let tops = set_of(alloc, config.tops())?;
    Ok(are_followed(config.servers(), &tops, sets))
}

/// Whether each server is one of the top servers or in the least set.
fn are_followed(servers: &[Server], tops: &BTreeSet<Name>, sets: &LearntSets) -> bool
    ensures { result ≡ list_all (λ server. tree.contains name_cmp tops.now server.name || is_among sets.now.least server.name) servers.now }
{
    servers.iter().all(|server| tops.contains(&server.name) || sets.has_least(&server.name))
}
