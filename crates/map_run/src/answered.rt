//! Servers that answer the SOA query at the origin of a zone.

ghost use Rattle.std.specs.Prelude.{◌≡◌, ◌||◌, ◌++◌, map, IfOk, OnOk};
ghost use Rattle.std.specs.List.{flat_map};
ghost use Rattle.dns_data.specs.Name.{Labels};
ghost use Rattle.map_run.specs.ReachedRows.{TellOfAnswers, answering_at, is_answering, is_row_answered, is_soa_answer, tells};

use crate::name_key::NameKey;
use config_load::RowFiles;
use dns_data::{List, Name, NoMemory, RrType};
use site_checks::TypedEnd;
use std::alloc::Global;
use std::collections::HashSet;

/// The origin of a zone, and the servers at which a walk of the SOA query there ends in an answer.
#[derive(Debug, Drop)]
pub(crate) struct Answered {
    pub origin: Name,
    pub servers: List<Name>,
}

/// A server that answers, and the origin there.
#[derive(Debug, PartialEq, Eq, Hash, Drop)]
pub(crate) struct Teller {
    server: NameKey,
    origin: NameKey,
}

impl Teller {
    /// What tells of a server and of an origin: both names.
    fn of(alloc: Global, server: &Name, origin: &Name) -> Result<Teller, NoMemory>
        ensures { IfOk result (λ teller. teller ≡ record { server = server.now; origin = origin.now }) }
    {
        Ok(Teller {
            server: NameKey::of(alloc, server)?,
            origin: NameKey::of(alloc, origin)?,
        })
    }
}

/// The servers that answer at the origin, by the ends of the walks of its query.
pub(crate) fn answers_of(
    alloc: Global,
    origin: &Name,
    ends: &[TypedEnd],
) -> Result<Answered, NoMemory>
    ensures origin { IfOk result (λ answers. answers.origin ≡ origin.now) }
    ensures servers { IfOk result (λ answers. answers.servers ≡ flat_map answering_at ends.now) }
{
    Ok(Answered {
        origin: origin.copy(alloc)?,
        servers: answering(alloc, ends)?,
    })
}

/// The servers of those ends that are answers of type SOA.
fn answering(alloc: Global, ends: &[TypedEnd]) -> Result<List<Name>, NoMemory>
    ensures { IfOk result (λ servers. servers ≡ flat_map answering_at ends.now) }
{
    let mut servers = List::new(alloc);
    for end in ends {
        put_answering(alloc, end, &mut servers)?;
    }
    Ok(servers)
}

/// Puts the end's server behind the others, where the end is an answer of type SOA.
fn put_answering(alloc: Global, end: &TypedEnd, servers: &mut List<Name>) -> Result<(), NoMemory>
    ensures { OnOk result (servers.new ≡ servers.old ++ answering_at end.now) }
{
    if !is_soa_answer(end) {
        return Ok(());
    }
    servers.push(end.server.copy(alloc)?)
}

/// Whether the end is an answer of type SOA.
fn is_soa_answer(end: &TypedEnd) -> bool
    ensures { result ≡ is_soa_answer end.now }
{
    end.rtype.number() == RrType::Soa.number() && end.is_answer()
}

/// Of each row whether its server is one of those that answer at the origin of its zone. They are put into a set once, in
/// which each row is looked for.
pub(crate) fn rows_answered(
    alloc: Global,
    rows: &[RowFiles],
    answered: &[Answered],
) -> Result<Vec<bool>, NoMemory>
    ensures { IfOk result (λ found. found.items ≡ map (is_row_answered answered.now) rows.now) }
{
    let tellers = tellers_of(alloc, answered)?;
    rows_with_teller(alloc, rows, &tellers)
}

/// What tells of each server that answers, and of the origin there.
fn tellers_of(alloc: Global, answered: &[Answered]) -> Result<HashSet<Teller>, NoMemory>
    ensures { IfOk result (TellOfAnswers answered.now) }
{
    let mut tellers = HashSet::new(alloc);
    for one in answered {
        put_tellers(alloc, one, &mut tellers)?;
    }
    Ok(tellers)
}

/// Puts what tells of the servers that answer at an origin to the others.
fn put_tellers(alloc: Global, one: &Answered, tellers: &mut HashSet<Teller>) -> Result<(), NoMemory>
    ensures { OnOk result ((server origin : Labels) → tells tellers.new server origin ≡ (tells tellers.old server origin || is_answering server origin one.now)) }
{
    for server in one.servers.items() {
        tellers.insert(Teller::of(alloc, server, &one.origin)?)?;
    }
    Ok(())
}

/// Of each row whether these tell of its server and of the origin of its zone.
fn rows_with_teller(
    alloc: Global,
    rows: &[RowFiles],
    tellers: &HashSet<Teller>,
) -> Result<Vec<bool>, NoMemory>
    ensures { IfOk result (λ found. found.items ≡ map (λ row. tells tellers.now row.server row.origin) rows.now) }
{
    let mut found = Vec::with_capacity(alloc, rows.len())?;
    for row in rows {
        found.push(has_teller(alloc, tellers, row)?)?;
    }
    Ok(found)
}

/// Whether these tell of the row's server and of the origin of its zone.
fn has_teller(alloc: Global, tellers: &HashSet<Teller>, row: &RowFiles) -> Result<bool, NoMemory>
    ensures { IfOk result (λ found. found ≡ tells tellers.now row.now.server row.now.origin) }
{
    let own = Teller::of(alloc, &row.server, &row.origin)?;
    Ok(tellers.contains(&own))
}
