//! What is known of servers' names in a round of learning, and for which name servers each waits.

ghost use Rattle.std.specs.Prelude.{◌≡◌, ◌⊎◌, ◌≤◌, true, false, [], length, take, IfOk, OnOk};
ghost use Rattle.std.specs.List.{list_any};
ghost use Rattle.dns_data.specs.Name.{Labels, is_among};
ghost use Rattle.plain_resolver.specs.KnownNames.{FollowsOn, IsPartOf, NothingNew, no_waits, waits_also};

use dns_data::{List, Name, NoMemory};
use net_model::is_among;
use std::alloc::Global;
use std::marker::Model;

/// How many name servers are kept at most for which a name waits: where there are more, it is asked for in each round.
const MOST_WAITED_FOR: usize = 16;

/// The name servers at which walks end since no address of them is known.
#[derive(Debug, Drop)]
pub(crate) struct WaitList {
    names: List<Name>,
    all: bool,
}

impl Model for WaitList {
    ghost use Rattle.plain_resolver.specs.KnownNames.{Waits};

    ghost Value = { Waits };

    ghost view = { λ waits. record { names = waits.names; all = waits.all } };
}

impl WaitList {
    /// No walk was seen.
    pub(crate) fn new(alloc: Global) -> WaitList
        ensures { result ≡ no_waits }
    {
        WaitList {
            names: List::new(alloc),
            all: true,
        }
    }

    /// Puts a name server at the end, or keeps in mind that one was left out.
    pub(crate) fn put(&mut self, alloc: Global, ns: &Name) -> Result<(), NoMemory>
        ensures { OnOk result (self.new ≡ waits_also self.old ns.now) }
    {
        if self.names.len() < MOST_WAITED_FOR {
            self.names.push(ns.copy(alloc)?)?;
        } else {
            self.all = false;
        }
        Ok(())
    }

    /// Whether all that were followed before still are, all name servers are kept, and none of them is followed newly.
    pub(crate) fn has_nothing_new(&self, followed: &FollowedNames) -> bool
        ensures { result ≡ true → NothingNew followed.now self.now }
    {
        followed.grown && self.all && !any_among(self.names.items(), followed.newly.items())
    }
}

/// Whether one of the names is among the others.
fn any_among(names: &[Name], others: &[Name]) -> bool
    ensures { result ≡ list_any (is_among others.now) names.now }
{
    names.iter().any(|name| is_among(others, name))
}

/// What is known of a server's name: whether an address of it is learnt, and for which name servers it waits.
#[derive(Debug, Drop)]
pub(crate) struct KnownName {
    pub(crate) name: Name,
    pub(crate) learnt: bool,
    pub(crate) waits: WaitList,
}

impl Model for KnownName {
    ghost use Rattle.plain_resolver.specs.KnownNames.{Known};

    ghost Value = { Known };

    ghost view = { λ one. record { name = one.name; learnt = one.learnt; waits = one.waits } };
}

/// The servers that are followed in a round: their names, those of them that weren't followed in the round before, and
/// whether all that were still are.
#[derive(Debug, Drop)]
pub(crate) struct FollowedNames {
    pub(crate) names: List<Name>,
    newly: List<Name>,
    grown: bool,
}

impl Model for FollowedNames {
    ghost use Rattle.plain_resolver.specs.KnownNames.{FollowedNow};

    ghost Value = { FollowedNow };

    ghost view = { λ followed. record { names = followed.names; newly = followed.newly; grown = followed.grown } };
}

impl FollowedNames {
    /// Those of the first round. Nothing was known before.
    pub(crate) fn first(alloc: Global, names: List<Name>) -> FollowedNames
        ensures { result ≡ record { names = names; newly = []; grown = false } }
    {
        FollowedNames {
            names,
            newly: List::new(alloc),
            grown: false,
        }
    }

    /// Those of the next round, by those that were followed before. Where these stand among them in one order, they have
    /// grown.
    pub(crate) fn after(
        alloc: Global,
        before: &[Name],
        names: List<Name>,
    ) -> Result<FollowedNames, NoMemory>
        ensures names { IfOk result (λ followed. followed.names ≡ names) }
        ensures follows { IfOk result (FollowsOn before.now) }
    {
        let mut newly = List::new(alloc);
        let met = put_newly(alloc, before, names.items(), &mut newly)?;
        let grown = met == before.len();
        Ok(FollowedNames {
            names,
            newly,
            grown,
        })
    }
}

/// Puts those names at the end that aren't the next one of those before, and gives how many of those before were met.
fn put_newly(
    alloc: Global,
    before: &[Name],
    names: &[Name],
    newly: &mut List<Name>,
) -> Result<usize, NoMemory>
    requires { newly.old ≡ [] }
    ensures within { IfOk result (λ met. met ≤ length before.now) }
    ensures met { IfOk result (λ met. IsPartOf (take met before.now) names.now) }
    ensures either { OnOk result ((name : Labels) → is_among names.now name ≡ true → (is_among before.now name ≡ true) ⊎ (is_among newly.new name ≡ true)) }
{
    let mut met = 0;
    for name in names {
        if met < before.len() && before[met] == *name {
            met += 1;
        } else {
            newly.push(name.copy(alloc)?)?;
        }
    }
    Ok(met)
}
