//! Names whose walks are asked for.

ghost use Rattle.std.specs.Prelude.{◌≡◌, IfOk};
ghost use Rattle.net_model.specs.Step.{Setting, following};
ghost use Rattle.name_ends.specs.Asked.{AreKnown, ends_in, type_ends};

use crate::at_once::ends_at_once;
use crate::ends::{NameEnds, TypeEnds, kinds_of};
use dns_data::{Name, NoMemory, RrType};
use plain_resolver::{ResolveFault, ends_at};
use std::alloc::Global;
use std::collections::BTreeMap;
use std::marker::Model;
use zone_lookup::Hosts;

/// How many walks of a name with one type are followed at most.
pub const MOST_WALKS: u32 = 1_000;

/// The servers with the trees of their zones, how many rewrites a walk may use, the servers that are followed, and how the
/// walks of the names end that were asked before. Contracts see what walks are read in.
#[derive(Drop)]
pub struct Asker<'h, 'a> {
    hosts: &'h Hosts<'a>,
    rewrites: u32,
    followed: &'h [Name],
    known: BTreeMap<Name, NameEnds>,
}

impl<'h, 'a> Model for Asker<'h, 'a> {
    ghost use Rattle.net_model.specs.Step.{Setting, following};
    ghost use Rattle.name_ends.specs.Asked.{AreKnown};

    ghost Value = { Setting };

    ghost view = { λ asker. following asker.hosts.now asker.rewrites asker.followed.now };

    ghost invariant = { λ asker. AreKnown (following asker.hosts.now asker.rewrites asker.followed.now) asker.known };
}

impl<'h, 'a> Asker<'h, 'a> {
    /// What names are asked by, while these servers are followed. None was asked yet.
    pub fn new(
        alloc: Global,
        hosts: &'h Hosts<'a>,
        rewrites: u32,
        followed: &'h [Name],
    ) -> Asker<'h, 'a>
        ensures { result ≡ following hosts.entry.now rewrites followed.entry.now }
    {
        Asker {
            hosts,
            rewrites,
            followed,
            known: BTreeMap::new(alloc),
        }
    }

    /// The servers with the trees of their zones.
    pub fn hosts(&self) -> &'h Hosts<'a>
        ensures { result.now ≡ self.now.config }
    {
        self.hosts
    }

    /// How the walks of a name end. Each name whose walks are followed is asked once.
    pub fn ends(&mut self, alloc: Global, name: &Name) -> Result<NameEnds, NoMemory>
        ensures ends { IfOk result (λ ends. ends ≡ ends_in self.old name.now) }
        ensures kept { self.new ≡ self.old }
    {
        match ends_at_once(self.hosts, name) {
            Some(ends) => Ok(ends),
            None => self.ends_of_walks(alloc, name),
        }
    }

    /// How the walks of a name end, by following them, where it wasn't asked before.
    fn ends_of_walks(&mut self, alloc: Global, name: &Name) -> Result<NameEnds, NoMemory>
        ensures ends { IfOk result (λ ends. ends ≡ ends_in self.old name.now) }
        ensures kept { self.new ≡ self.old }
    {
        match self.known.get(name).copied() {
            Some(ends) => Ok(ends),
            None => {
                let ends = name_ends(alloc, self.hosts, self.rewrites, self.followed, name)?;
                keep(alloc, &mut self.known, name, ends)?;
                Ok(ends)
            }
        }
    }
}

/// Keeps how the walks of a name end.
fn keep(
    alloc: Global,
    known: &mut BTreeMap<Name, NameEnds>,
    name: &Name,
    ends: NameEnds,
) -> Result<(), NoMemory>
    ensures { (setting : Setting) → AreKnown setting known.old → ends ≡ ends_in setting name.now → AreKnown setting known.new }
{
    known.insert(name.copy(alloc)?, ends)?;
    Ok(())
}

/// How the walks of a name end, those of type A and those of type AAAA, while these servers are followed.
fn name_ends(
    alloc: Global,
    hosts: &Hosts<'_>,
    rewrites: u32,
    followed: &[Name],
    name: &Name,
) -> Result<NameEnds, NoMemory>
    ensures { IfOk result (λ ends. ends ≡ ends_in (following hosts.now rewrites followed.now) name.now) }
{
    let four = type_ends(alloc, hosts, rewrites, followed, name, RrType::A)?;
    let six = type_ends(alloc, hosts, rewrites, followed, name, RrType::Aaaa)?;
    Ok(NameEnds { four, six })
}

/// How the walks of a name with a type end, while these servers are followed.
fn type_ends(
    alloc: Global,
    hosts: &Hosts<'_>,
    rewrites: u32,
    followed: &[Name],
    name: &Name,
    rtype: RrType,
) -> Result<Option<TypeEnds>, NoMemory>
    ensures { IfOk result (λ ends. ends ≡ type_ends (following hosts.now rewrites followed.now) name.now rtype) }
{
    match ends_at(alloc, hosts, rewrites, followed, name, rtype, MOST_WALKS) {
        Ok(ends) => Ok(Some(kinds_of(ends.items()))),
        Err(ResolveFault::WalksPassed) => Ok(None),
        Err(ResolveFault::NoMemory) => Err(NoMemory),
    }
}
