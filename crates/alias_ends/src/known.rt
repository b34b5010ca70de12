//! What the walks of names ask last.

ghost use Rattle.std.specs.Prelude.{◌≡◌, None, IfOk};
ghost use Rattle.std.specs.BTreeMap as maps;
ghost use Rattle.std.specs.List.{list_any};
ghost use Rattle.std.specs.Option.{option_map};
ghost use Rattle.dns_data.specs.Name.{name_cmp};
ghost use Rattle.net_model.specs.Step.{following, Setting};
ghost use Rattle.alias_ends.specs.Known.{Knows, ends_in, is_at, some_at};

use dns_data::{List, Name, NoMemory, RrType};
use name_ends::MOST_WALKS;
use plain_resolver::{ResolveFault, ZoneEnd, zone_ends};
use std::alloc::Global;
use std::collections::BTreeMap;
use std::marker::Model;
use zone_lookup::{Hosts, Walker};

/// What the walks of names from the top servers ask last, of those names that were asked for before, with one type, while
/// some servers are followed. Contracts see what walks are read in, and the type.
#[derive(Drop)]
pub(crate) struct KnownEnds<'h, 'a> {
    hosts: &'h Hosts<'a>,
    rewrites: u32,
    followed: &'h [Name],
    rtype: RrType,
    known: BTreeMap<Name, Option<List<ZoneEnd>>>,
}

impl<'h, 'a> Model for KnownEnds<'h, 'a> {
    ghost use Rattle.dns_data.specs.Name.{name_cmp};
    ghost use Rattle.net_model.specs.Step.{following};
    ghost use Rattle.std.specs.Prelude.{None};
    ghost use Rattle.alias_ends.specs.Known.{Knows, NamesAsked, ends_in};

    ghost Value = { NamesAsked };

    ghost view = { λ asker. record { setting = following asker.hosts.now asker.rewrites asker.followed.now; rtype = asker.rtype } };

    ghost invariant = { λ asker. Knows name_cmp (ends_in (following asker.hosts.now asker.rewrites asker.followed.now) asker.rtype None) asker.known };
}

impl<'h, 'a> KnownEnds<'h, 'a> {
    /// No name was asked for yet.
    pub(crate) fn new(
        alloc: Global,
        hosts: &'h Hosts<'a>,
        rewrites: u32,
        followed: &'h [Name],
        rtype: RrType,
    ) -> KnownEnds<'h, 'a>
        ensures { result ≡ record { setting = following hosts.entry.now rewrites followed.entry.now; rtype = rtype } }
    {
        KnownEnds {
            hosts,
            rewrites,
            followed,
            rtype,
            known: BTreeMap::new(alloc),
        }
    }

    /// What the walks of a name ask last, or none where there are more than are followed. Each name is asked for once.
    pub(crate) fn ends(
        &mut self,
        alloc: Global,
        name: &Name,
    ) -> Result<Option<List<ZoneEnd>>, NoMemory>
        ensures ends { IfOk result (λ ends. ends ≡ ends_in self.old.setting self.old.rtype None name.now) }
        ensures kept { self.new ≡ self.old }
    {
        match known_of(alloc, &self.known, name)? {
            Some(ends) => Ok(ends),
            None => {
                let ends = ends_of(
                    alloc,
                    self.hosts,
                    self.rewrites,
                    self.followed,
                    self.rtype,
                    None,
                    name,
                )?;
                keep(alloc, &mut self.known, name, &ends)?;
                Ok(ends)
            }
        }
    }
}

/// What is known of a name, if something is.
fn known_of(
    alloc: Global,
    known: &BTreeMap<Name, Option<List<ZoneEnd>>>,
    name: &Name,
) -> Result<Option<Option<List<ZoneEnd>>>, NoMemory>
    ensures { IfOk result (λ ends. ends ≡ maps.get name_cmp known.now name.now) }
{
    match known.get(name) {
        Some(ends) => Ok(Some(copy_of(alloc, ends)?)),
        None => Ok(None),
    }
}

/// Keeps what the walks of a name ask last.
fn keep(
    alloc: Global,
    known: &mut BTreeMap<Name, Option<List<ZoneEnd>>>,
    name: &Name,
    ends: &Option<List<ZoneEnd>>,
) -> Result<(), NoMemory>
    ensures { (setting : Setting) (rtype : _) → Knows name_cmp (ends_in setting rtype None) known.old → ends.now ≡ ends_in setting rtype None name.now → Knows name_cmp (ends_in setting rtype None) known.new }
{
    let ends = copy_of(alloc, ends)?;
    known.insert(name.copy(alloc)?, ends)?;
    Ok(())
}

/// The same.
fn copy_of(alloc: Global, ends: &Option<List<ZoneEnd>>) -> Result<Option<List<ZoneEnd>>, NoMemory>
    ensures { IfOk result (λ copy. copy ≡ ends.now) }
{
    match ends {
        Some(ends) => Ok(Some(copied(alloc, ends.items())?)),
        None => Ok(None),
    }
}

/// The same in a list.
fn copied(alloc: Global, ends: &[ZoneEnd]) -> Result<List<ZoneEnd>, NoMemory>
    ensures { IfOk result (λ copies. copies ≡ ends.now) }
{
    let mut copies = List::new(alloc);
    for end in ends {
        copies.push(end.copy(alloc)?)?;
    }
    Ok(copies)
}

/// What the walks of a name with the type ask last, from the top servers or from the server that is named, while these
/// servers are followed; none where there are more than are followed.
pub(crate) fn ends_of(
    alloc: Global,
    hosts: &Hosts<'_>,
    rewrites: u32,
    followed: &[Name],
    rtype: RrType,
    server: Option<&Name>,
    name: &Name,
) -> Result<Option<List<ZoneEnd>>, NoMemory>
    ensures { IfOk result (λ ends. ends ≡ ends_in (following hosts.now rewrites followed.now) rtype (option_map (λ one. one.now) server.entry) name.now) }
{
    let walker = Walker::following(hosts, rewrites, followed);
    match zone_ends(alloc, walker, server, name, rtype, MOST_WALKS) {
        Ok(ends) => Ok(Some(ends)),
        Err(ResolveFault::WalksPassed) => Ok(None),
        Err(ResolveFault::NoMemory) => Err(NoMemory),
    }
}

/// Whether the server is among those that are asked last, for the name.
pub(crate) fn some_at(ends: &Option<List<ZoneEnd>>, server: &Name, name: &Name) -> bool
    ensures { result ≡ some_at server.now name.now ends.now }
{
    match ends {
        Some(ends) => any_at(ends.items(), server, name),
        None => false,
    }
}

/// Whether some of them is the server, asked for the name.
fn any_at(ends: &[ZoneEnd], server: &Name, name: &Name) -> bool
    ensures { result ≡ list_any (is_at server.now name.now) ends.now }
{
    ends.iter().any(|end| is_at(server, name, end))
}

/// Whether it is the server, asked for the name.
fn is_at(server: &Name, name: &Name, end: &ZoneEnd) -> bool
    ensures { result ≡ is_at server.now name.now end.now }
{
    *server == end.server && *name == end.name
}
