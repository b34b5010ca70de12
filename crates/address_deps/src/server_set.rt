//! Sets of servers.

ghost use Rattle.std.specs.Prelude.{◌≡◌, [], ◌||◌, ◌&&◌, not, OnOk};
ghost use Rattle.std.specs.List.{list_any};
ghost use Rattle.dns_data.specs.Name.{Labels, is_among, name_eq};
ghost use Rattle.address_deps.specs.Giving.{names_followed};

use dns_data::{Name, NoMemory};
use std::alloc::Global;
use std::collections::BTreeSet;
use std::marker::Model;
use zone_lookup::Hosts;

/// Names of servers.
#[derive(Debug, Drop)]
pub(crate) struct ServerSet {
    names: BTreeSet<Name>,
}

impl Model for ServerSet {
    ghost use Rattle.std.specs.Prelude.{List, ℕ};

    ghost Value = { List (List (List ℕ)) };

    ghost view = { λ set. set.names.keys };
}

impl ServerSet {
    /// The empty set.
    pub(crate) fn new(alloc: Global) -> ServerSet
        ensures { result ≡ [] }
    {
        ServerSet {
            names: BTreeSet::new(alloc),
        }
    }

    /// Whether the server is in the set.
    pub(crate) fn has(&self, name: &Name) -> bool
        ensures { result ≡ list_any (name_eq name.now) self.now }
    {
        self.names.contains(name)
    }

    /// Puts a server into the set.
    pub(crate) fn put(&mut self, alloc: Global, name: &Name) -> Result<(), NoMemory>
        ensures { OnOk result ((other : Labels) → list_any (name_eq other) self.new ≡ (name_eq name.now other || list_any (name_eq other) self.old)) }
    {
        self.names.insert(name.copy(alloc)?)?;
        Ok(())
    }

    /// Takes a server out of the set.
    pub(crate) fn take(&mut self, name: &Name)
        ensures { (other : Labels) → list_any (name_eq other) self.new ≡ (not (name_eq name.now other) && list_any (name_eq other) self.old) }
    {
        self.names.remove(name);
    }
}

/// The servers that are followed: all that are configured, or those of a set.
#[derive(Clone, Copy, Debug)]
pub(crate) enum Followed<'s> {
    Configured,
    Named(&'s ServerSet),
}

impl<'s> Followed<'s> {
    /// Whether the server of this name is followed.
    pub(crate) fn has(&self, hosts: &Hosts<'_>, name: &Name) -> bool
        ensures { result ≡ is_among (names_followed hosts.now self.now) name.now }
    {
        match self {
            Followed::Configured => hosts.host(name).is_some(),
            Followed::Named(names) => names.has(name),
        }
    }
}
