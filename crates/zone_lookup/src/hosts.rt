//! Servers with the trees of their zones.

ghost use Rattle.std.specs.Prelude.{◌≡◌, ◌∷◌, [], true, IfOk, IfSome, OnOk};
ghost use Rattle.std.specs.Option.{option_map};
ghost use Rattle.dns_data.specs.Name.{is_prefix};
ghost use Rattle.net_model.specs.Nearest.{server_named, zone_with_origin, held_zone, nearest, nearest_of};
ghost use Rattle.zone_lookup.specs.Firsts.{ArePut};
ghost use Rattle.zone_lookup.specs.Hosts.{AreHostsOf, AreTreesOf, HaveZonesOf};

use crate::firsts::{MadeOf, firsts_in_order};
use crate::made_trees::MadeTrees;
use crate::named::{Named, item_named, item_near, near_of, nearest_item};
use dns_data::{Labels, Name, NoMemory};
use net_model::{Config, Server, Zone};
use std::alloc::Global;
use std::marker::Model;
use zone_tree::Tree;

/// The servers of a configuration with the trees of their zones. Contracts see the configuration.
#[derive(Debug, Drop)]
pub struct Hosts<'a> {
    config: &'a Config,
    hosts: Vec<Host<'a>>,
    trees: Vec<Tree<'a>>,
}

impl<'a> Model for Hosts<'a> {
    ghost use Rattle.net_model.specs.declared.config.Config.{Config};
    ghost use Rattle.zone_lookup.specs.Hosts.{AreHostsOf};

    ghost Value = { Config };

    ghost view = { λ hosts. hosts.config.now };

    ghost use Rattle.zone_lookup.specs.Hosts.{HaveZonesOf};

    ghost invariant = { λ hosts. AreHostsOf hosts.config.now.servers hosts.hosts.items × HaveZonesOf hosts.config.now hosts.trees.items };
}

impl<'a> Hosts<'a> {
    /// The servers of a configuration, each with a tree of each of its zones.
    pub fn build(alloc: Global, config: &'a Config) -> Result<Hosts<'a>, NoMemory>
        ensures { IfOk result (λ hosts. hosts ≡ config.now) }
    {
        let mut trees = MadeTrees::new(alloc);
        let hosts = firsts_in_order(alloc, config.servers(), &mut trees)?;
        let trees = trees.in_order()?;
        Ok(Hosts {
            config,
            hosts,
            trees,
        })
    }

    /// The configuration.
    pub fn config(&self) -> &'a Config
        ensures { result.now ≡ self.now }
    {
        self.config
    }

    /// The servers, in the order of their names.
    pub fn in_order(&self) -> &[Host<'a>]
        ensures { AreHostsOf self.now.servers result.now }
    {
        self.hosts.as_slice()
    }

    /// The trees of all servers' zones, in the order of their origins. Where several zones are equal there need not be more
    /// than one tree of them.
    pub fn trees(&self) -> &[Tree<'a>]
        ensures { HaveZonesOf self.now result.now }
    {
        self.trees.as_slice()
    }

    /// The configured server of this name.
    pub fn host(&self, name: &Name) -> Option<&Host<'a>>
        ensures { option_map (λ host. host.now) result ≡ server_named self.now name.now }
    {
        self.host_near(self.hosts.len(), name)
    }

    /// The tree of the zone in which the server of this name looks a name up, or `None` where the server isn't
    /// configured or has no zone for the name (RFC 1034 section 4.3.2, step 2).
    pub fn nearest_of(&self, server: &Name, name: &Name) -> Option<&Tree<'a>>
        ensures zone { option_map (λ tree. tree.now.zone) result ≡ nearest_of self.now server.now name.now }
        ensures inside { IfSome result (λ tree. is_prefix tree.now.zone.origin name.now ≡ true) }
    {
        match self.host(server) {
            Some(host) => host.nearest(name),
            None => None,
        }
    }

    /// A place near which the tree is found of the zone in which the server of this name looks a name up.
    pub fn near_of(&self, server: &Name, name: &Name) -> Near {
        let host = near_of(self.hosts.as_slice(), server);
        let tree = match self.hosts.get(host) {
            Some(host) => host.near_of(name),
            None => 0,
        };
        Near { host, tree }
    }

    /// The tree of the zone in which the server of this name looks a name up, or `None` where the server isn't
    /// configured or has no zone for the name (RFC 1034 section 4.3.2, step 2). It is looked for near a place first.
    pub(crate) fn nearest_near(&self, near: Near, server: &Name, name: &Name) -> Option<&Tree<'a>>
        ensures zone { option_map (λ tree. tree.now.zone) result ≡ nearest_of self.now server.now name.now }
        ensures inside { IfSome result (λ tree. is_prefix tree.now.zone.origin name.now ≡ true) }
    {
        match self.host_near(near.host, server) {
            Some(host) => host.nearest_near(near.tree, name),
            None => None,
        }
    }

    /// The configured server of this name. The one at a place is looked at first.
    fn host_near(&self, near: usize, name: &Name) -> Option<&Host<'a>>
        ensures { option_map (λ host. host.now) result ≡ server_named self.now name.now }
    {
        item_near(self.hosts.as_slice(), near, name)
    }

    /// The tree of the zone with this origin that the server of this name holds.
    pub fn held_zone(&self, server: &Name, origin: &Name) -> Option<&Tree<'a>>
        ensures { option_map (λ tree. tree.now.zone) result ≡ held_zone self.now server.now origin.now }
    {
        match self.host(server) {
            Some(host) => host.zone_with_origin(origin),
            None => None,
        }
    }
}

/// A place near which a server and its nearest zone are looked for. What it says is tried, never trusted.
#[derive(Clone, Copy, Debug)]
pub struct Near {
    pub(crate) host: usize,
    pub(crate) tree: usize,
}

/// A server with the trees of its zones. Contracts see the server.
#[derive(Debug, Drop)]
pub struct Host<'a> {
    server: &'a Server,
    trees: Vec<Tree<'a>>,
}

impl<'a> Model for Host<'a> {
    ghost use Rattle.net_model.specs.declared.config.Server.{Server};

    ghost Value = { Server };

    ghost use Rattle.zone_lookup.specs.Hosts.{AreTreesOf};

    ghost view = { λ host. host.server.now };

    ghost invariant = { λ host. AreTreesOf host.server.now.zones host.trees.items };
}

impl<'a> Host<'a> {
    /// The server with the trees of its zones.
    fn build(
        alloc: Global,
        server: &'a Server,
        made: &mut MadeTrees<'a>,
    ) -> Result<Host<'a>, NoMemory>
        ensures host { IfOk result (λ host. host ≡ server.now) }
        ensures trees { OnOk result (ArePut server.now.zones made.old made.new) }
    {
        let trees = firsts_in_order(alloc, server.zones.items(), made)?;
        Ok(Host { server, trees })
    }

    /// The server.
    pub(crate) fn server(&self) -> &'a Server
        ensures { result.now ≡ self.now }
    {
        self.server
    }

    /// The trees of the server's zones, in the order of their origins.
    pub fn in_order(&self) -> &[Tree<'a>]
        ensures { AreTreesOf self.now.zones result.now }
    {
        self.trees.as_slice()
    }

    /// The server's name.
    pub fn name(&self) -> &'a Name
        ensures { result.now ≡ self.now.name }
    {
        &self.server.name
    }

    /// The tree of the server's zone with the longest origin at or above the name (RFC 1034 section 4.3.2, step 2).
    pub(crate) fn nearest(&self, name: &Name) -> Option<&Tree<'a>>
        ensures zone { option_map (λ tree. tree.now.zone) result ≡ nearest self.now name.now }
        ensures inside { IfSome result (λ tree. is_prefix tree.now.zone.origin name.now ≡ true) }
    {
        self.nearest_near(self.trees.len(), name)
    }

    /// The tree of the server's zone with the longest origin at or above the name. It is looked for near a place first.
    fn nearest_near(&self, near: usize, name: &Name) -> Option<&Tree<'a>>
        ensures zone { option_map (λ tree. tree.now.zone) result ≡ nearest self.now name.now }
        ensures inside { IfSome result (λ tree. is_prefix tree.now.zone.origin name.now ≡ true) }
    {
        let mut near = near;
        nearest_item(self.trees.as_slice(), &mut near, name)
    }

    /// A place near which the tree is found of the server's zone with the longest origin at or above the name.
    fn near_of(&self, name: &Name) -> usize {
        near_of(self.trees.as_slice(), name)
    }

    /// The tree of the server's zone with this origin.
    pub(crate) fn zone_with_origin(&self, origin: &Name) -> Option<&Tree<'a>>
        ensures { option_map (λ tree. tree.now.zone) result ≡ zone_with_origin self.now origin.now }
    {
        self.tree_of(&origin.labels())
    }

    /// The tree of the server's zone whose origin has these labels.
    fn tree_of(&self, origin: &Labels<'_>) -> Option<&Tree<'a>>
        ensures { option_map (λ tree. tree.now.zone) result ≡ zone_with_origin self.now origin.now }
    {
        item_named(self.trees.as_slice(), origin)
    }
}

impl<'a> MadeOf<'a, Server> for Host<'a> {
    ghost tell = { λ host. host };

    ghost zones_of = { λ server. server.zones };

    fn make(
        alloc: Global,
        server: &'a Server,
        trees: &mut MadeTrees<'a>,
    ) -> Result<Host<'a>, NoMemory> {
        Host::build(alloc, server, trees)
    }
}

impl<'a> MadeOf<'a, Zone> for Tree<'a> {
    ghost tell = { λ tree. tree.zone };

    ghost zones_of = { λ zone. zone ∷ [] };

    fn make(
        alloc: Global,
        zone: &'a Zone,
        trees: &mut MadeTrees<'a>,
    ) -> Result<Tree<'a>, NoMemory> {
        trees.tree_of(alloc, zone)
    }
}

impl<'a> Named for Host<'a> {
    ghost name_of = { λ server. server.name };

    fn its_name(&self) -> &Name {
        self.name()
    }
}

impl<'a> Named for Tree<'a> {
    ghost name_of = { λ tree. tree.zone.origin };

    fn its_name(&self) -> &Name {
        &self.zone().origin
    }
}

impl Named for Server {
    ghost name_of = { λ server. server.name };

    fn its_name(&self) -> &Name {
        &self.name
    }
}

impl Named for Zone {
    ghost name_of = { λ zone. zone.origin };

    fn its_name(&self) -> &Name {
        &self.origin
    }
}
