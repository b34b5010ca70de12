//! What the referrals of zone cuts show, kept once for each zone of each server.

ghost use Rattle.std.specs.Prelude.{◌≡◌, IfOk};
ghost use Rattle.std.specs.Option.{option_map};
ghost use Rattle.zone_tree.specs.Tree.{IsNode};
ghost use Rattle.zone_lookup.specs.CutTable.{AreRowsOf, IsHostRow, IsTableOf, IsWholeTree, flags_in_table, flags_in_host};
ghost use Rattle.zone_lookup.specs.ZoneCuts.{AreMade};

use crate::cut_flags::CutFlags;
use crate::hosts::{Host, Hosts, Near};
use crate::learnt_sets::LearntSets;
use crate::named::{Named, item_near};
use crate::zone_cuts::{MadeRows, ZoneCuts, zone_rows};
use dns_data::{Name, NoMemory};
use std::alloc::Global;
use std::marker::Model;
use zone_tree::{NodeId, Tree};

/// The rows of the zones of one server, in the order of their origins.
#[derive(Drop)]
pub(crate) struct HostCuts<'a> {
    server: &'a Name,
    zones: Vec<ZoneCuts<'a>>,
}

impl<'a> Model for HostCuts<'a> {
    ghost use Rattle.std.specs.Prelude.{map};
    ghost use Rattle.std.specs.List.Sorted.{IsStrictlySortedBy};
    ghost use Rattle.dns_data.specs.Name.{name_cmp};
    ghost use Rattle.zone_lookup.specs.CutTable.{HostRow};

    ghost Value = { HostRow };

    ghost view = { λ row. record { server = row.server.now; zones = row.zones.items } };

    ghost invariant = { λ row. IsStrictlySortedBy name_cmp (map (λ zone. zone.origin) row.zones.items) };
}

/// What the referrals of the zone cuts of a configuration show, kept once for each name server of each cut. A zone cut
/// takes no memory where its referrals show no fault and the address of each name server is known that is configured.
#[derive(Drop)]
pub struct CutTable<'a> {
    hosts: Vec<HostCuts<'a>>,
}

impl<'a> Model for CutTable<'a> {
    ghost use Rattle.std.specs.Prelude.{List, map};
    ghost use Rattle.std.specs.List.Sorted.{IsStrictlySortedBy};
    ghost use Rattle.dns_data.specs.Name.{name_cmp};
    ghost use Rattle.zone_lookup.specs.CutTable.{HostRow};

    ghost Value = { List HostRow };

    ghost view = { λ table. table.hosts.items };

    ghost invariant = { λ table. IsStrictlySortedBy name_cmp (map (λ row. row.server) table.hosts.items) };
}

impl<'a> Named for HostCuts<'a> {
    ghost name_of = { λ row. row.server };

    fn its_name(&self) -> &Name {
        self.server
    }
}

impl<'a> CutTable<'a> {
    /// The table of the servers' zones. The sets are the least and the greatest set of learnt addresses.
    pub fn build(
        alloc: Global,
        hosts: &Hosts<'a>,
        sets: &LearntSets,
    ) -> Result<CutTable<'a>, NoMemory>
        ensures { IfOk result (IsTableOf hosts.now sets.now) }
    {
        let hosts = host_rows(alloc, hosts, sets)?;
        Ok(CutTable { hosts })
    }

    /// What the referrals of a zone cut show, one to each of its name servers, in their order; `None` where they show no
    /// fault, and the address of each name server is known that is configured. The tree is that of the zone in which the
    /// server of this name refers; server and zone are looked for near a place first, whatever that is. It takes no memory.
    pub fn flags(
        &self,
        near: Near,
        server: &Name,
        tree: &Tree<'_>,
        cut: NodeId,
    ) -> Option<&[CutFlags]>
        requires { IsNode tree.now cut }
        ensures flags { option_map (λ flags. flags.now) result ≡ flags_in_table self.now server.now tree.now.zone.origin cut }
        ensures whole { IsWholeTree tree.now }
    {
        let origin = &tree.zone().origin;
        match item_near(self.hosts.as_slice(), near.host, server) {
            Some(row) => row.flags(near.tree, origin, cut.place()),
            None => None,
        }
    }
}

impl<'a> HostCuts<'a> {
    /// The flags of the name at a place in the server's zone with this origin, which is looked for near a place first.
    fn flags(&self, near: usize, origin: &Name, place: usize) -> Option<&[CutFlags]>
        ensures { option_map (λ flags. flags.now) result ≡ flags_in_host self.now origin.now place }
    {
        match item_near(self.zones.as_slice(), near, origin) {
            Some(row) => row.flags(place),
            None => None,
        }
    }
}

/// The row of each server's zones, in the order of the servers' names.
fn host_rows<'a>(
    alloc: Global,
    hosts: &Hosts<'a>,
    sets: &LearntSets,
) -> Result<Vec<HostCuts<'a>>, NoMemory>
    ensures { IfOk result (λ rows. AreRowsOf hosts.now sets.now rows.items) }
{
    let made = MadeRows::of_trees(alloc, hosts, sets)?;
    let mut rows = Vec::new(alloc);
    for host in hosts.in_order() {
        rows.push(host_row(alloc, hosts, sets, &made, host)?)?;
    }
    Ok(rows)
}

/// The row of a server's zones.
fn host_row<'a>(
    alloc: Global,
    hosts: &Hosts<'a>,
    sets: &LearntSets,
    made: &MadeRows<'_, 'a>,
    host: &Host<'a>,
) -> Result<HostCuts<'a>, NoMemory>
    requires { AreMade hosts.now sets.now made.now }
    ensures { IfOk result (IsHostRow hosts.now sets.now host.now) }
{
    let zones = zone_rows(alloc, hosts, sets, made, host.in_order())?;
    Ok(HostCuts {
        server: host.name(),
        zones,
    })
}
