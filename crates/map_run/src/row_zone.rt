//! The zone of a row, with the NS records by their owners and name servers.

ghost use Rattle.std.specs.Prelude.{◌≡◌, map, true, IfOk};
ghost use Rattle.std.specs.List.{list_any};
ghost use Rattle.std.specs.Option.{option_map};
ghost use Rattle.dns_data.specs.Name.{is_among, is_prefix, name_eq};
ghost use Rattle.net_model.specs.Zone.{ns_names};
ghost use Rattle.zone_cuts.specs.Cuts.{ns_record};

use config_load::RowFiles;
use dns_data::{Name, NoMemory, Rr};
use std::alloc::Global;
use std::marker::Model;
use zone_cuts::NsRecords;
use zone_tree::Tree;

/// A row, the tree of its zone and the zone's NS records. Contracts see the row and the zone.
#[derive(Drop)]
pub(crate) struct RowZone<'z, 'a> {
    row: &'z RowFiles,
    tree: &'z Tree<'a>,
    records: NsRecords<'a>,
}

impl<'z, 'a> Model for RowZone<'z, 'a> {
    ghost use Rattle.std.specs.Prelude.{◌≡◌};
    ghost use Rattle.map_run.specs.RowZones.{ZoneOfRow};

    ghost Value = { ZoneOfRow };

    ghost view = { λ at. record { row = at.row.now; zone = at.tree.now.zone } };

    ghost invariant = { λ at. at.records ≡ at.tree.now.zone };
}

impl<'z, 'a> RowZone<'z, 'a> {
    /// The row with the tree of its zone.
    pub(crate) fn new(
        alloc: Global,
        row: &'z RowFiles,
        tree: &'z Tree<'a>,
    ) -> Result<RowZone<'z, 'a>, NoMemory>
        ensures { IfOk result (λ at. at ≡ record { row = row.entry.now; zone = tree.entry.now.zone }) }
    {
        let records = NsRecords::of(alloc, tree.zone())?;
        Ok(RowZone { row, tree, records })
    }

    /// The row.
    pub(crate) fn row(&self) -> &'z RowFiles
        ensures { result.now ≡ self.now.row }
    {
        self.row
    }

    /// The tree of the row's zone.
    pub(crate) fn tree(&self) -> &'z Tree<'a>
        ensures { result.now.zone ≡ self.now.zone }
    {
        self.tree
    }

    /// The NS record of the owner that names this name server.
    pub(crate) fn record(
        &self,
        alloc: Global,
        owner: &Name,
        ns: &Name,
    ) -> Result<Option<&'a Rr>, NoMemory>
        ensures { IfOk result (λ rr. option_map (λ rr. rr.now) rr ≡ ns_record self.now.zone owner.now ns.now) }
    {
        self.records.get(alloc, owner, ns)
    }

    /// The names of the name servers of the origin, in the order of names.
    pub(crate) fn origin_servers(&self) -> &'z [&'a Name]
        ensures { map (λ ns. ns.now) result.now ≡ ns_names self.now.zone self.now.zone.origin }
    {
        self.tree.name_servers(self.tree.apex())
    }

    /// The names of the name servers of a name at or below the origin, in the order of names.
    pub(crate) fn ns_names(&self, name: &Name) -> &'z [&'a Name]
        requires { is_prefix self.now.zone.origin name.now ≡ true }
        ensures { map (λ ns. ns.now) result.now ≡ ns_names self.now.zone name.now }
    {
        ns_names(self.tree, name)
    }
}

/// The names of the name servers of a name at or below the origin of the tree's zone, in the order of names.
pub(crate) fn ns_names<'t, 'a>(tree: &'t Tree<'a>, name: &Name) -> &'t [&'a Name]
    requires { is_prefix tree.now.zone.origin name.now ≡ true }
    ensures { map (λ ns. ns.now) result.now ≡ ns_names tree.now.zone name.now }
{
    match tree.node_at(name) {
        Some(node) => tree.name_servers(node),
        None => &[],
    }
}

/// Whether the name is among these.
pub(crate) fn is_named(names: &[&Name], name: &Name) -> bool
    ensures { result ≡ is_among (map (λ name. name.now) names.now) name.now }
{
    some_is(names, name)
}

/// Whether one of these is the name.
fn some_is(names: &[&Name], name: &Name) -> bool
    ensures { result ≡ list_any (λ other. name_eq name.now other.now) names.now }
{
    names.iter().any(|other| *name == **other)
}
