//! The name servers that records name at origins and at zone cuts.

ghost use Rattle.std.specs.Prelude.{◌≡◌, ◌++◌, IfOk, OnOk};
ghost use Rattle.std.specs.List.{flat_map};
ghost use Rattle.std.specs.Option.{option_map};
ghost use Rattle.zone_cuts.specs.Cuts.{ns_target, server_named_by};
ghost use Rattle.map_run.specs.Columns.{tab};
ghost use Rattle.map_run.specs.Servers.{naming_of, namings_at, row_namings};

use crate::lines::put_place_behind;
use config_load::RowFiles;
use dns_data::{List, Name, NoMemory, Octets, Rdata, Rr};
use std::alloc::Global;
use std::marker::Model;
use zone_cuts::has_servers;
use zone_lookup::Hosts;
use zone_tree::Tree;

/// An NS record at an origin or at a zone cut of a row's zone. Contracts see the name server that it names, its owner,
/// whether that is the origin, and the columns of its place.
#[derive(Drop)]
pub(crate) struct Naming<'a, 'r> {
    server: &'a Name,
    rr: &'a Rr,
    at_origin: bool,
    row: &'r RowFiles,
}

impl<'a, 'r> Model for Naming<'a, 'r> {
    ghost use Rattle.std.specs.Prelude.{Some};
    ghost use Rattle.map_run.specs.Lines.{place_columns};
    ghost use Rattle.map_run.specs.Servers.{Naming as Named};

    ghost Value = { Named };

    ghost view = { λ naming. record { server = naming.server.now; owner = naming.rr.now.owner; at_origin = naming.at_origin; place = place_columns naming.row.now (Some naming.rr.now) } };
}

impl<'a, 'r> Naming<'a, 'r> {
    /// The name server that is named.
    pub(crate) fn server(&self) -> &'a Name
        ensures { result.now ≡ self.now.server }
    {
        self.server
    }

    /// The owner of the record.
    pub(crate) fn owner(&self) -> &'a Name
        ensures { result.now ≡ self.now.owner }
    {
        &self.rr.owner
    }

    /// Whether the owner is the origin.
    pub(crate) fn at_origin(&self) -> bool
        ensures { result ≡ self.now.at_origin }
    {
        self.at_origin
    }

    /// Puts the columns of the record's place at the end, each behind a tab.
    pub(crate) fn put_place(&self, alloc: Global, text: &mut Octets) -> Result<(), NoMemory>
        ensures { OnOk result (text.new ≡ text.old ++ flat_map (λ next. tab ++ next) self.now.place) }
    {
        put_place_behind(alloc, text, self.row, self.rr)
    }
}

/// What the records of all rows' zones name, in the order in which they were read.
pub(crate) fn namings_of<'a, 'r>(
    alloc: Global,
    hosts: &Hosts<'a>,
    rows: &'r [RowFiles],
) -> Result<List<Naming<'a, 'r>>, NoMemory>
    ensures { IfOk result (λ namings. namings ≡ flat_map (row_namings hosts.now) rows.now) }
{
    let mut namings = List::new(alloc);
    for row in rows {
        put_row_namings(&mut namings, hosts, row)?;
    }
    Ok(namings)
}

/// Puts what the records of a row's zone name behind the others.
fn put_row_namings<'a, 'r>(
    namings: &mut List<Naming<'a, 'r>>,
    hosts: &Hosts<'a>,
    row: &'r RowFiles,
) -> Result<(), NoMemory>
    ensures { OnOk result (namings.new ≡ namings.old ++ row_namings hosts.now row.now) }
{
    match hosts.held_zone(&row.server, &row.origin) {
        Some(tree) => put_zone_namings(namings, row, tree, tree.zone().rrs.items()),
        None => Ok(()),
    }
}

/// Puts what records of a row's zone name behind the others.
fn put_zone_namings<'a, 'r>(
    namings: &mut List<Naming<'a, 'r>>,
    row: &'r RowFiles,
    tree: &Tree<'_>,
    rrs: &'a [Rr],
) -> Result<(), NoMemory>
    ensures { OnOk result (namings.new ≡ namings.old ++ flat_map (namings_at row.now tree.now.zone) rrs.now) }
{
    for rr in rrs {
        put_naming(namings, row, tree, rr)?;
    }
    Ok(())
}

/// Puts what a record of a row's zone names behind the others.
fn put_naming<'a, 'r>(
    namings: &mut List<Naming<'a, 'r>>,
    row: &'r RowFiles,
    tree: &Tree<'_>,
    rr: &'a Rr,
) -> Result<(), NoMemory>
    ensures { OnOk result (namings.new ≡ namings.old ++ namings_at row.now tree.now.zone rr.now) }
{
    match server_named_by(tree, rr) {
        Some(server) => namings.push(naming_of(row, tree, rr, server)),
        None => Ok(()),
    }
}

/// The name server that a record names, if it is an NS record of the origin or of a zone cut.
fn server_named_by<'r>(tree: &Tree<'_>, rr: &'r Rr) -> Option<&'r Name>
    ensures { option_map (λ server. server.now) result ≡ server_named_by tree.now.zone rr.now }
{
    match ns_target(rr) {
        Some(server) if has_servers(tree, &rr.owner) => Some(server),
        _ => None,
    }
}

/// The name server that a record's data name.
fn ns_target(rr: &Rr) -> Option<&Name>
    ensures { option_map (λ server. server.now) result ≡ ns_target rr.now.rdata }
{
    match &rr.rdata {
        Rdata::Ns(target) => Some(target),
        _ => None,
    }
}

/// What a record names.
fn naming_of<'a, 'r>(
    row: &'r RowFiles,
    tree: &Tree<'_>,
    rr: &'a Rr,
    server: &'a Name,
) -> Naming<'a, 'r>
    ensures { result ≡ naming_of row.entry.now tree.now.zone rr.entry.now server.entry.now }
{
    Naming {
        server,
        rr,
        at_origin: rr.owner == tree.zone().origin,
        row,
    }
}
