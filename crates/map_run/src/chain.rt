//! The lines of the chain of trust between zones.

ghost use Rattle.std.specs.Prelude.{◌≡◌, ◌⊎◌, ◌++◌, ◌||◌, map, true, IfOk, OnOk};
ghost use Rattle.std.specs.List.{flat_map};
ghost use Rattle.dns_data.specs.Name.{is_among, is_prefix};
ghost use Rattle.run_endings.specs.Endings.{no_memory};
ghost use Rattle.zone_cuts.specs.Cuts.{cuts, is_cut};
ghost use Rattle.map_run.specs.Chain.{chain_of, child_lines, children, cut_lines, names_itself, record_lines, row_lines, signed_cut, zone_lines};
ghost use Rattle.map_run.specs.Copies.{first_copies};
ghost use Rattle.map_run.specs.Lines.{if_so, with_lines};

use crate::chain_lines::{put_pair, put_single_record};
use crate::known_rows::KnownRows;
use crate::lines::{Line, with_lines};
use crate::name_key::NameKey;
use crate::placed::zone_keys;
use crate::row_zone::{is_named, ns_names};
use crate::signed::{CutSigners, SignedZone};
use crate::versions::first_copies;
use config_load::{Loaded, RowFiles};
use dns_data::{List, Name, NoMemory, Rr};
use run_endings::Ending;
use std::alloc::Global;
use zone_cuts::is_cut;
use zone_lookup::Hosts;
use zone_tree::Tree;

/// How a run ends that looks at the chain of trust.
pub(crate) fn chain_ending(alloc: Global, all: &Loaded) -> Ending
    ensures { (result ≡ with_lines (chain_of all.now)) ⊎ (result ≡ no_memory) }
{
    match chain_of(alloc, all) {
        Ok(lines) => with_lines(alloc, lines.items()),
        Err(NoMemory) => Ending::no_memory(),
    }
}

/// The lines of all rows, in order.
fn chain_of(alloc: Global, all: &Loaded) -> Result<List<Line>, NoMemory>
    ensures { IfOk result (λ lines. lines ≡ chain_of all.now) }
{
    let hosts = Hosts::build(alloc, &all.config)?;
    chain_among(alloc, &hosts, all.rows.items())
}

/// The lines of rows, in order, of equal copies of a zone those of the first.
fn chain_among(alloc: Global, hosts: &Hosts<'_>, rows: &[RowFiles]) -> Result<List<Line>, NoMemory>
    ensures { IfOk result (λ lines. lines ≡ chain_of (record { config = hosts.now; rows = rows.now })) }
{
    let all = KnownRows::new(alloc, hosts, rows)?;
    let each = borrowed(alloc, rows)?;
    let firsts = first_copies(alloc, hosts, each.items())?;
    lines_of(alloc, &all, firsts.items())
}

/// The rows, each borrowed.
fn borrowed(alloc: Global, rows: &[RowFiles]) -> Result<List<&RowFiles>, NoMemory>
    ensures { IfOk result (λ each. map (λ row. row.now) each ≡ rows.now) }
{
    let mut each = List::new(alloc);
    for row in rows {
        each.push(row)?;
    }
    Ok(each)
}

/// The lines of these rows, in order.
fn lines_of(
    alloc: Global,
    all: &KnownRows<'_, '_, '_>,
    rows: &[&RowFiles],
) -> Result<List<Line>, NoMemory>
    ensures { IfOk result (λ lines. lines ≡ flat_map (row_lines all.now) (map (λ row. row.now) rows.now)) }
{
    let mut lines = List::new(alloc);
    for row in rows {
        put_row_chain(alloc, &mut lines, all, *row)?;
    }
    Ok(lines)
}

/// Puts the lines of a row at the end.
fn put_row_chain(
    alloc: Global,
    lines: &mut List<Line>,
    all: &KnownRows<'_, '_, '_>,
    row: &RowFiles,
) -> Result<(), NoMemory>
    ensures { OnOk result (lines.new ≡ lines.old ++ row_lines all.now row.now) }
{
    match all.hosts().held_zone(&row.server, &row.origin) {
        Some(tree) => put_zone(alloc, lines, all, row, tree),
        None => Ok(()),
    }
}

/// Puts the lines of a row's zone at the end: those of records by themselves, then those of its cuts.
fn put_zone(
    alloc: Global,
    lines: &mut List<Line>,
    all: &KnownRows<'_, '_, '_>,
    row: &RowFiles,
    tree: &Tree<'_>,
) -> Result<(), NoMemory>
    ensures { OnOk result (lines.new ≡ lines.old ++ zone_lines all.now row.now tree.now.zone) }
{
    put_single_records(alloc, lines, row, tree, tree.zone().rrs.items())?;
    let at = SignedZone::new(alloc, row, tree)?;
    put_cuts(alloc, lines, all, &at)
}

/// Puts the lines of records of a row's zone by themselves at the end.
fn put_single_records(
    alloc: Global,
    lines: &mut List<Line>,
    row: &RowFiles,
    tree: &Tree<'_>,
    rrs: &[Rr],
) -> Result<(), NoMemory>
    ensures { OnOk result (lines.new ≡ lines.old ++ flat_map (record_lines row.now tree.now.zone) rrs.now) }
{
    for rr in rrs {
        put_single_record(alloc, lines, row, tree, rr)?;
    }
    Ok(())
}

/// Puts the lines of the zone cuts at the end, in the order of names.
fn put_cuts(
    alloc: Global,
    lines: &mut List<Line>,
    all: &KnownRows<'_, '_, '_>,
    at: &SignedZone<'_, '_>,
) -> Result<(), NoMemory>
    ensures { OnOk result (lines.new ≡ lines.old ++ flat_map (cut_lines all.now at.now.row at.now.zone) (cuts at.now.zone)) }
{
    let tree = at.tree();
    // The zone is read, so that it is known here which names the tree has.
    let _ = tree.zone();
    for name in tree.names() {
        put_if_cut(alloc, lines, all, at, name)?;
    }
    Ok(())
}

/// Puts the lines of a name at the end, if it is a zone cut.
fn put_if_cut(
    alloc: Global,
    lines: &mut List<Line>,
    all: &KnownRows<'_, '_, '_>,
    at: &SignedZone<'_, '_>,
    name: &Name,
) -> Result<(), NoMemory>
    ensures { OnOk result (lines.new ≡ lines.old ++ if_so (is_cut at.now.zone name.now) (cut_lines all.now at.now.row at.now.zone name.now)) }
{
    if is_cut(at.tree(), name) {
        put_cut(alloc, lines, all, at, name)
    } else {
        Ok(())
    }
}

/// Puts the lines of a zone cut at the end, of equal copies of the delegated zone beside the first.
fn put_cut(
    alloc: Global,
    lines: &mut List<Line>,
    all: &KnownRows<'_, '_, '_>,
    at: &SignedZone<'_, '_>,
    cut: &Name,
) -> Result<(), NoMemory>
    requires { is_prefix at.now.zone.origin cut.now ≡ true }
    ensures { OnOk result (lines.new ≡ lines.old ++ cut_lines all.now at.now.row at.now.zone cut.now) }
{
    let rows = children_of(alloc, all, at.tree(), cut)?;
    match rows.items() {
        [] => Ok(()),
        rows => put_first_children(alloc, lines, all, at, cut, rows),
    }
}

/// The rows with the cut as origin to whose servers it is delegated, in order.
fn children_of<'r>(
    alloc: Global,
    all: &KnownRows<'_, '_, 'r>,
    tree: &Tree<'_>,
    cut: &Name,
) -> Result<List<&'r RowFiles>, NoMemory>
    requires { is_prefix tree.now.zone.origin cut.now ≡ true }
    ensures { IfOk result (λ rows. map (λ row. row.now) rows ≡ children all.now tree.now.zone cut.now) }
{
    let names = ns_names(tree, cut);
    let origin = NameKey::of(alloc, cut)?;
    let mut rows = List::new(alloc);
    for row in all.at(&origin) {
        if is_delegated(all.hosts(), names, *row) {
            rows.push(*row)?;
        }
    }
    Ok(rows)
}

/// Whether the row's server is among the name servers of a cut, or its zone itself names it.
fn is_delegated(hosts: &Hosts<'_>, names: &[&Name], row: &RowFiles) -> bool
    ensures { result ≡ (is_among (map (λ name. name.now) names.now) row.now.server || names_itself hosts.now row.now) }
{
    is_named(names, &row.server) || names_itself(hosts, row)
}

/// Whether the row's zone names the row's server at its origin.
fn names_itself(hosts: &Hosts<'_>, row: &RowFiles) -> bool
    ensures { result ≡ names_itself hosts.now row.now }
{
    match hosts.held_zone(&row.server, &row.origin) {
        Some(tree) => is_named(tree.name_servers(tree.apex()), &row.server),
        None => false,
    }
}

/// Puts the lines of a zone cut beside rows with the delegated zone at the end, of equal copies beside the first.
fn put_first_children(
    alloc: Global,
    lines: &mut List<Line>,
    all: &KnownRows<'_, '_, '_>,
    at: &SignedZone<'_, '_>,
    cut: &Name,
    rows: &[&RowFiles],
) -> Result<(), NoMemory>
    ensures { OnOk result (lines.new ≡ lines.old ++ flat_map (child_lines all.now.config (signed_cut at.now.row at.now.zone cut.now)) (first_copies all.now.config (map (λ row. row.now) rows.now))) }
{
    let hosts = all.hosts();
    let firsts = first_copies(alloc, hosts, rows)?;
    let signed = CutSigners::new(alloc, at, cut)?;
    put_children(alloc, lines, hosts, &signed, firsts.items())
}

/// Puts the lines of a zone cut beside rows with the delegated zone at the end.
fn put_children(
    alloc: Global,
    lines: &mut List<Line>,
    hosts: &Hosts<'_>,
    at: &CutSigners<'_, '_>,
    rows: &[&RowFiles],
) -> Result<(), NoMemory>
    ensures { OnOk result (lines.new ≡ lines.old ++ flat_map (child_lines hosts.now at.now) (map (λ row. row.now) rows.now)) }
{
    for row in rows {
        put_child(alloc, lines, hosts, at, *row)?;
    }
    Ok(())
}

/// Puts the lines of a zone cut beside a row with the delegated zone at the end.
fn put_child(
    alloc: Global,
    lines: &mut List<Line>,
    hosts: &Hosts<'_>,
    at: &CutSigners<'_, '_>,
    child: &RowFiles,
) -> Result<(), NoMemory>
    ensures { OnOk result (lines.new ≡ lines.old ++ child_lines hosts.now at.now child.now) }
{
    match hosts.held_zone(&child.server, &child.origin) {
        Some(tree) => {
            let keys = zone_keys(alloc, child, tree.zone())?;
            put_pair(alloc, lines, at, child, keys.items())
        }
        None => Ok(()),
    }
}
