//! The lines of delegations.

ghost use Rattle.std.specs.Prelude.{◌≡◌, ◌++◌, ◌∷◌, [], map, true, List as Items, IfOk, OnOk};
ghost use Rattle.std.specs.List.{flat_map};
ghost use Rattle.dns_data.specs.Name.{is_prefix};
ghost use Rattle.net_model.specs.Zone.{ns_names};
ghost use Rattle.config_load.specs.declared.loaded.RowFiles.{RowFiles as RowValue};
ghost use Rattle.name_ends.specs.Asked.{ends_in};
ghost use Rattle.zone_cuts.specs.Cuts.{cuts};
ghost use Rattle.map_run.specs.Delegations.{at_cut, at_origin, cut_lines, delegation_lines, delegations_of, zone_lines};
ghost use Rattle.map_run.specs.FirstCopies.{KnowsCopies};

use crate::lines::Line;
use crate::ns_lines::{put_at_cut, put_at_origin, put_leftover};
use crate::row_zone::RowZone;
use crate::versions::{KnownCopies, is_first_copy};
use config_load::RowFiles;
use dns_data::{List, Name, NoMemory};
use name_ends::Asker;
use std::alloc::Global;
use zone_cuts::is_cut;
use zone_tree::Tree;

/// The lines of the delegations of all rows' zones, in the order of rows.
pub(crate) fn delegations_of(
    alloc: Global,
    asker: &mut Asker<'_, '_>,
    rows: &[RowFiles],
) -> Result<List<Line>, NoMemory>
    ensures { IfOk result (λ lines. lines ≡ delegations_of (record { config = asker.old.config; rows = rows.now }) (ends_in asker.old)) }
{
    let mut known = KnownCopies::new(alloc);
    let mut lines = List::new(alloc);
    for row in rows {
        put_row_delegations(alloc, &mut lines, asker, &mut known, row)?;
    }
    Ok(lines)
}

/// Puts the lines of the delegations of a row's zone at the end.
fn put_row_delegations(
    alloc: Global,
    lines: &mut List<Line>,
    asker: &mut Asker<'_, '_>,
    known: &mut KnownCopies,
    row: &RowFiles,
) -> Result<(), NoMemory>
    ensures lines { (before : Items RowValue) → KnowsCopies asker.old.config before known.old →
        OnOk result (lines.new ≡ lines.old ++ delegation_lines (ends_in asker.old) asker.old.config before row.now) }
    ensures known { (before : Items RowValue) → KnowsCopies asker.old.config before known.old →
        OnOk result (KnowsCopies asker.old.config (before ++ row.now ∷ []) known.new) }
    ensures kept { asker.new ≡ asker.old }
{
    let hosts = asker.hosts();
    let is_first = is_first_copy(alloc, known, hosts, row)?;
    match hosts.held_zone(&row.server, &row.origin) {
        Some(tree) => put_zone(alloc, lines, asker, is_first, row, tree),
        None => Ok(()),
    }
}

/// Puts the lines of a row's zone at the end: those of the origin, if no earlier row's zone is an equal copy, then those of
/// the cuts.
fn put_zone(
    alloc: Global,
    lines: &mut List<Line>,
    asker: &mut Asker<'_, '_>,
    is_first: bool,
    row: &RowFiles,
    tree: &Tree<'_>,
) -> Result<(), NoMemory>
    ensures lines { OnOk result (lines.new ≡ lines.old ++ zone_lines (ends_in asker.old) asker.old.config is_first row.now tree.now.zone) }
    ensures kept { asker.new ≡ asker.old }
{
    let at = RowZone::new(alloc, row, tree)?;
    if is_first {
        put_origin(alloc, lines, asker, &at, at.origin_servers())?;
    }
    put_cuts(alloc, lines, asker, &at)
}

/// Puts the lines of the name servers of the origin at the end.
fn put_origin(
    alloc: Global,
    lines: &mut List<Line>,
    asker: &mut Asker<'_, '_>,
    at: &RowZone<'_, '_>,
    names: &[&Name],
) -> Result<(), NoMemory>
    ensures lines { OnOk result (lines.new ≡ lines.old ++ flat_map (at_origin (ends_in asker.old) asker.old.config at.now.row at.now.zone) (map (λ ns. ns.now) names.now)) }
    ensures kept { asker.new ≡ asker.old }
{
    for ns in names {
        put_at_origin(alloc, lines, asker, at, *ns)?;
    }
    Ok(())
}

/// Puts the lines of the zone cuts at the end, in the order of names.
fn put_cuts(
    alloc: Global,
    lines: &mut List<Line>,
    asker: &mut Asker<'_, '_>,
    at: &RowZone<'_, '_>,
) -> Result<(), NoMemory>
    ensures lines { OnOk result (lines.new ≡ lines.old ++ flat_map (cut_lines (ends_in asker.old) asker.old.config at.now.row at.now.zone) (cuts at.now.zone)) }
    ensures kept { asker.new ≡ asker.old }
{
    let tree = at.tree();
    // The zone is read, so that it is known here which names the tree has.
    let _ = tree.zone();
    for name in tree.names() {
        if is_cut(tree, name) {
            put_cut(alloc, lines, asker, at, name)?;
        }
    }
    Ok(())
}

/// Puts the lines of a zone cut at the end.
fn put_cut(
    alloc: Global,
    lines: &mut List<Line>,
    asker: &mut Asker<'_, '_>,
    at: &RowZone<'_, '_>,
    cut: &Name,
) -> Result<(), NoMemory>
    requires { is_prefix at.now.zone.origin cut.now ≡ true }
    ensures lines { OnOk result (lines.new ≡ lines.old ++ cut_lines (ends_in asker.old) asker.old.config at.now.row at.now.zone cut.now) }
    ensures kept { asker.new ≡ asker.old }
{
    put_cut_servers(alloc, lines, asker, at, cut, at.ns_names(cut))?;
    put_leftover(alloc, lines, asker.hosts(), at, cut)
}

/// Puts the lines of the name servers of a zone cut at the end.
fn put_cut_servers(
    alloc: Global,
    lines: &mut List<Line>,
    asker: &mut Asker<'_, '_>,
    at: &RowZone<'_, '_>,
    cut: &Name,
    names: &[&Name],
) -> Result<(), NoMemory>
    requires { is_prefix at.now.zone.origin cut.now ≡ true }
    ensures lines { OnOk result (lines.new ≡ lines.old ++ flat_map (at_cut (ends_in asker.old) asker.old.config at.now.row at.now.zone cut.now) (map (λ ns. ns.now) names.now)) }
    ensures kept { asker.new ≡ asker.old }
{
    for ns in names {
        put_at_cut(alloc, lines, asker, at, cut, *ns)?;
    }
    Ok(())
}
