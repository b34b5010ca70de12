//! What the referrals of the zone cuts of zones show. Equal zones have it in one place of memory.

ghost use Rattle.std.specs.Prelude.{◌≡◌, [], true, Some, map, IfOk, IfSome, OnOk};
ghost use Rattle.std.specs.List.{AllByRecursion, AllZip};
ghost use Rattle.std.specs.Option.{option_map};
ghost use Rattle.dns_data.specs.Name.{Labels, is_prefix};
ghost use Rattle.net_model.specs.Nearest.{held_zone};
ghost use Rattle.net_model.specs.declared.config.Config.{Config};
ghost use Rattle.net_model.specs.declared.deps.Deps.{Deps};
ghost use Rattle.zone_tree.specs.Tree.{IsNode, name_of};
ghost use Rattle.zone_lookup.specs.CutFlags.{flags_of, is_quiet};
ghost use Rattle.zone_lookup.specs.CutTable.{HasAllFlags, IsPut, IsZoneRow, cut_to, referrals_at, flags_in_zone};
ghost use Rattle.zone_lookup.specs.ZoneCuts.{AreMade};

use crate::cut_flags::CutFlags;
use crate::follow::lacks_glue;
use crate::hosts::Hosts;
use crate::learnt_sets::LearntSets;
use crate::named::Named;
use crate::same_zones::Same;
use dns_data::{List, Name, NoMemory};
use std::alloc::Global;
use std::collections::BTreeMap;
use std::marker::Model;
use std::sync::Arc;
use zone_tree::{NodeId, Tree};

/// The flags of the zone cuts of one zone, by the places of their names among the existing ones.
#[derive(Drop)]
pub(crate) struct ZoneCuts<'a> {
    origin: &'a Name,
    cuts: Arc<BTreeMap<usize, List<CutFlags>>>,
}

impl<'a> Model for ZoneCuts<'a> {
    ghost use Rattle.std.specs.Arc.{arc_value};
    ghost use Rattle.zone_lookup.specs.CutTable.{ZoneRow};

    ghost Value = { ZoneRow };

    ghost view = { λ row. record { origin = row.origin.now; cuts = (arc_value row.cuts).entries } };
}

impl<'a> Named for ZoneCuts<'a> {
    ghost name_of = { λ row. row.origin };

    fn its_name(&self) -> &Name {
        self.origin
    }
}

impl<'a> ZoneCuts<'a> {
    /// The flags of the name at a place.
    pub(crate) fn flags(&self, place: usize) -> Option<&[CutFlags]>
        ensures { option_map (λ flags. flags.now) result ≡ flags_in_zone self.now.cuts place }
    {
        match self.cuts.get(&place) {
            Some(flags) => Some(flags.items()),
            None => None,
        }
    }

    /// The same row once more.
    fn again(&self) -> Result<ZoneCuts<'a>, NoMemory>
        ensures { IfOk result (λ row. row ≡ self.now) }
    {
        let cuts = Arc::try_clone(&self.cuts)?;
        Ok(ZoneCuts {
            origin: self.origin,
            cuts,
        })
    }
}

/// The rows of some trees' zones, one beside each tree, and where the last tree stands of those with one origin.
#[derive(Drop)]
pub(crate) struct MadeRows<'h, 'a> {
    trees: &'h [Tree<'a>],
    rows: Vec<ZoneCuts<'a>>,
    last: BTreeMap<&'a Name, usize>,
}

impl<'h, 'a> MadeRows<'h, 'a> {
    /// The rows of the trees of all zones.
    pub(crate) fn of_trees(
        alloc: Global,
        hosts: &'h Hosts<'a>,
        sets: &LearntSets,
    ) -> Result<MadeRows<'h, 'a>, NoMemory>
        ensures { IfOk result (AreMade hosts.now sets.now) }
    {
        let none = MadeRows {
            trees: no_trees(),
            rows: Vec::new(alloc),
            last: BTreeMap::new(alloc),
        };
        let trees = hosts.trees();
        let rows = zone_rows(alloc, hosts, sets, &none, trees)?;
        let last = last_places(alloc, trees)?;
        Ok(MadeRows { trees, rows, last })
    }

    /// The row of a zone, where it is seen to be equal to the one of the last tree with this origin.
    fn row_of(&self, tree: &Tree<'a>) -> Option<&ZoneCuts<'a>>
        ensures { IfSome result (λ row. (config : Config) (deps : Deps) → AreMade config deps self.now → IsZoneRow config deps tree.now row.now) }
    {
        let zone = tree.zone();
        let origin = &zone.origin;
        let place = *self.last.get(&origin)?;
        let made = self.trees.get(place)?;
        if made.zone().is_same(zone) {
            self.rows.get(place)
        } else {
            None
        }
    }
}

/// No trees.
fn no_trees<'h, 'a>() -> &'h [Tree<'a>]
    ensures { result.now ≡ [] }
{
    &[]
}

/// Where the last tree stands of those with one origin. No meaning rests on it.
fn last_places<'a>(
    alloc: Global,
    trees: &[Tree<'a>],
) -> Result<BTreeMap<&'a Name, usize>, NoMemory> {
    let mut last = BTreeMap::new(alloc);
    for (place, tree) in trees.iter().enumerate() {
        last.insert(&tree.zone().origin, place)?;
    }
    Ok(last)
}

/// The row of each of the trees' zones.
pub(crate) fn zone_rows<'a>(
    alloc: Global,
    hosts: &Hosts<'a>,
    sets: &LearntSets,
    made: &MadeRows<'_, 'a>,
    trees: &[Tree<'a>],
) -> Result<Vec<ZoneCuts<'a>>, NoMemory>
    requires { AreMade hosts.now sets.now made.now }
    ensures { IfOk result (λ rows. AllZip (IsZoneRow hosts.now sets.now) trees.now rows.items) }
{
    let mut rows = Vec::with_capacity(alloc, trees.len())?;
    for tree in trees {
        rows.push(zone_row(alloc, hosts, sets, made, tree)?)?;
    }
    Ok(rows)
}

/// The row of a tree's zone.
fn zone_row<'a>(
    alloc: Global,
    hosts: &Hosts<'a>,
    sets: &LearntSets,
    made: &MadeRows<'_, 'a>,
    tree: &Tree<'a>,
) -> Result<ZoneCuts<'a>, NoMemory>
    requires { AreMade hosts.now sets.now made.now }
    ensures { IfOk result (IsZoneRow hosts.now sets.now tree.now) }
{
    match made.row_of(tree) {
        Some(row) => row.again(),
        None => new_row(alloc, hosts, sets, tree),
    }
}

/// The row of a tree's zone, made anew.
fn new_row<'a>(
    alloc: Global,
    hosts: &Hosts<'a>,
    sets: &LearntSets,
    tree: &Tree<'a>,
) -> Result<ZoneCuts<'a>, NoMemory>
    ensures { IfOk result (IsZoneRow hosts.now sets.now tree.now) }
{
    let origin = &tree.zone().origin;
    let cuts = cuts_in(alloc, hosts, sets, tree)?;
    let cuts = Arc::new(alloc, cuts)?;
    Ok(ZoneCuts { origin, cuts })
}

/// The flags of the zone cuts in a tree's zone, by the places of their names.
fn cuts_in(
    alloc: Global,
    hosts: &Hosts<'_>,
    sets: &LearntSets,
    tree: &Tree<'_>,
) -> Result<BTreeMap<usize, List<CutFlags>>, NoMemory>
    ensures { IfOk result (λ cuts. HasAllFlags hosts.now sets.now tree.now (IsNode tree.now) cuts.entries) }
{
    let mut cuts = BTreeMap::new(alloc);
    for place in 0..tree.names().len() {
        if let Some(cut) = tree.node_in(place) {
            let flags = flags_at(alloc, hosts, sets, tree, cut)?;
            put_unless_quiet(place, flags, &mut cuts)?;
        }
    }
    Ok(cuts)
}

/// What the referrals of a zone cut show, one to each of its name servers, in their order.
fn flags_at(
    alloc: Global,
    hosts: &Hosts<'_>,
    sets: &LearntSets,
    tree: &Tree<'_>,
    cut: NodeId,
) -> Result<List<CutFlags>, NoMemory>
    requires { IsNode tree.now cut }
    ensures { IfOk result (λ flags. (server : Labels) → held_zone hosts.now server tree.now.zone.origin ≡ Some tree.now.zone
        → flags ≡ map (flags_of hosts.now sets.now) (referrals_at server tree.now.zone (name_of tree.now cut))) }
{
    // The zone is read, so that it is known here that its names stand at or below its origin.
    let _ = tree.zone();
    let mut flags = List::new(alloc);
    for ns in tree.name_servers(cut) {
        flags.push(flags_to(alloc, hosts, sets, tree, cut, ns)?)?;
    }
    Ok(flags)
}

/// What the referral of a zone cut to one of its name servers shows. Of a name server that isn't configured the glue alone
/// is looked for.
fn flags_to(
    alloc: Global,
    hosts: &Hosts<'_>,
    sets: &LearntSets,
    tree: &Tree<'_>,
    cut: NodeId,
    ns: &Name,
) -> Result<CutFlags, NoMemory>
    requires node { IsNode tree.now cut }
    requires inside { is_prefix tree.now.zone.origin (name_of tree.now cut) ≡ true }
    ensures { IfOk result (λ flags. (server : Labels) → held_zone hosts.now server tree.now.zone.origin ≡ Some tree.now.zone
        → flags ≡ flags_of hosts.now sets.now (cut_to server tree.now.zone (name_of tree.now cut) ns.now)) }
{
    match hosts.host(ns) {
        Some(host) => {
            let name = tree.name(cut);
            let below = host.zone_with_origin(name);
            CutFlags::of_sides(alloc, hosts, sets, Some(tree), below, name, ns)
        }
        None => Ok(CutFlags::of_glue(lacks_glue(tree, cut, ns))),
    }
}

/// Puts what the referrals of a zone cut show into the row, unless all are quiet.
fn put_unless_quiet(
    place: usize,
    flags: List<CutFlags>,
    cuts: &mut BTreeMap<usize, List<CutFlags>>,
) -> Result<(), NoMemory>
    ensures { OnOk result (IsPut place flags cuts.old.entries cuts.new.entries) }
{
    if !are_quiet(flags.items()) {
        cuts.insert(place, flags)?;
    }
    Ok(())
}

/// Whether all flags are quiet.
fn are_quiet(flags: &[CutFlags]) -> bool
    ensures { result ≡ true → AllByRecursion (λ one. is_quiet one ≡ true) flags.now }
{
    for one in flags {
        if !one.is_quiet() {
            return false;
        }
    }
    true
}
