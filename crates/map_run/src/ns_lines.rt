//! The lines of name servers of zone cuts and origins.

ghost use Rattle.std.specs.Prelude.{◌≡◌, ◌++◌, ◌∷◌, ◌&&◌, ◌||◌, [], false, true, map, IfOk, OnOk};
ghost use Rattle.dns_data.specs.Name.{is_prefix};
ghost use Rattle.net_model.specs.Zone.{ns_names};
ghost use Rattle.name_ends.specs.Asked.{ends_in};
ghost use Rattle.name_ends.specs.Ends.{is_dead};
ghost use Rattle.zone_cuts.specs.Cuts.{is_glued};
ghost use Rattle.map_run.specs.Delegations.{at_cut, at_origin, dead_lines, is_asked, is_lame, is_leftover, leftover_line, ns_columns, ns_counts, ns_line, ns_text, place_at, side_lines};
ghost use Rattle.map_run.specs.Lines.{if_so};
ghost use Rattle.map_run.specs.RowZones.{no_deps};
ghost use Rattle.zone_lookup.specs.CutFlags.{flags_of};

use crate::lines::{Line, put_line, put_name_column, put_place, row_columns};
use crate::row_zone::{RowZone, is_named};
use dns_data::{List, Name, NoMemory, Octets};
use name_ends::Asker;
use net_model::{Deps, is_among};
use std::alloc::Global;
use zone_cuts::is_glued;
use zone_lookup::{CutFlags, Hosts, LearntSets, LentCut};

/// The word for a name server.
#[derive(Clone, Copy, Debug)]
pub(crate) enum NsWord {
    /// It is configured, and doesn't hold the zone.
    Lame,
    /// Its zone lists other name servers.
    Differs,
    /// It is at or below the zone cut, and has no address in the referring zone.
    NoGlue,
    /// Its addresses differ between both zones.
    GlueDiffers,
    /// No query finds an address of it.
    Dead,
    /// No query finds an address of it but the glue.
    GlueOnly,
}

impl NsWord {
    /// The word.
    fn text(&self) -> &'static str
        ensures { result.now ≡ ns_text self.now }
    {
        match self {
            NsWord::Lame => "lame",
            NsWord::Differs => "differs",
            NsWord::NoGlue => "no-glue",
            NsWord::GlueDiffers => "glue-differs",
            NsWord::Dead => "dead",
            NsWord::GlueOnly => "glue-only",
        }
    }

    /// Whether its line counts for the status.
    fn counts(&self) -> bool
        ensures { result ≡ ns_counts self.now }
    {
        !matches!(self, NsWord::GlueOnly)
    }
}

/// Puts the line of a word at a name server at the end, if it is so.
fn put_if(
    alloc: Global,
    lines: &mut List<Line>,
    holds: bool,
    at: &RowZone<'_, '_>,
    cut: &Name,
    ns: &Name,
    word: NsWord,
) -> Result<(), NoMemory>
    ensures { OnOk result (lines.new ≡ lines.old ++ ns_line at.now.row at.now.zone cut.now ns.now holds word) }
{
    if holds {
        put_ns_line(alloc, lines, at, cut, ns, word)
    } else {
        Ok(())
    }
}

/// Puts the line of a word at a name server at the end.
fn put_ns_line(
    alloc: Global,
    lines: &mut List<Line>,
    at: &RowZone<'_, '_>,
    cut: &Name,
    ns: &Name,
    word: NsWord,
) -> Result<(), NoMemory>
    ensures { OnOk result (lines.new ≡ lines.old ++ ns_line at.now.row at.now.zone cut.now ns.now true word) }
{
    let columns = ns_columns(alloc, word.text(), at, cut, ns, ns)?;
    put_line(alloc, lines, word.counts(), columns.items())
}

/// The columns of a line at a zone cut: a word, the row's server and zone, the cut, a name server, and the place of the NS
/// record that names another.
fn ns_columns(
    alloc: Global,
    word: &str,
    at: &RowZone<'_, '_>,
    cut: &Name,
    ns: &Name,
    other: &Name,
) -> Result<List<Octets>, NoMemory>
    ensures { IfOk result (λ columns. columns ≡ ns_columns word.now at.now.row at.now.zone cut.now ns.now other.now) }
{
    let row = at.row();
    let mut columns = row_columns(alloc, word, row)?;
    put_name_column(alloc, &mut columns, cut)?;
    put_name_column(alloc, &mut columns, ns)?;
    put_place(alloc, &mut columns, row, at.record(alloc, cut, other)?)?;
    Ok(columns)
}

/// Puts the lines of a name server of a zone cut at the end.
#[tactic(auto, unfolding(crate::specs::Delegations::at_cut))]
pub(crate) fn put_at_cut(
    alloc: Global,
    lines: &mut List<Line>,
    asker: &mut Asker<'_, '_>,
    at: &RowZone<'_, '_>,
    cut: &Name,
    ns: &Name,
) -> Result<(), NoMemory>
    requires { is_prefix at.now.zone.origin cut.now ≡ true }
    ensures lines { OnOk result (lines.new ≡ lines.old ++ at_cut (ends_in asker.old) asker.old.config at.now.row at.now.zone cut.now ns.now) }
    ensures kept { asker.new ≡ asker.old }
{
    put_sides(alloc, lines, asker.hosts(), at, cut, ns)?;
    let dead = asker.ends(alloc, ns)?.is_dead();
    put_dead(alloc, lines, dead, at, cut, ns)
}

/// Puts the line of a dead name server at the end, by whether it is glued.
fn put_dead(
    alloc: Global,
    lines: &mut List<Line>,
    dead: bool,
    at: &RowZone<'_, '_>,
    cut: &Name,
    ns: &Name,
) -> Result<(), NoMemory>
    ensures { OnOk result (lines.new ≡ lines.old ++ dead_lines dead at.now.row at.now.zone cut.now ns.now) }
{
    if !dead {
        return Ok(());
    }
    if is_glued(at.tree(), ns) {
        put_ns_line(alloc, lines, at, cut, ns, NsWord::GlueOnly)
    } else {
        put_ns_line(alloc, lines, at, cut, ns, NsWord::Dead)
    }
}

/// Puts the lines of a name server of the origin at the end.
pub(crate) fn put_at_origin(
    alloc: Global,
    lines: &mut List<Line>,
    asker: &mut Asker<'_, '_>,
    at: &RowZone<'_, '_>,
    ns: &Name,
) -> Result<(), NoMemory>
    ensures lines { OnOk result (lines.new ≡ lines.old ++ at_origin (ends_in asker.old) asker.old.config at.now.row at.now.zone ns.now) }
    ensures kept { asker.new ≡ asker.old }
{
    let origin = &at.tree().zone().origin;
    let lame = is_lame(asker.hosts(), origin, ns);
    put_if(alloc, lines, lame, at, origin, ns, NsWord::Lame)?;
    let dead = asker.ends(alloc, ns)?.is_dead() && !is_glued(at.tree(), ns);
    put_if(alloc, lines, dead, at, origin, ns, NsWord::Dead)
}

/// Whether the name server is configured, and holds no zone whose origin is the name (RFC 1912 section 2.8).
fn is_lame(hosts: &Hosts<'_>, cut: &Name, ns: &Name) -> bool
    ensures { result ≡ is_lame hosts.now cut.now ns.now }
{
    hosts.host(ns).is_some() && hosts.held_zone(ns, cut).is_none()
}

/// Puts the lines of a name server of a zone cut for what both zones hold at the end.
#[tactic(auto, unfolding(crate::specs::Delegations::side_lines))]
fn put_sides(
    alloc: Global,
    lines: &mut List<Line>,
    hosts: &Hosts<'_>,
    at: &RowZone<'_, '_>,
    cut: &Name,
    ns: &Name,
) -> Result<(), NoMemory>
    requires { is_prefix at.now.zone.origin cut.now ≡ true }
    ensures { OnOk result (lines.new ≡ lines.old ++ side_lines hosts.now at.now.row at.now.zone cut.now ns.now) }
{
    let lame = is_lame(hosts, cut, ns);
    let flags = side_flags(alloc, hosts, at, cut, ns)?;
    put_if(alloc, lines, lame, at, cut, ns, NsWord::Lame)?;
    put_if(alloc, lines, flags.differs, at, cut, ns, NsWord::Differs)?;
    put_if(alloc, lines, flags.no_glue, at, cut, ns, NsWord::NoGlue)?;
    let differ = flags.glue_differs;
    put_if(alloc, lines, differ, at, cut, ns, NsWord::GlueDiffers)
}

/// What a referral to a name server shows. The sets of learnt addresses are empty: which they are doesn't matter to what
/// both zones hold.
fn side_flags(
    alloc: Global,
    hosts: &Hosts<'_>,
    at: &RowZone<'_, '_>,
    cut: &Name,
    ns: &Name,
) -> Result<CutFlags, NoMemory>
    requires { is_prefix at.now.zone.origin cut.now ≡ true }
    ensures { IfOk result (λ flags. flags ≡ flags_of hosts.now no_deps (place_at at.now.row at.now.zone cut.now ns.now)) }
{
    let none = Deps {
        least: List::new(alloc),
        greatest: List::new(alloc),
    };
    let sets = LearntSets::build(alloc, none)?;
    let place = LentCut {
        server: &at.row().server,
        zone: &at.tree().zone().origin,
        cut,
        ns,
    };
    CutFlags::of(alloc, hosts, &sets, place)
}

/// Puts the line of a zone cut at the end of which the row's server itself holds the zone, though it isn't delegated to it.
pub(crate) fn put_leftover(
    alloc: Global,
    lines: &mut List<Line>,
    hosts: &Hosts<'_>,
    at: &RowZone<'_, '_>,
    cut: &Name,
) -> Result<(), NoMemory>
    requires { is_prefix at.now.zone.origin cut.now ≡ true }
    ensures { OnOk result (lines.new ≡ lines.old ++ if_so (is_leftover hosts.now at.now.row at.now.zone cut.now) (leftover_line at.now.row at.now.zone cut.now (ns_names at.now.zone cut.now))) }
{
    let names = at.ns_names(cut);
    match names {
        [first, ..] if is_leftover(hosts, at, cut, names) => {
            put_leftover_line(alloc, lines, at, cut, *first)
        }
        _ => Ok(()),
    }
}

/// Whether the row's server itself holds a zone with the cut as origin, though the cut isn't delegated to it.
fn is_leftover(hosts: &Hosts<'_>, at: &RowZone<'_, '_>, cut: &Name, names: &[&Name]) -> bool
    requires { map (λ ns. ns.now) names.now ≡ ns_names at.now.zone cut.now }
    ensures { result ≡ is_leftover hosts.now at.now.row at.now.zone cut.now }
{
    let server = &at.row().server;
    hosts.held_zone(server, cut).is_some() && !is_named(names, server) && is_asked(hosts, at)
}

/// Whether the row's server is asked for names of its zone: it is a top server, or one of the zone's name servers.
fn is_asked(hosts: &Hosts<'_>, at: &RowZone<'_, '_>) -> bool
    ensures { result ≡ is_asked hosts.now at.now.row at.now.zone }
{
    let server = &at.row().server;
    is_among(hosts.config().tops(), server) || is_named(at.origin_servers(), server)
}

/// Puts the line of such a zone cut at the end, at the place of its first name server.
fn put_leftover_line(
    alloc: Global,
    lines: &mut List<Line>,
    at: &RowZone<'_, '_>,
    cut: &Name,
    first: &Name,
) -> Result<(), NoMemory>
    ensures { OnOk result (lines.new ≡ lines.old ++ leftover_line at.now.row at.now.zone cut.now (first.now ∷ [])) }
{
    let columns = ns_columns(alloc, "leftover", at, cut, &at.row().server, first)?;
    put_line(alloc, lines, false, columns.items())
}
