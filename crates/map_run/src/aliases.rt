//! The lines of aliases into zones that a server holds beside the one that was asked.

ghost use Rattle.std.specs.Prelude.{◌≡◌, ◌⊎◌, ◌++◌, ◌∷◌, ◌&&◌, [], is_some, IfOk, OnOk};
ghost use Rattle.std.specs.List.{flat_map};
ghost use Rattle.dns_data.specs.RrType.{word_of};
ghost use Rattle.dns_data.specs.Spelling.{name_text};
ghost use Rattle.net_model.specs.Nearest.{nearest_of};
ghost use Rattle.net_model.specs.Step.{following};
ghost use Rattle.run_endings.specs.Endings.{no_memory};
ghost use Rattle.alias_ends.specs.Known.{walks_in};
ghost use Rattle.alias_ends.specs.Aliases.{alias_text};
ghost use Rattle.map_run.specs.Aliases.{IsAliases, alias_line, alias_lines, aliases_of, is_followed, is_looked_up, record_lines, row_lines};
ghost use Rattle.map_run.specs.Lines.{with_lines};
ghost use Rattle.map_run.specs.Records.{record_columns};
ghost use Rattle.map_run.specs.Rewrites.{most_rewrites};

use crate::by_ends::too_many_to_learn;
use crate::limits::REWRITES;
use crate::lines::{Line, put_line, put_name_column, put_octets, with_lines};
use crate::records::put_record_columns;
use alias_ends::{AliasAsker, TargetWord};
use config_load::{Loaded, RowFiles};
use dns_data::{List, Name, NoMemory, Octets, Rdata, Rr};
use plain_resolver::{LearntFault, MOST_WALKS_FOLLOWED, learnt_at};
use run_endings::Ending;
use std::alloc::Global;
use zone_lookup::Hosts;

/// The lines of aliases, or the first server whose name has too many walks to learn its address.
pub(crate) fn aliases_ending(alloc: Global, all: &Loaded) -> Ending
    ensures { IsAliases all.now result ⊎ (result ≡ no_memory) }
{
    match Hosts::build(alloc, &all.config) {
        Ok(hosts) => aliases_by_trees(alloc, &hosts, all.rows.items()),
        Err(NoMemory) => Ending::no_memory(),
    }
}

/// The lines of the aliases of rows, where the trees of the configuration's zones are built.
fn aliases_by_trees(alloc: Global, hosts: &Hosts<'_>, rows: &[RowFiles]) -> Ending
    ensures { IsAliases (record { config = hosts.now; rows = rows.now }) result ⊎ (result ≡ no_memory) }
{
    let none = List::new(alloc);
    match learnt_at(alloc, hosts, REWRITES, &none, MOST_WALKS_FOLLOWED) {
        Ok(followed) => aliases_while(alloc, hosts, followed.items(), rows),
        Err(LearntFault::WalksPassed(server)) => too_many_to_learn(alloc, server),
        Err(LearntFault::NoMemory) => Ending::no_memory(),
    }
}

/// The lines of the aliases of rows, while these servers are followed.
fn aliases_while(alloc: Global, hosts: &Hosts<'_>, followed: &[Name], rows: &[RowFiles]) -> Ending
    ensures { (result ≡ with_lines (aliases_of (record { config = hosts.now; rows = rows.now }) (walks_in (following hosts.now most_rewrites followed.now)))) ⊎ (result ≡ no_memory) }
{
    let mut asker = AliasAsker::new(alloc, hosts, REWRITES, followed);
    match aliases_of(alloc, &mut asker, rows) {
        Ok(lines) => with_lines(alloc, lines.items()),
        Err(NoMemory) => Ending::no_memory(),
    }
}

/// The lines of the aliases of rows, in order.
fn aliases_of(
    alloc: Global,
    asker: &mut AliasAsker<'_, '_>,
    rows: &[RowFiles],
) -> Result<List<Line>, NoMemory>
    ensures { IfOk result (λ lines. lines ≡ aliases_of (record { config = asker.old.config; rows = rows.now }) (walks_in asker.old)) }
{
    let mut lines = List::new(alloc);
    for row in rows {
        put_row_aliases(alloc, &mut lines, asker, row)?;
    }
    Ok(lines)
}

/// Puts the lines of a row's aliases at the end.
fn put_row_aliases(
    alloc: Global,
    lines: &mut List<Line>,
    asker: &mut AliasAsker<'_, '_>,
    row: &RowFiles,
) -> Result<(), NoMemory>
    ensures lines { OnOk result (lines.new ≡ lines.old ++ row_lines (walks_in asker.old) asker.old.config row.now) }
    ensures kept { asker.new ≡ asker.old }
{
    match asker.hosts().held_zone(&row.server, &row.origin) {
        Some(tree) => put_zone_aliases(alloc, lines, asker, row, tree.zone().rrs.items()),
        None => Ok(()),
    }
}

/// Puts the lines of the aliases among records of a row's zone at the end.
fn put_zone_aliases(
    alloc: Global,
    lines: &mut List<Line>,
    asker: &mut AliasAsker<'_, '_>,
    row: &RowFiles,
    rrs: &[Rr],
) -> Result<(), NoMemory>
    ensures lines { OnOk result (lines.new ≡ lines.old ++ flat_map (λ rr. record_lines (walks_in asker.old) asker.old.config row.now rr rr.rdata) rrs.now) }
    ensures kept { asker.new ≡ asker.old }
{
    for rr in rrs {
        put_record_alias(alloc, lines, asker, row, rr)?;
    }
    Ok(())
}

/// Puts the lines of a record at the end, if it is an alias.
fn put_record_alias(
    alloc: Global,
    lines: &mut List<Line>,
    asker: &mut AliasAsker<'_, '_>,
    row: &RowFiles,
    rr: &Rr,
) -> Result<(), NoMemory>
    ensures lines { OnOk result (lines.new ≡ lines.old ++ record_lines (walks_in asker.old) asker.old.config row.now rr.now rr.now.rdata) }
    ensures kept { asker.new ≡ asker.old }
{
    match &rr.rdata {
        Rdata::Cname(target) => put_alias(alloc, lines, asker, row, rr, target),
        _ => Ok(()),
    }
}

/// Puts the lines of an alias with this target at the end.
fn put_alias(
    alloc: Global,
    lines: &mut List<Line>,
    asker: &mut AliasAsker<'_, '_>,
    row: &RowFiles,
    rr: &Rr,
    target: &Name,
) -> Result<(), NoMemory>
    ensures lines { OnOk result (lines.new ≡ lines.old ++ alias_lines (walks_in asker.old) asker.old.config row.now rr.now target.now) }
    ensures kept { asker.new ≡ asker.old }
{
    if !is_followed(alloc, asker, row, &rr.owner, target)? {
        return Ok(());
    }
    let word = asker.word(alloc, &row.server, target)?;
    put_word_line(alloc, lines, row, rr, target, word)
}

/// Whether the alias is found at the row's server in the row's zone, and the server holds a zone for the target.
fn is_followed(
    alloc: Global,
    asker: &mut AliasAsker<'_, '_>,
    row: &RowFiles,
    owner: &Name,
    target: &Name,
) -> Result<bool, NoMemory>
    ensures followed { IfOk result (λ followed. followed ≡ is_followed (walks_in asker.old) asker.old.config row.now owner.now target.now) }
    ensures kept { asker.new ≡ asker.old }
{
    if !is_near(asker.hosts(), row, owner, target) {
        return Ok(false);
    }
    asker.is_found(alloc, &row.server, owner)
}

/// Whether the row's server looks the alias up in the row's zone, and holds a zone for the target.
fn is_near(hosts: &Hosts<'_>, row: &RowFiles, owner: &Name, target: &Name) -> bool
    ensures { result ≡ (is_looked_up hosts.now row.now owner.now && is_some (nearest_of hosts.now row.now.server target.now)) }
{
    is_looked_up(hosts, row, owner) && holds_zone(hosts, &row.server, target)
}

/// Whether the server holds a zone for the name.
fn holds_zone(hosts: &Hosts<'_>, server: &Name, name: &Name) -> bool
    ensures { result ≡ is_some (nearest_of hosts.now server.now name.now) }
{
    match hosts.nearest_of(server, name) {
        Some(_) => true,
        None => false,
    }
}

/// Whether the row's zone is the one in which its server looks the name up.
fn is_looked_up(hosts: &Hosts<'_>, row: &RowFiles, name: &Name) -> bool
    ensures { result ≡ is_looked_up hosts.now row.now name.now }
{
    match hosts.nearest_of(&row.server, name) {
        Some(tree) => tree.zone().origin == row.origin,
        None => false,
    }
}

/// Puts the line of the word for a record's target at the end, if there is one.
fn put_word_line(
    alloc: Global,
    lines: &mut List<Line>,
    row: &RowFiles,
    rr: &Rr,
    target: &Name,
    word: Option<TargetWord>,
) -> Result<(), NoMemory>
    ensures { OnOk result (lines.new ≡ lines.old ++ alias_line row.now rr.now target.now word) }
{
    match word {
        Some(found) => {
            let columns = alias_columns(alloc, row, rr, target, found)?;
            put_line(alloc, lines, found.word.counts(), columns.items())
        }
        None => Ok(()),
    }
}

/// The columns of a line: the word, those of the record, the target and the type.
fn alias_columns(
    alloc: Global,
    row: &RowFiles,
    rr: &Rr,
    target: &Name,
    found: TargetWord,
) -> Result<List<Octets>, NoMemory>
    ensures { IfOk result (λ columns. columns ≡ alias_text found.word ∷ record_columns row.now rr.now ++ name_text target.now ∷ word_of found.rtype ∷ []) }
{
    let mut columns = List::new(alloc);
    put_octets(alloc, &mut columns, found.word.text().as_bytes())?;
    put_record_columns(alloc, &mut columns, row, rr)?;
    put_name_column(alloc, &mut columns, target)?;
    put_octets(alloc, &mut columns, found.rtype.word().as_bytes())?;
    Ok(columns)
}
