//! The lines of targets.

ghost use Rattle.std.specs.Prelude.{◌≡◌, ◌++◌, Some, None, if◌then◌else◌, IfOk, OnOk};
ghost use Rattle.std.specs.List.{flat_map};
ghost use Rattle.std.specs.Option.{option_map};
ghost use Rattle.name_ends.specs.Asked.{ends_in};
ghost use Rattle.map_run.specs.Records.{record_columns};
ghost use Rattle.map_run.specs.Targets.{are_partly_dead, ends_dead, host_of, is_name_server, is_pointer, is_reverse, kinds_text, leads_nowhere, leads_partly, record_lines, row_lines, seems_dead, target_columns, target_in, target_line, target_lines, targets_of, type_ends_text, word_if};

use crate::lines::{Line, put_columns_between, put_line, put_name_column, put_octets};
use crate::records::record_columns;
use config_load::RowFiles;
use dns_data::{List, Name, NoMemory, Octets, Rdata, Rr};
use name_ends::{Asker, NameEnds, TypeEnds};
use std::alloc::Global;
use zone_cuts::has_servers;
use zone_tree::Tree;

/// The lines of the targets of the records of rows, in order.
pub(crate) fn targets_of(
    alloc: Global,
    asker: &mut Asker<'_, '_>,
    rows: &[RowFiles],
) -> Result<List<Line>, NoMemory>
    ensures { IfOk result (λ lines. lines ≡ targets_of (record { config = asker.old.config; rows = rows.now }) (ends_in asker.old)) }
{
    let mut lines = List::new(alloc);
    for row in rows {
        put_row_targets(alloc, &mut lines, asker, row)?;
    }
    Ok(lines)
}

/// Puts the lines of a row's records at the end.
fn put_row_targets(
    alloc: Global,
    lines: &mut List<Line>,
    asker: &mut Asker<'_, '_>,
    row: &RowFiles,
) -> Result<(), NoMemory>
    ensures lines { OnOk result (lines.new ≡ lines.old ++ row_lines (ends_in asker.old) asker.old.config row.now) }
    ensures kept { asker.new ≡ asker.old }
{
    match asker.hosts().held_zone(&row.server, &row.origin) {
        Some(tree) => put_zone_targets(alloc, lines, asker, row, tree, tree.zone().rrs.items()),
        None => Ok(()),
    }
}

/// Puts the lines of records at the end.
fn put_zone_targets(
    alloc: Global,
    lines: &mut List<Line>,
    asker: &mut Asker<'_, '_>,
    row: &RowFiles,
    tree: &Tree<'_>,
    rrs: &[Rr],
) -> Result<(), NoMemory>
    ensures lines { OnOk result (lines.new ≡ lines.old ++ flat_map (record_lines (ends_in asker.old) row.now tree.now.zone) rrs.now) }
    ensures kept { asker.new ≡ asker.old }
{
    for rr in rrs {
        put_record_target(alloc, lines, asker, row, tree, rr)?;
    }
    Ok(())
}

/// Puts the lines of a record at the end.
fn put_record_target(
    alloc: Global,
    lines: &mut List<Line>,
    asker: &mut Asker<'_, '_>,
    row: &RowFiles,
    tree: &Tree<'_>,
    rr: &Rr,
) -> Result<(), NoMemory>
    ensures lines { OnOk result (lines.new ≡ lines.old ++ record_lines (ends_in asker.old) row.now tree.now.zone rr.now) }
    ensures kept { asker.new ≡ asker.old }
{
    match target_in(tree, rr) {
        Some(target) => {
            let ends = asker.ends(alloc, target)?;
            put_target(alloc, lines, row, rr, target, &ends)
        }
        None => Ok(()),
    }
}

/// Puts the lines of a record and its target at the end.
fn put_target(
    alloc: Global,
    lines: &mut List<Line>,
    row: &RowFiles,
    rr: &Rr,
    target: &Name,
    ends: &NameEnds,
) -> Result<(), NoMemory>
    ensures { OnOk result (lines.new ≡ lines.old ++ target_lines row.now rr.now target.now ends.now) }
{
    let alias = ends.is_alias() && !is_pointer(&rr.rdata);
    if !(leads_nowhere(ends) || leads_partly(ends) || alias) {
        return Ok(());
    }
    let columns = target_columns(alloc, row, rr, target, ends)?;
    put_if(alloc, lines, leads_nowhere(ends), true, &columns, "nowhere")?;
    put_if(alloc, lines, leads_partly(ends), false, &columns, "partly")?;
    put_if(
        alloc,
        lines,
        alias,
        is_name_server(&rr.rdata),
        &columns,
        "alias",
    )
}

/// Puts the line of a word with these columns before it at the end, if it holds.
fn put_if(
    alloc: Global,
    lines: &mut List<Line>,
    holds: bool,
    counts: bool,
    columns: &List<Octets>,
    word: &str,
) -> Result<(), NoMemory>
    ensures { OnOk result (lines.new ≡ lines.old ++ target_line holds counts columns.now word.now) }
{
    if !holds {
        return Ok(());
    }
    let mut all = columns.copy(alloc)?;
    put_octets(alloc, &mut all, word.as_bytes())?;
    put_line(alloc, lines, counts, all.items())
}

/// The columns of a line before its word: those of the record, the target, and the ends of its walks.
fn target_columns(
    alloc: Global,
    row: &RowFiles,
    rr: &Rr,
    target: &Name,
    ends: &NameEnds,
) -> Result<List<Octets>, NoMemory>
    ensures { IfOk result (λ columns. columns ≡ target_columns row.now rr.now target.now ends.now) }
{
    let mut columns = record_columns(alloc, row, rr)?;
    put_name_column(alloc, &mut columns, target)?;
    columns.push(type_ends_text(alloc, &ends.four)?)?;
    columns.push(type_ends_text(alloc, &ends.six)?)?;
    Ok(columns)
}

/// The ends of the walks of a type, or that there are more walks than are followed.
fn type_ends_text(alloc: Global, ends: &Option<TypeEnds>) -> Result<Octets, NoMemory>
    ensures { IfOk result (λ text. text ≡ type_ends_text ends.now) }
{
    match ends {
        Some(ends) => kinds_text(alloc, ends),
        None => Octets::from_octets(alloc, b"too many walks"),
    }
}

/// The words of the kinds of ends that some walk has, with a comma between.
fn kinds_text(alloc: Global, ends: &TypeEnds) -> Result<Octets, NoMemory>
    ensures { IfOk result (λ text. text ≡ kinds_text ends.now) }
{
    let kinds = [
        (ends.answer, "answer"),
        (ends.no_data, "nodata"),
        (ends.no_name, "nxdomain"),
        (ends.outside, "outside"),
        (ends.unhosted, "unhosted"),
        (ends.lame, "lame"),
        (ends.no_address, "no-address"),
        (ends.limit, "limit"),
        (ends.overlong, "overlong"),
    ];
    let words = words_if(alloc, &kinds)?;
    let mut text = Octets::new();
    put_columns_between(alloc, &mut text, b",", words.items())?;
    Ok(text)
}

/// The words of kinds that some walk has.
fn words_if(alloc: Global, kinds: &[(bool, &str)]) -> Result<List<Octets>, NoMemory>
    ensures { IfOk result (λ words. words ≡ flat_map (λ one. word_if one.0 one.1.now) kinds.now) }
{
    let mut words = List::new(alloc);
    for one in kinds {
        put_word_if(alloc, &mut words, one.0, one.1)?;
    }
    Ok(words)
}

/// Puts a word at the end, if it holds.
fn put_word_if(
    alloc: Global,
    words: &mut List<Octets>,
    holds: bool,
    word: &str,
) -> Result<(), NoMemory>
    ensures { OnOk result (words.new ≡ words.old ++ word_if holds word.now) }
{
    if holds {
        put_octets(alloc, words, word.as_bytes())?;
    }
    Ok(())
}

/// Whether of both types each walk ends in no data or in no such name, or there are more than are followed.
fn leads_nowhere(ends: &NameEnds) -> bool
    ensures { result ≡ leads_nowhere ends.now }
{
    seems_dead(&ends.four) && seems_dead(&ends.six)
}

/// Whether no walk of a type is known that ends otherwise than in no data or in no such name.
fn seems_dead(ends: &Option<TypeEnds>) -> bool
    ensures { result ≡ seems_dead ends.now }
{
    match ends {
        Some(ends) => ends.only_dead(),
        None => true,
    }
}

/// Whether a walk that leads out of what is configured may find the name, and none inside does.
fn leads_partly(ends: &NameEnds) -> bool
    ensures { result ≡ leads_partly ends.now }
{
    !leads_nowhere(ends) && are_partly_dead(&ends.four, &ends.six)
}

/// Whether of both types no walk ends in an answer, and some walk ends in no data or in no such name.
fn are_partly_dead(four: &Option<TypeEnds>, six: &Option<TypeEnds>) -> bool
    ensures { result ≡ are_partly_dead four.now six.now }
{
    match (four, six) {
        (Some(four), Some(six)) => {
            !(four.answer || six.answer) && (ends_dead(four) || ends_dead(six))
        }
        _ => false,
    }
}

/// Whether some walk ends in no data or in no such name.
fn ends_dead(ends: &TypeEnds) -> bool
    ensures { result ≡ ends_dead ends.now }
{
    ends.no_data || ends.no_name
}

/// Whether the data are a pointer.
fn is_pointer(rdata: &Rdata) -> bool
    ensures { result ≡ is_pointer rdata.now }
{
    matches!(rdata, Rdata::Ptr(_))
}

/// Whether the data name a name server.
fn is_name_server(rdata: &Rdata) -> bool
    ensures { result ≡ is_name_server rdata.now }
{
    matches!(rdata, Rdata::Ns(_))
}

/// The target of a record of a zone, if it is looked at.
fn target_in<'r>(tree: &Tree<'_>, rr: &'r Rr) -> Option<&'r Name>
    ensures { option_map (λ target. target.now) result ≡ target_in tree.now.zone rr.now.owner rr.now.rdata }
{
    match &rr.rdata {
        Rdata::Mx { exchange, .. } => host_of(exchange),
        Rdata::Srv { target, .. } => host_of(target),
        Rdata::Ns(target) => target_if(has_servers(tree, &rr.owner), target),
        Rdata::Ptr(target) => target_if(is_reverse(&tree.zone().origin), target),
        _ => None,
    }
}

/// The host of a mail exchange or a service, none where the name is the root (RFC 7505 section 3, RFC 2782).
fn host_of(name: &Name) -> Option<&Name>
    ensures { option_map (λ host. host.now) result ≡ host_of name.now }
{
    if name.labels().is_empty() {
        None
    } else {
        Some(name)
    }
}

/// The target, if it is looked at.
fn target_if(looked_at: bool, target: &Name) -> Option<&Name>
    ensures { option_map (λ target. target.now) result ≡ (if looked_at then Some target.now else None) }
{
    if looked_at { Some(target) } else { None }
}

/// Whether the name is at or below `in-addr.arpa.` or `ip6.arpa.` (RFC 1035 section 3.5, RFC 3596 section 2.5).
fn is_reverse(name: &Name) -> bool
    ensures { result ≡ is_reverse name.now }
{
    let labels = name.labels();
    let Some((top, below)) = labels.split_first() else {
        return false;
    };
    let Some((next, _)) = below.split_first() else {
        return false;
    };
    top == "arpa".as_bytes() && (next == "in-addr".as_bytes() || next == "ip6".as_bytes())
}
