//! The lines of DS records and of keys.

ghost use Rattle.std.specs.Prelude.{◌≡◌, ◌++◌, ◌∷◌, [], map, OnOk};
ghost use Rattle.std.specs.List.{find};
ghost use Rattle.std.specs.Option.{option_map};
ghost use Rattle.key_chain.specs.Keys.{is_entry_point};
ghost use Rattle.map_run.specs.Chain.{chain_counts, chain_text, child_line, ds_lines, match_lines, no_match_lines, record_line, record_lines, tag_text, tried, unmatched, unmatched_line, untold_lines};
ghost use Rattle.map_run.specs.Lines.{if_so};

use crate::lines::{
    Line, put_all, put_line, put_name_column, put_number_column, put_octets, put_place, row_columns,
};
use crate::placed::{PlacedKey, PlacedSigner, place_of, tried_of, unmatched_of};
use crate::signed::CutSigners;
use config_load::RowFiles;
use dns_data::{List, NoMemory, Octets, Rr};
use key_chain::{is_ds, is_entry_point, is_malformed};
use std::alloc::Global;
use zone_cuts::is_cut;
use zone_tree::Tree;

/// The words for DS records and for keys.
#[derive(Clone, Copy, Debug)]
pub(crate) enum ChainWord {
    /// A DS or DNSKEY record doesn't have its form.
    BadData,
    /// A DS record stands at a name that is no zone cut.
    Misplaced,
    /// There are DS records, and the delegated zone has no key.
    Unsigned,
    /// No DS record that is tried matches a key.
    NoMatch,
    /// A DS record matches no key, though another does.
    Unmatched,
    /// There are keys, and no DS record tells of one.
    Untold,
}

impl ChainWord {
    /// The word.
    fn text(&self) -> &'static str
        ensures { result.now ≡ chain_text self.now }
    {
        match self {
            ChainWord::BadData => "bad-data",
            ChainWord::Misplaced => "misplaced",
            ChainWord::Unsigned => "unsigned",
            ChainWord::NoMatch => "no-match",
            ChainWord::Unmatched => "unmatched",
            ChainWord::Untold => "untold",
        }
    }

    /// Whether its line counts for the status.
    fn counts(&self) -> bool
        ensures { result ≡ chain_counts self.now }
    {
        !matches!(self, ChainWord::Unmatched | ChainWord::Untold)
    }
}

/// Puts the lines of a record of a row's zone by itself at the end.
pub(crate) fn put_single_record(
    alloc: Global,
    lines: &mut List<Line>,
    row: &RowFiles,
    tree: &Tree<'_>,
    rr: &Rr,
) -> Result<(), NoMemory>
    ensures { OnOk result (lines.new ≡ lines.old ++ record_lines row.now tree.now.zone rr.now) }
{
    let malformed = is_malformed(alloc, &rr.rdata)?;
    put_record_line_if(alloc, lines, malformed, ChainWord::BadData, row, rr)?;
    let misplaced = is_ds(&rr.rdata) && !is_cut(tree, &rr.owner);
    put_record_line_if(alloc, lines, misplaced, ChainWord::Misplaced, row, rr)
}

/// Puts the line of a word at a record at the end, if it is so.
fn put_record_line_if(
    alloc: Global,
    lines: &mut List<Line>,
    holds: bool,
    word: ChainWord,
    row: &RowFiles,
    rr: &Rr,
) -> Result<(), NoMemory>
    ensures { OnOk result (lines.new ≡ lines.old ++ if_so holds (record_line word row.now rr.now ∷ [])) }
{
    if holds {
        put_record_line(alloc, lines, word, row, rr)
    } else {
        Ok(())
    }
}

/// Puts the line of a word at a record at the end.
fn put_record_line(
    alloc: Global,
    lines: &mut List<Line>,
    word: ChainWord,
    row: &RowFiles,
    rr: &Rr,
) -> Result<(), NoMemory>
    ensures { OnOk result (lines.new ≡ lines.old ++ record_line word row.now rr.now ∷ []) }
{
    let mut columns = row_columns(alloc, word.text(), row)?;
    put_name_column(alloc, &mut columns, &rr.owner)?;
    put_octets(alloc, &mut columns, b"")?;
    put_octets(alloc, &mut columns, b"")?;
    put_place(alloc, &mut columns, row, Some(rr))?;
    put_line(alloc, lines, word.counts(), columns.items())
}

/// Puts the lines of the DS records of a zone cut and of the keys of a row with the delegated zone at the end.
pub(crate) fn put_pair(
    alloc: Global,
    lines: &mut List<Line>,
    at: &CutSigners<'_, '_>,
    child: &RowFiles,
    keys: &[PlacedKey],
) -> Result<(), NoMemory>
    ensures { OnOk result (lines.new ≡ lines.old ++ ds_lines at.now child.now at.now.rrs keys.now) }
{
    match (at.rrs(), keys) {
        ([], _) => put_untold(alloc, lines, at, child, keys),
        ([first, ..], []) => put_unsigned(alloc, lines, at, child, *first),
        _ => put_matches(alloc, lines, at, child, keys),
    }
}

/// Puts the line of a zone cut whose delegated zone has no key at the end, at the place of the first DS record.
fn put_unsigned(
    alloc: Global,
    lines: &mut List<Line>,
    at: &CutSigners<'_, '_>,
    child: &RowFiles,
    first: &Rr,
) -> Result<(), NoMemory>
    ensures { OnOk result (lines.new ≡ lines.old ++ ds_lines at.now child.now (first.now ∷ []) []) }
{
    let place = place_of(alloc, at.row(), first)?;
    put_child_line(
        alloc,
        lines,
        ChainWord::Unsigned,
        at,
        child,
        None,
        place.items(),
    )
}

/// Puts the line of the first key that is a secure entry point at the end, where there is one.
fn put_untold(
    alloc: Global,
    lines: &mut List<Line>,
    at: &CutSigners<'_, '_>,
    child: &RowFiles,
    keys: &[PlacedKey],
) -> Result<(), NoMemory>
    ensures { OnOk result (lines.new ≡ lines.old ++ untold_lines at.now child.now keys.now) }
{
    match first_entry_point(keys) {
        Some(one) => put_child_line(
            alloc,
            lines,
            ChainWord::Untold,
            at,
            child,
            Some(one.key.tag),
            one.place.items(),
        ),
        None => Ok(()),
    }
}

/// The first key that is a secure entry point.
fn first_entry_point(keys: &[PlacedKey]) -> Option<&PlacedKey>
    ensures { option_map (λ one. one.now) result ≡ find (λ one. is_entry_point one.key) keys.now }
{
    keys.iter().find(|one| is_entry_point(&one.key))
}

/// Puts the lines of the signers that are tried at the end, where there are keys.
fn put_matches(
    alloc: Global,
    lines: &mut List<Line>,
    at: &CutSigners<'_, '_>,
    child: &RowFiles,
    keys: &[PlacedKey],
) -> Result<(), NoMemory>
    ensures { OnOk result (lines.new ≡ lines.old ++ match_lines at.now child.now (tried at.now.signers) (unmatched keys.now (tried at.now.signers))) }
{
    let signers = tried_of(alloc, at.signers())?;
    let others = unmatched_of(alloc, keys, signers.items())?;
    if others.len() == signers.len() {
        put_no_match(alloc, lines, at, child, signers.items())
    } else {
        put_unmatched(alloc, lines, at, child, others.items())
    }
}

/// Puts the line of signers of which none matches at the end, at the place of the first.
fn put_no_match(
    alloc: Global,
    lines: &mut List<Line>,
    at: &CutSigners<'_, '_>,
    child: &RowFiles,
    signers: &[&PlacedSigner],
) -> Result<(), NoMemory>
    ensures { OnOk result (lines.new ≡ lines.old ++ no_match_lines at.now child.now (map (λ one. one.now) signers.now)) }
{
    match signers {
        [first, ..] => put_child_line(
            alloc,
            lines,
            ChainWord::NoMatch,
            at,
            child,
            None,
            first.place.items(),
        ),
        [] => Ok(()),
    }
}

/// Puts the lines of signers that match no key at the end.
fn put_unmatched(
    alloc: Global,
    lines: &mut List<Line>,
    at: &CutSigners<'_, '_>,
    child: &RowFiles,
    others: &[&PlacedSigner],
) -> Result<(), NoMemory>
    ensures { OnOk result (lines.new ≡ lines.old ++ map (unmatched_line at.now child.now) (map (λ one. one.now) others.now)) }
{
    for one in others {
        let tag = Some(one.signer.tag);
        let place = one.place.items();
        put_child_line(alloc, lines, ChainWord::Unmatched, at, child, tag, place)?;
    }
    Ok(())
}

/// Puts the line of a word beside a row with the delegated zone at the end.
fn put_child_line(
    alloc: Global,
    lines: &mut List<Line>,
    word: ChainWord,
    at: &CutSigners<'_, '_>,
    child: &RowFiles,
    tag: Option<u16>,
    place: &[Octets],
) -> Result<(), NoMemory>
    ensures { OnOk result (lines.new ≡ lines.old ++ child_line word at.now child.now tag place.now ∷ []) }
{
    let mut columns = row_columns(alloc, word.text(), at.row())?;
    put_name_column(alloc, &mut columns, at.cut())?;
    put_name_column(alloc, &mut columns, &child.server)?;
    put_tag(alloc, &mut columns, tag)?;
    put_all(alloc, &mut columns, place)?;
    put_line(alloc, lines, word.counts(), columns.items())
}

/// Puts the column of a tag at the end, empty where there is none.
fn put_tag(alloc: Global, columns: &mut List<Octets>, tag: Option<u16>) -> Result<(), NoMemory>
    ensures { OnOk result (columns.new ≡ columns.old ++ tag_text tag ∷ []) }
{
    match tag {
        Some(tag) => put_number_column(alloc, columns, u64::from(tag)),
        None => put_octets(alloc, columns, b""),
    }
}
