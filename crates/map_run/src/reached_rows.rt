//! The lines of rows.

ghost use Rattle.std.specs.Prelude.{◌≡◌, ◌⊎◌, ◌++◌, Bool, List, length, map, IfOk, OnOk};
ghost use Rattle.std.specs.List.{list_all};
ghost use Rattle.config_load.specs.Faults.{name_numbered};
ghost use Rattle.dns_data.specs.DataText.{separated};
ghost use Rattle.query_verdicts.specs.Queries.{ServerPasses};
ghost use Rattle.run_endings.specs.Endings.{no_memory, with_output};
ghost use Rattle.map_run.specs.Columns.{file_text, columns_line, tab};
ghost use Rattle.map_run.specs.Limits.{WithinLimits, WithinOrigins, reached_queries};
ghost use Rattle.map_run.specs.Reached.{TellsRows, reached_status, reached_text, reached_word, row_columns};

use crate::columns::{put_file, put_name, put_number, put_tab};
use crate::limits::REWRITES;
use crate::reached::{Reached, reached_word};
use crate::records::file_numbered;
use crate::shown::show_origins;
use config_load::RowFiles;
use dns_data::{NoMemory, Octets, Text};
use net_model::Config;
use query_verdicts::{MOST_STATES, QueryGraphs};
use run_endings::{Ending, Status};
use site_checks::SiteCheck;
use std::alloc::Global;

/// The lines of the rows of a configuration, each with whether a query reaches it, unless some query reaches too many pairs
/// of state and type.
pub(crate) fn reached_rows(alloc: Global, config: &Config, rows: &[RowFiles]) -> Ending
    ensures { WithinLimits config.now rows.now (TellsRows config.now rows.now result) result ⊎ (result ≡ no_memory) }
{
    match QueryGraphs::prepare(alloc, config, REWRITES, MOST_STATES) {
        Ok(graphs) => by_graphs(alloc, &graphs, rows),
        Err(NoMemory) => Ending::no_memory(),
    }
}

/// The lines of rows, by the graphs of queries.
fn by_graphs(alloc: Global, graphs: &QueryGraphs<'_>, rows: &[RowFiles]) -> Ending
    requires limits { graphs.now ≡ reached_queries graphs.now.config }
    ensures { WithinLimits graphs.now.config rows.now (TellsRows graphs.now.config rows.now result) result ⊎ (result ≡ no_memory) }
{
    match graphs.sets() {
        Ok(_) => by_views(alloc, graphs, rows),
        Err(server) => Ending::too_many_states(alloc, MOST_STATES, server),
    }
}

/// The lines of rows, by a check of them that is shown the views of their origins.
fn by_views(alloc: Global, graphs: &QueryGraphs<'_>, rows: &[RowFiles]) -> Ending
    requires limits { graphs.now ≡ reached_queries graphs.now.config }
    requires clear { ServerPasses graphs.now → ⊥ }
    ensures { WithinOrigins graphs.now rows.now (TellsRows graphs.now.config rows.now result) result ⊎ (result ≡ no_memory) }
{
    let mut check = Reached::of_rows(alloc, rows);
    match show_origins(alloc, graphs, rows, &mut check) {
        Ok(()) => lines_by_check(alloc, rows, &check),
        Err(ending) => ending,
    }
}

/// The lines of rows, by the check.
fn lines_by_check<'a>(alloc: Global, rows: &[RowFiles], check: &Reached<'a>) -> Ending
    requires { length (⟦<Reached<'a> as SiteCheck>⟧.held check.now) ≡ length rows.now }
    ensures { ((reached : List Bool) × (map reached_word reached ≡ ⟦<Reached<'a> as SiteCheck>⟧.held check.now)
        × (result ≡ with_output (reached_status reached) (reached_text 1 reached rows.now))) ⊎ (result ≡ no_memory) }
{
    match check.are_reached(alloc) {
        Ok(reached) => with_lines(alloc, rows, reached.as_slice()),
        Err(NoMemory) => Ending::no_memory(),
    }
}

/// The lines of rows, by whether each is reached.
fn with_lines(alloc: Global, rows: &[RowFiles], reached: &[bool]) -> Ending
    requires { length reached.now ≡ length rows.now }
    ensures { (result ≡ with_output (reached_status reached.now) (reached_text 1 reached.now rows.now)) ⊎ (result ≡ no_memory) }
{
    Ending::written(status_of(reached), text_of(alloc, rows, reached))
}

/// The status with which the run ends.
fn status_of(reached: &[bool]) -> Status
    ensures { result ≡ reached_status reached.now }
{
    if are_all_reached(reached) {
        Status::Clean
    } else {
        Status::Faults
    }
}

/// Whether each row is reached.
fn are_all_reached(reached: &[bool]) -> bool
    ensures { result ≡ list_all (λ one. one) reached.now }
{
    reached.iter().all(|one| *one)
}

/// The lines of rows, by whether each is reached.
fn text_of(alloc: Global, rows: &[RowFiles], reached: &[bool]) -> Result<Octets, NoMemory>
    requires { length reached.now ≡ length rows.now }
    ensures { IfOk result (λ text. text ≡ reached_text 1 reached.now rows.now) }
{
    let mut text = Octets::new();
    for (i, row) in rows.iter().enumerate() {
        put_row_line(alloc, &mut text, i + 1, reached[i], row)?;
    }
    Ok(text)
}

/// Puts the line of a row, which has this number, at the end.
fn put_row_line(
    alloc: Global,
    text: &mut Octets,
    number: usize,
    reached: bool,
    row: &RowFiles,
) -> Result<(), NoMemory>
    ensures { OnOk result (text.new ≡ text.old ++ columns_line (row_columns number reached row.now)) }
{
    put_columns(alloc, text, number, reached, row)?;
    text.push(alloc, b'\n')
}

/// Puts the columns of a row, which has this number, at the end.
fn put_columns(
    alloc: Global,
    text: &mut Octets,
    number: usize,
    reached: bool,
    row: &RowFiles,
) -> Result<(), NoMemory>
    ensures { OnOk result (text.new ≡ text.old ++ separated tab (row_columns number reached row.now)) }
{
    put_word(alloc, text, reached)?;
    put_tab(alloc, text)?;
    put_number(alloc, text, number as u64)?;
    put_tab(alloc, text)?;
    put_name(alloc, text, &row.server)?;
    put_tab(alloc, text)?;
    put_name(alloc, text, &row.origin)?;
    put_tab(alloc, text)?;
    put_first_file(alloc, text, row.files.items())
}

/// Puts the word of a row at the end.
fn put_word(alloc: Global, text: &mut Octets, reached: bool) -> Result<(), NoMemory>
    ensures { OnOk result (text.new ≡ text.old ++ reached_word reached) }
{
    text.extend_from_slice(alloc, reached_word(reached).as_bytes())
}

/// Puts the name of a row's own file, the first of its files, at the end.
fn put_first_file(alloc: Global, text: &mut Octets, files: &[Text]) -> Result<(), NoMemory>
    ensures { OnOk result (text.new ≡ text.old ++ file_text (name_numbered files.now 0)) }
{
    put_file(alloc, text, file_numbered(files, 0))
}
