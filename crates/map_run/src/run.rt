//! The top call.

ghost use Rattle.std.specs.Prelude.{◌≡◌, ◌⊎◌, map, Some};
ghost use Rattle.run_endings.specs.Endings.{no_memory, with_output};
ghost use Rattle.run_endings.specs.Runs.{files_of, output_of};
ghost use Rattle.run_endings.specs.declared.status.Status.TheVariants.{Clean};
ghost use Rattle.map_run.specs.Aliases.{IsAliases};
ghost use Rattle.map_run.specs.Chain.{chain_of};
ghost use Rattle.map_run.specs.Copies.{copies_of};
ghost use Rattle.map_run.specs.Delegations.{IsDelegations};
ghost use Rattle.map_run.specs.Limits.{WithinLimits};
ghost use Rattle.map_run.specs.Lines.{with_lines};
ghost use Rattle.map_run.specs.Outcome.{TellsAsked};
ghost use Rattle.map_run.specs.Runs.{WritesView, RunsAsAsked, EndsAsAsked, JobEnds};
ghost use Rattle.map_run.specs.Reached.{TellsRows};
ghost use Rattle.map_run.specs.Records.{records_text};
ghost use Rattle.map_run.specs.Servers.{IsServers};
ghost use Rattle.map_run.specs.Targets.{IsTargets};

use crate::aliases::aliases_ending;
use crate::by_ends::{EndsWord, word_ending};
use crate::chain::chain_ending;
use crate::copies::copies_ending;
use crate::reached_rows::reached_rows;
use crate::records::records_text;
use crate::words::{MapJob, MapView, read_words, usage_line};
use config_load::{Limits, Loaded, load_with_files};
use dns_data::NoMemory;
use io_edges::{Files, Sink};
use run_endings::{Ending, Status, write_ending};
use std::alloc::Global;

/// Does what the words after the program's name ask for, writes its text on out, and tells on err how it ended.
pub fn groot_map<F: Files, O: Sink, E: Sink>(
    alloc: Global,
    words: &[&str],
    files: &mut F,
    out: &mut O,
    err: &mut E,
) -> Status
    // For files that read, by the octets that were read of them, `records` writes exactly the records of their
    // configuration, in the order of rows, each with the file and the line from which it was read.
    ensures records { WritesView MapView.Records (λ all ending. ending ≡ with_output Clean (records_text all)) (map (λ word. word.now) words.now)
        (files_of F.told F.faults files.old files.new) (output_of O.taken O.passed O.faults out.old out.new) result }

    // `reached` writes the line of each row, which says whether a walk of the SOA query at the origin of its zone ends in
    // an answer at its server, and ends with 0 exactly if one does for each row; unless a query passes the limit of states.
    ensures reached { WritesView MapView.Reached (λ all ending. WithinLimits all.config all.rows (TellsRows all.config all.rows ending) ending) (map (λ word. word.now) words.now)
        (files_of F.told F.faults files.old files.new) (output_of O.taken O.passed O.faults out.old out.new) result }

    // `targets` writes exactly the lines of the records whose target leads nowhere, or only partly anywhere, or is an
    // alias, with the ends of its walks of type A and of type AAAA.
    ensures targets { WritesView MapView.Targets IsTargets (map (λ word. word.now) words.now)
        (files_of F.told F.faults files.old files.new) (output_of O.taken O.passed O.faults out.old out.new) result }

    // `delegations` writes exactly the lines of the name servers of each zone's cuts and origin: the faults of delegations
    // that need no walk, and the name servers of which no query finds an address.
    ensures delegations { WritesView MapView.Delegations IsDelegations (map (λ word. word.now) words.now)
        (files_of F.told F.faults files.old files.new) (output_of O.taken O.passed O.faults out.old out.new) result }

    // `copies` writes exactly how each copy of a zone stands to the first with its origin, in the order of rows.
    ensures copies { WritesView MapView.Copies (λ all ending. ending ≡ with_lines (copies_of all)) (map (λ word. word.now) words.now)
        (files_of F.told F.faults files.old files.new) (output_of O.taken O.passed O.faults out.old out.new) result }

    // `servers` writes exactly the line of each name that an NS record of an origin or of a zone cut has, and of each
    // configured server, in the order of names.
    ensures servers { WritesView MapView.Servers IsServers (map (λ word. word.now) words.now)
        (files_of F.told F.faults files.old files.new) (output_of O.taken O.passed O.faults out.old out.new) result }

    // `aliases` writes exactly the lines of the aliases for whose target their server answers otherwise than is found from
    // the top servers, in the order of rows.
    ensures aliases { WritesView MapView.Aliases IsAliases (map (λ word. word.now) words.now)
        (files_of F.told F.faults files.old files.new) (output_of O.taken O.passed O.faults out.old out.new) result }

    // `chain` writes exactly the lines of DS and DNSKEY records that don't have their form or stand at the wrong place, and
    // of the zone cuts whose DS records don't match the keys of the delegated zones.
    ensures chain { WritesView MapView.Chain (λ all ending. ending ≡ with_lines (chain_of all)) (map (λ word. word.now) words.now)
        (files_of F.told F.faults files.old files.new) (output_of O.taken O.passed O.faults out.old out.new) result }

    // Where nothing failed, the run is the outcome of the words' job, and out passed on exactly its text; else the run says
    // why.
    ensures run { RunsAsAsked (map (λ word. word.now) words.now)
        (files_of F.told F.faults files.old files.new) (output_of O.taken O.passed O.faults out.old out.new) (output_of E.taken E.passed E.faults err.old err.new) result }
{
    write_ending(out, err, run_words(alloc, words, files))
}

/// Does what the words after the program's name ask for, up to the writing: the status with which the run ends, the
/// text for out and the line for err.
fn run_words<F: Files>(alloc: Global, words: &[&str], files: &mut F) -> Ending
    // Where no read failed, it is the outcome of the words' job; else the ending says why.
    ensures run { EndsAsAsked (map (λ word. word.now) words.now) (files_of F.told F.faults files.old files.new) result }
{
    match read_words(alloc, words) {
        Ok(Some(job)) => of_job(alloc, files, &job),
        Ok(None) => Ending::usage(usage_line()),
        Err(NoMemory) => Ending::no_memory(),
    }
}

/// What a job gives.
fn of_job<F: Files>(alloc: Global, files: &mut F, job: &MapJob) -> Ending
    ensures { JobEnds (Some job.now) (files_of F.told F.faults files.old files.new) result }
{
    let meta = job.meta.as_str();
    match load_with_files(alloc, Limits::largest(), files, meta) {
        Ok(all) => {
            files.let_go_of_all();
            ending_of(alloc, job.asked, &all)
        }
        Err(fault) => Ending::not_loaded(alloc, meta, fault),
    }
}

/// How the run ends by what was read.
fn ending_of(alloc: Global, asked: MapView, all: &Loaded) -> Ending
    ensures { TellsAsked asked all.now result ⊎ (result ≡ no_memory) }
{
    match asked {
        MapView::Records => Ending::written(Status::Clean, records_text(alloc, all)),
        MapView::Reached => reached_rows(alloc, &all.config, all.rows.items()),
        MapView::Targets => word_ending(alloc, all, EndsWord::Targets),
        MapView::Delegations => word_ending(alloc, all, EndsWord::Delegations),
        MapView::Copies => copies_ending(alloc, all),
        MapView::Servers => word_ending(alloc, all, EndsWord::Servers),
        MapView::Aliases => aliases_ending(alloc, all),
        MapView::Chain => chain_ending(alloc, all),
    }
}
