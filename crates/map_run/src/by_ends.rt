//! The lines of words that go by how the walks of names end.

ghost use Rattle.std.specs.Prelude.{◌≡◌, ◌⊎◌, IfOk};
ghost use Rattle.net_model.specs.Step.{following};
ghost use Rattle.name_ends.specs.Asked.{ends_in};
ghost use Rattle.plain_resolver.specs.Passed.{most_walks_followed};
ghost use Rattle.run_endings.specs.Endings.{no_memory, too_many_to_learn};
ghost use Rattle.map_run.specs.Asked.{GivenByEnds};
ghost use Rattle.map_run.specs.EndsWords.{lines_by};
ghost use Rattle.map_run.specs.Lines.{with_lines};
ghost use Rattle.map_run.specs.Rewrites.{most_rewrites};

use crate::delegations::delegations_of;
use crate::limits::REWRITES;
use crate::lines::{Line, with_lines};
use crate::servers::servers_of;
use crate::targets::targets_of;
use config_load::{Loaded, RowFiles};
use dns_data::{List, Name, NoMemory};
use name_ends::Asker;
use plain_resolver::{LearntFault, MOST_WALKS_FOLLOWED, learnt_at};
use run_endings::Ending;
use std::alloc::Global;
use zone_lookup::Hosts;

/// The words whose lines go by how the walks of names end.
#[derive(Clone, Copy, Debug)]
pub(crate) enum EndsWord {
    Targets,
    Delegations,
    Servers,
}

/// The lines of a word, or the first server whose name has too many walks to learn its address.
pub(crate) fn word_ending(alloc: Global, all: &Loaded, word: EndsWord) -> Ending
    ensures { GivenByEnds all.now.config (lines_by word all.now) result ⊎ (result ≡ no_memory) }
{
    match Hosts::build(alloc, &all.config) {
        Ok(hosts) => word_by_trees(alloc, &hosts, all.rows.items(), word),
        Err(NoMemory) => Ending::no_memory(),
    }
}

/// The lines of a word of rows, where the trees of the configuration's zones are built.
fn word_by_trees(alloc: Global, hosts: &Hosts<'_>, rows: &[RowFiles], word: EndsWord) -> Ending
    ensures { GivenByEnds hosts.now (lines_by word (record { config = hosts.now; rows = rows.now })) result ⊎ (result ≡ no_memory) }
{
    let none = List::new(alloc);
    match learnt_at(alloc, hosts, REWRITES, &none, MOST_WALKS_FOLLOWED) {
        Ok(followed) => word_while(alloc, hosts, followed.items(), rows, word),
        Err(LearntFault::WalksPassed(server)) => too_many_to_learn(alloc, server),
        Err(LearntFault::NoMemory) => Ending::no_memory(),
    }
}

/// The ending that names the first server whose name has too many walks to learn its address.
pub(crate) fn too_many_to_learn(alloc: Global, server: Name) -> Ending
    ensures { (result ≡ too_many_to_learn most_walks_followed server) ⊎ (result ≡ no_memory) }
{
    Ending::too_many_to_learn(alloc, MOST_WALKS_FOLLOWED, &server)
}

/// The lines of a word of rows, while these servers are followed.
fn word_while(
    alloc: Global,
    hosts: &Hosts<'_>,
    followed: &[Name],
    rows: &[RowFiles],
    word: EndsWord,
) -> Ending
    ensures { (result ≡ with_lines (lines_by word (record { config = hosts.now; rows = rows.now }) (ends_in (following hosts.now most_rewrites followed.now)))) ⊎ (result ≡ no_memory) }
{
    let mut asker = Asker::new(alloc, hosts, REWRITES, followed);
    match lines_of(alloc, &mut asker, rows, word) {
        Ok(lines) => with_lines(alloc, lines.items()),
        Err(NoMemory) => Ending::no_memory(),
    }
}

/// The lines of a word.
fn lines_of(
    alloc: Global,
    asker: &mut Asker<'_, '_>,
    rows: &[RowFiles],
    word: EndsWord,
) -> Result<List<Line>, NoMemory>
    ensures { IfOk result (λ lines. lines ≡ lines_by word (record { config = asker.old.config; rows = rows.now }) (ends_in asker.old)) }
{
    match word {
        EndsWord::Targets => targets_of(alloc, asker, rows),
        EndsWord::Delegations => delegations_of(alloc, asker, rows),
        EndsWord::Servers => servers_of(alloc, asker, rows),
    }
}
