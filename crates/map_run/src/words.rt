//! What the words of the command line ask for.

ghost use Rattle.std.specs.Prelude.{◌≡◌, map, IfOk};
ghost use Rattle.map_run.specs.Words.{asked_by_word, asked_word, is_file, job_of, job_over, usage_line};

use dns_data::{NoMemory, Text};
use std::alloc::Global;

/// What is asked for.
#[derive(Clone, Copy, Debug, PartialEq, Eq)]
pub enum MapView {
    /// Each record, and where it was read.
    Records,
    /// Whether a query reaches each row.
    Reached,
    /// Each record whose target leads nowhere.
    Targets,
    /// The faults of delegations that need no walk.
    Delegations,
    /// How each copy of a zone stands to the first.
    Copies,
    /// Each name of a name server.
    Servers,
    /// Each alias into another zone of its server that resolvers see otherwise.
    Aliases,
    /// The DS records of zone cuts, beside the keys of the delegated zones.
    Chain,
}

/// What is asked for, over which metadata file.
#[derive(Debug, Drop)]
pub struct MapJob {
    pub asked: MapView,
    pub meta: Text,
}

impl MapView {
    /// What may be asked for.
    const ALL: [MapView; 8] = [
        MapView::Records,
        MapView::Reached,
        MapView::Targets,
        MapView::Delegations,
        MapView::Copies,
        MapView::Servers,
        MapView::Aliases,
        MapView::Chain,
    ];

    /// The word for what is asked for.
    fn word(&self) -> &'static str
        ensures { result.now ≡ asked_word self.now }
    {
        match self {
            MapView::Records => "records",
            MapView::Reached => "reached",
            MapView::Targets => "targets",
            MapView::Delegations => "delegations",
            MapView::Copies => "copies",
            MapView::Servers => "servers",
            MapView::Aliases => "aliases",
            MapView::Chain => "chain",
        }
    }

    /// What a word asks for. It is compared as written.
    fn by_word(word: &[u8]) -> Option<MapView>
        ensures { result ≡ asked_by_word word.now }
    {
        MapView::ALL
            .iter()
            .copied()
            .find(|asked| word == asked.word().as_bytes())
    }
}

/// The job that the words ask for, or none.
pub(crate) fn read_words(alloc: Global, words: &[&str]) -> Result<Option<MapJob>, NoMemory>
    ensures { IfOk result (λ job. job ≡ job_of (map (λ word. word.now) words.now)) }
{
    let [word, meta] = words else {
        return Ok(None);
    };
    if !is_file(meta) {
        return Ok(None);
    }
    job_over(alloc, meta, MapView::by_word(word.as_bytes()))
}

/// Whether the word names a metadata file.
fn is_file(word: &str) -> bool
    ensures { result ≡ is_file word.now }
{
    !word.is_empty() && !word.as_bytes().starts_with(b"-")
}

/// The job of what is asked for over a metadata file.
fn job_over(alloc: Global, meta: &str, asked: Option<MapView>) -> Result<Option<MapJob>, NoMemory>
    ensures { IfOk result (λ job. job ≡ job_over meta.now asked) }
{
    match asked {
        Some(asked) => Ok(Some(MapJob {
            asked,
            meta: Text::from_str(alloc, meta)?,
        })),
        None => Ok(None),
    }
}

/// The line on err where the words are no job, with its line feed.
pub(crate) fn usage_line() -> &'static str
    ensures { result.now ≡ usage_line }
{
    "usage: groot-map records META | reached META | targets META | delegations META | copies META | servers META | aliases META | chain META\n"
}
