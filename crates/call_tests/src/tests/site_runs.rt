//! Runs with checks that an operator brings: each is asked once what it found, these are let go however a run ends, and one
//! of them may run out of memory.

use super::configs::{ALONE, files};
use dns_data::{List, NoMemory};
use groot_run::{Status, groot_with_sites};
use io_edges::{FreeGate, MemoryFiles, MemorySink};
use site_checks::{Line, SiteCheck, View};
use std::alloc::Global;
use std::sync::atomic::{AtomicU64, Ordering};
use std::sync::{Arc, Wait};
use std::test::Fail;
use std::thread::Threads;

/// A zone in which `www.t.` has an address.
const ZONE: &str = "t. 60 SOA ns.t. h.t. 1 2 3 4 5\nt. 60 NS ns.t.\nwww.t. 60 A 10.0.0.1\n";

/// A zone that is refused: a number of an address is too large.
const REFUSED: &str = "t. 60 SOA ns.t. h.t. 1 2 3 4 5\nt. 60 NS ns.t.\nwww.t. 60 A 10.0.0.256\n";

/// A check that finds nothing, and may run out of memory at its first view. It adds to a shared count when it is let go,
/// when it is asked for its title, and when it is asked what it found.
struct LetGo {
    count: Arc<AtomicU64>,
    fails: bool,
}

/// What is added when the check is let go, asked for its title, and asked what it found.
const GONE: u64 = 1;

const TITLED: u64 = 100;

const FOUND: u64 = 10_000;

impl Drop for LetGo {
    fn drop(self) {
        let LetGo { count, fails: _ } = self;
        count.fetch_add(GONE, Ordering::SeqCst);
    }
}

impl SiteCheck for LetGo {
    ghost use Rattle.std.specs.Prelude.{[], codes};

    ghost name = { λ check. codes "let-go" };

    ghost held = { λ check. [] };

    ghost step = { λ check held view. [] };

    fn title(&self, alloc: Global) -> Result<Line, NoMemory> {
        self.count.fetch_add(TITLED, Ordering::SeqCst);
        Line::of_text(alloc, "let-go")
    }

    fn see(&mut self, _alloc: Global, _view: &View) -> Result<(), NoMemory> {
        if self.fails {
            return Err(NoMemory);
        }
        Ok(())
    }

    fn findings(&self, alloc: Global) -> Result<List<Line>, NoMemory> {
        self.count.fetch_add(FOUND, Ordering::SeqCst);
        Ok(List::new(alloc))
    }
}

/// How a run ends: its number, and what out and err took.
#[derive(Drop)]
struct End {
    number: u8,
    out: &'static str,
    err: &'static str,
}

/// What a run writes on, and the files that it reads.
#[derive(Drop)]
struct Around {
    files: MemoryFiles,
    out: MemorySink,
    err: MemorySink,
}

/// The files of one zone, and two outputs with room for any of these runs.
fn over_zone(alloc: Global, zone: &str) -> Result<Around, NoMemory> {
    Ok(Around {
        files: files(alloc, ALONE, &[("t.zone", zone)], List::new(alloc))?,
        out: MemorySink::new(alloc, 200, List::new(alloc))?,
        err: MemorySink::new(alloc, 100, List::new(alloc))?,
    })
}

/// Whether the run has ended so.
fn has_ended(status: &Status, around: &Around, end: &End) -> bool {
    status.number() == end.number
        && around.out.taken() == end.out.as_bytes()
        && around.err.taken() == end.err.as_bytes()
}

/// Whether a run ends so over a zone, with one check that shares this count and fails or not.
fn ends<R: Threads + Wait + Sync>(
    rt: &R,
    alloc: Global,
    words: &[&str],
    zone: &str,
    count: &Arc<AtomicU64>,
    fails: bool,
    end: &End,
) -> Result<bool, NoMemory> {
    let mut around = over_zone(alloc, zone)?;
    let mut sites: Vec<Box<dyn SiteCheck>> = Vec::new(alloc);
    let count = Arc::try_clone(count)?;
    sites.push(Box::new(alloc, LetGo { count, fails })?)?;
    let Around { files, out, err } = &mut around;
    let status = groot_with_sites(rt, alloc, words, files, out, err, &FreeGate, sites);
    Ok(has_ended(&status, &around, end))
}

/// What was added to the check's count in a run that ends so, or `None` where it ends otherwise.
fn added<R: Threads + Wait + Sync>(
    rt: &R,
    alloc: Global,
    words: &[&str],
    zone: &str,
    fails: bool,
    end: &End,
) -> Result<Option<u64>, NoMemory> {
    let count = Arc::new(alloc, AtomicU64::new(0))?;
    let has_ended = ends(rt, alloc, words, zone, &count, fails, end)?;
    Ok(has_ended.then_some(count.load(Ordering::SeqCst)))
}

/// The words of both commands that show classes to checks.
const SITE: &[&str] = &["site", "m.json"];

const SCOPE: &[&str] = &["scope", "m.json", "t."];

const OF_SITE: &str = "{\"sites\":[{\"findings\":[],\"name\":\"let-go\"}]}\n";

const OF_SCOPE: &str =
    "{\"classes\":4,\"faults\":[],\"names\":2,\"rewrites\":12,\"scope\":\"t.\",\"sites\":[{\"findings\":[],\"name\":\"let-go\"}]}\n";

// The check is asked once and let go once where the run tells what it found. Where a file is refused, and where the check
// ran out of memory, nothing is written, and it is let go too.
#[test]
fn checks_are_asked_once_and_let_go_however_a_run_ends(rt: HostRuntime) -> Result<(), Fail> {
    let cases = [
        (
            ZONE,
            false,
            0,
            [OF_SITE, OF_SCOPE],
            "",
            FOUND + TITLED + GONE,
        ),
        (REFUSED, false, 3, ["", ""], "t.zone:3: bad-address\n", GONE),
        (ZONE, true, 7, ["", ""], "no memory\n", GONE),
    ];
    for (zone, fails, number, [of_site, of_scope], err, counted) in cases {
        for (words, out) in [(SITE, of_site), (SCOPE, of_scope)] {
            let end = End { number, out, err };
            let added = added(&rt, rt.alloc(), words, zone, fails, &end)?;
            assert_eq!(rt; added, Some(counted), "{words:?}, status {number}");
        }
    }
    Ok(())
}
