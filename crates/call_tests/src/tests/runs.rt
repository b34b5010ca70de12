//! Whole runs in which a read or a write fails, and one with two workers at once. Those over a disk stand in cases/.

use super::configs::{ALONE, files};
use dns_data::{List, NoMemory};
use groot_run::groot;
use io_edges::{FreeGate, Gate, MemoryFiles, MemorySink};
use std::alloc::Global;
use std::sync::Wait;
use std::sync::atomic::{AtomicU64, Ordering};
use std::test::Fail;
use std::thread;
use std::thread::Threads;

/// A zone of three names: the root, `t.` and `www.t.`.
const ZONE: &str = "t. 60 SOA ns.t. h.t. 1 2 3 4 5\nt. 60 NS ns.t.\nwww.t. 60 A 10.0.0.1\n";

/// The report of the zone of three names.
const REPORT: &str = "{\"classes\":6,\"faults\":[],\"names\":3,\"rewrites\":12}\n";

/// The files of one zone, of which the read with this number fails, counted from 1; with 0, none.
fn source(alloc: Global, zone: &str, fails: u32) -> Result<MemoryFiles, NoMemory> {
    let mut calls = List::new(alloc);
    calls.push(fails)?;
    files(alloc, ALONE, &[("t.zone", zone)], calls)
}

/// An output that takes this many octets, and then fails.
fn sink(alloc: Global, room: u32) -> Result<MemorySink, NoMemory> {
    MemorySink::new(alloc, room, List::new(alloc))
}

/// What a run writes on.
#[derive(Drop)]
struct Outputs {
    out: MemorySink,
    err: MemorySink,
}

/// An out that takes this many octets, and an err that takes any line.
fn two_outputs(alloc: Global, room: u32) -> Result<Outputs, NoMemory> {
    let out = sink(alloc, room)?;
    let err = sink(alloc, 100)?;
    Ok(Outputs { out, err })
}

/// The number with which a run ends.
fn run<G: Gate + Sync, R: Threads + Wait + Sync>(
    rt: &R,
    alloc: Global,
    words: &[&str],
    files: &mut MemoryFiles,
    outputs: &mut Outputs,
    gate: &G,
) -> u8 {
    let Outputs { out, err } = outputs;
    let status = groot(rt, alloc, words, files, out, err, gate);
    status.number()
}

/// How a run ends: its number, and what out and err took.
#[derive(Drop)]
struct End {
    number: u8,
    out: &'static str,
    err: &'static str,
}

/// Whether the run has ended so.
fn has_ended(number: u8, outputs: &Outputs, end: &End) -> bool {
    number == end.number
        && outputs.out.taken() == end.out.as_bytes()
        && outputs.err.taken() == end.err.as_bytes()
}

/// Whether a check ends so of which the read with this number fails, and whose out has so much room.
fn ends<R: Threads + Wait + Sync>(
    rt: &R,
    alloc: Global,
    fails: u32,
    room: u32,
    end: &End,
) -> Result<bool, NoMemory> {
    let mut files = source(alloc, ZONE, fails)?;
    let mut outputs = two_outputs(alloc, room)?;
    let words = ["check", "m.json"];
    let number = run(rt, alloc, &words, &mut files, &mut outputs, &FreeGate);
    Ok(has_ended(number, &outputs, end))
}

// Reads 1 and 2 are of the metadata and its end, 3 and 4 of the zone file and its end. Out takes what fits, so it has
// nothing of the report, or a front of it, or the whole.
#[test]
fn reads_and_writes_that_fail_are_told(rt: HostRuntime) -> Result<(), Fail> {
    let cases = [
        (1, 50, 5, "", "m.json: read failed\n"),
        (2, 50, 5, "", "m.json: read failed\n"),
        (3, 50, 5, "", "t.zone: read failed\n"),
        (4, 50, 5, "", "t.zone: read failed\n"),
        (5, 50, 0, REPORT, ""),
        (0, 10, 6, "{\"classes\"", "output failed\n"),
        (0, 0, 6, "", "output failed\n"),
    ];
    for (fails, room, number, out, err) in cases {
        let end = End { number, out, err };
        assert!(rt;
            ends(&rt, rt.alloc(), fails, room, &end)?,
            "read {fails}, room {room}"
        );
    }
    Ok(())
}

/// Metadata of two zone files on one server.
const TWO_FILES: &str =
    "{\"TopNameServers\":[\"ns.t.\"],\"ZoneFiles\":[{\"FileName\":\"one.zone\",\"NameServer\":\"ns.t.\"},{\"FileName\":\"two.zone\",\"NameServer\":\"ns.t.\"}]}";

/// An alias in line 9 beside an address in line 8, and a file with an open parenthesis in line 7.
const REFUSED: [(&str, &str); 2] = [
    (
        "one.zone",
        "t. 60 SOA ns.t. h.t. 1 2 3 4 5\nt. 60 NS ns.t.\n;\n;\n;\n;\n;\nw.t. 60 A 10.0.0.1\nw.t. 60 CNAME a.t.\n",
    ),
    (
        "two.zone",
        "t. 60 SOA ns.t. h.t. 1 2 3 4 5\nt. 60 NS ns.t.\n;\n;\n;\n;\nx.t. 60 TXT (\n",
    ),
];

// A file is read to its end before its refusal counts, and no file is opened behind a refusal: there is no fifth read.
#[test]
fn each_read_before_a_refusal_may_fail(rt: HostRuntime) -> Result<(), Fail> {
    let cases = [
        (1, 5, "m.json: read failed\n"),
        (2, 5, "m.json: read failed\n"),
        (3, 5, "one.zone: read failed\n"),
        (4, 5, "one.zone: read failed\n"),
        (5, 3, "one.zone:9: cname-and-other\n"),
    ];
    for (fails, number, err) in cases {
        let end = End {
            number,
            out: "",
            err,
        };
        assert!(rt; is_refused(&rt, rt.alloc(), fails, &end)?, "read {fails}");
    }
    Ok(())
}

/// Whether a check of the two files ends so, of which the read with this number fails.
fn is_refused<R: Threads + Wait + Sync>(
    rt: &R,
    alloc: Global,
    fails: u32,
    end: &End,
) -> Result<bool, NoMemory> {
    let mut calls = List::new(alloc);
    calls.push(fails)?;
    let mut files = files(alloc, TWO_FILES, &REFUSED, calls)?;
    let mut outputs = two_outputs(alloc, 50)?;
    let words = ["check", "m.json"];
    let number = run(rt, alloc, &words, &mut files, &mut outputs, &FreeGate);
    Ok(has_ended(number, &outputs, end))
}

/// How often a call at the gate looks for another one before it gives up.
const TURNS: u32 = 2_000_000;

/// Lets the tickets 0 and 1 pass, and holds the first later call until another one has come.
#[derive(Drop)]
struct PairGate {
    later: AtomicU64,
    met: AtomicU64,
}

impl Gate for PairGate {
    fn pass(&self, ticket: u32) {
        if ticket <= 1 || self.later.fetch_add(1, Ordering::SeqCst) > 0 {
            return;
        }
        for _turn in 0..TURNS {
            if self.later.load(Ordering::SeqCst) > 1 {
                self.met.store(1, Ordering::SeqCst);
                return;
            }
            thread::yield_now();
        }
    }
}

/// A zone with a redirection, of which only `www` exists below the target (RFC 6672 section 2.4).
const REDIRECTED: &str =
    "t. 60 SOA ns.t. h.t. 1 2 3 4 5\nt. 60 NS ns.t.\nd.t. 60 DNAME e.t.\nwww.e.t. 60 A 10.0.0.1\n";

/// The report of the zone with a redirection.
const BLACKHOLE: &str =
    "{\"classes\":12,\"faults\":[{\"kind\":\"blackhole\",\"place\":{\"owner\":\"d.t.\",\"server\":\"ns.t.\",\"zone\":\"t.\"},\"query\":\"a.d.t.\",\"repeats\":false,\"type\":\"A\",\"walks\":[[{\"did\":\"dname\",\"name\":\"a.d.t.\",\"owner\":\"d.t.\",\"server\":\"ns.t.\",\"to\":\"a.e.t.\",\"zone\":\"t.\"},{\"did\":\"nxdomain\",\"name\":\"a.e.t.\",\"server\":\"ns.t.\",\"zone\":\"t.\"}]]}],\"names\":6,\"rewrites\":12}\n";

// The root and `t.` are each judged alone, and below `t.` two names wait: one worker alone never passes the gate while
// another waits there.
#[test]
fn two_workers_judge_at_once(rt: HostRuntime) -> Result<(), Fail> {
    let gate = PairGate {
        later: AtomicU64::new(0),
        met: AtomicU64::new(0),
    };
    assert!(rt; finds_the_blackhole(&rt, rt.alloc(), &gate)?);
    assert!(rt; gate.met.load(Ordering::SeqCst) == 1);
    Ok(())
}

/// Whether two workers come to the report of the redirection.
fn finds_the_blackhole<R: Threads + Wait + Sync>(
    rt: &R,
    alloc: Global,
    gate: &PairGate,
) -> Result<bool, NoMemory> {
    let mut files = source(alloc, REDIRECTED, 0)?;
    let mut outputs = two_outputs(alloc, 1000)?;
    let words = ["check", "m.json", "--workers", "2"];
    let number = run(rt, alloc, &words, &mut files, &mut outputs, gate);
    let end = End {
        number: 1,
        out: BLACKHOLE,
        err: "",
    };
    Ok(has_ended(number, &outputs, &end))
}
