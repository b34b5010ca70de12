//! What the targets of redirections are followed to.

ghost use Rattle.std.specs.Prelude.{◌≡◌, ◌↔◌, ◌<◌, ℕ, length, Contains, All, IfOk};
ghost use Rattle.dns_data.specs.Name.{AreInOrder};
ghost use Rattle.label_graph.specs.declared.pair.Pair.{Pair as PairValue};
ghost use Rattle.label_graph.specs.Rows.{AreInside};
ghost use Rattle.label_graph.specs.Targets.{AreReads, AreTrue, ArePassed, IsFollowed, IsFound, IsRootPlace, IsStepFrom};

use crate::below::step;
use crate::closing::close;
use crate::live::LiveSet;
use crate::pair::Pair;
use crate::rows::Rows;
use dns_data::{Name, NoMemory};
use name_table::NameTable;
use std::alloc::Global;

/// For each base name those that are found along the targets of its redirections. All targets are followed by what was
/// found before, and again until nothing more is found.
pub(crate) fn reads_of(alloc: Global, base: &NameTable, dnames: &[Pair]) -> Result<Rows, NoMemory>
    requires root { IsRootPlace base.now 0 }
    requires owners { (pair : PairValue) → Contains dnames.now pair → Contains base.now pair.from }
    ensures { IfOk result (λ reads. AreReads base.now dnames.now reads) }
{
    let mut reads = Rows::new(alloc, base.names().len());
    let mut more = true;
    while more {
        more = follow_all(alloc, base, dnames, &mut reads)?;
    }
    Ok(reads)
}

/// Follows the target of each redirection, and puts what is found into the row of its owner. Whether anything was new.
fn follow_all(
    alloc: Global,
    base: &NameTable,
    dnames: &[Pair],
    reads: &mut Rows,
) -> Result<bool, NoMemory>
    requires order { AreInOrder base.now }
    requires root { IsRootPlace base.now 0 }
    requires owners { (pair : PairValue) → Contains dnames.now pair → Contains base.now pair.from }
    requires each_true { AreTrue base.now dnames.now reads.old }
    ensures { IfOk result (λ any. ArePassed base.now dnames.now dnames.now reads.old reads.new any) }
{
    let mut any = false;
    for pair in dnames {
        if follow(alloc, base, pair, reads)? {
            any = true;
        }
    }
    Ok(any)
}

/// Follows the target of a redirection, and puts what is found into the row of its owner. Whether anything was new.
fn follow(alloc: Global, base: &NameTable, pair: &Pair, reads: &mut Rows) -> Result<bool, NoMemory>
    requires order { AreInOrder base.now }
    requires root { IsRootPlace base.now 0 }
    requires owner { Contains base.now pair.now.from }
    requires len { length reads.old ≡ length base.now }
    requires rows { AreInside reads.old }
    ensures { IfOk result (λ any. IsFollowed base.now pair.now reads.old reads.new any) }
{
    let Some(owner) = base.place_of(&pair.from.labels()) else {
        unreachable!()
    };
    let found = found_along(alloc, base, reads, &pair.to)?;
    reads.put(alloc, owner, found.places())
}

/// The base names that are found along the labels of a name, from the root on: one label below those found before and
/// those to which one comes from there by the rows.
fn found_along(
    alloc: Global,
    base: &NameTable,
    reads: &Rows,
    name: &Name,
) -> Result<LiveSet, NoMemory>
    requires order { AreInOrder base.now }
    requires root { IsRootPlace base.now 0 }
    requires len { length reads.now ≡ length base.now }
    requires rows { AreInside reads.now }
    ensures { IfOk result (λ found. (other : ℕ) → Contains found other ↔ IsFound base.now reads.now name.now other) }
{
    // The root stands first.
    let mut places = LiveSet::one(0);
    let mut rest = name.labels();
    while let Some(label) = rest.next() {
        places = step_from(alloc, base, reads, places, label)?;
    }
    Ok(places)
}

/// The places one label below these and those to which one comes from them by the rows.
fn step_from(
    alloc: Global,
    base: &NameTable,
    reads: &Rows,
    places: LiveSet,
    label: &[u8],
) -> Result<LiveSet, NoMemory>
    requires len { length reads.now ≡ length base.now }
    requires rows { AreInside reads.now }
    requires within { All (λ place. place < length base.now) places }
    ensures { IfOk result (λ next. (other : ℕ) → Contains next other ↔ IsStepFrom base.now reads.now (Contains places) label.now other) }
{
    let live = close(alloc, reads, places)?;
    // Named, since the proof speaks of the places that come where memory suffices.
    let next = step(alloc, base, live.places(), label)?;
    Ok(next)
}
