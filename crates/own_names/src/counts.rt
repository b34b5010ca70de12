//! How many names and classes of a class tree are a part's own.

ghost use Rattle.std.specs.Prelude.{◌≡◌, ◌+◌, length, IfOk};
ghost use Rattle.own_names.specs.OwnNames.{own_below, own_tree};
ghost use Rattle.query_classes.specs.Rows.{if_some};

use crate::held::HeldNames;
use dns_data::NoMemory;
use query_classes::ClassRow;
use std::alloc::Global;

/// How many names of a class tree are a part's own, and how many classes go by them.
#[derive(Clone, Copy, Debug)]
pub struct OwnCounts {
    pub names: u64,
    pub classes: u64,
}

/// How many names of the rows of a class tree are own, and how many classes these rows have.
pub fn own_counts(
    alloc: Global,
    held: &HeldNames<'_>,
    rows: &[ClassRow],
) -> Result<OwnCounts, NoMemory>
    ensures names { IfOk result (λ counts. counts.names ≡ length (own_tree held.now rows.now)) }
    ensures classes { IfOk result (λ counts. counts.classes ≡ length (own_tree held.now rows.now) + length (own_below held.now rows.now)) }
{
    let mut names: u64 = 0;
    let mut classes: u64 = 0;
    for row in rows {
        if held.is_own_here(alloc, &row.name)? {
            names += 1;
            classes += classes_of(row);
        }
    }
    Ok(OwnCounts { names, classes })
}

/// How many classes a row has: that of the name alone, and that of the names below it, if it isn't empty.
fn classes_of(row: &ClassRow) -> u64
    ensures { result ≡ 1 + length (if_some row.now.name row.now.below) }
{
    match row.below {
        Some(_) => 2,
        None => 1,
    }
}
