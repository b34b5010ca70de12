//! The entries of a report, one after the other.

ghost use Rattle.std.specs.Prelude.{◌≡◌, ◌≤◌, map};
ghost use Rattle.std.specs.List.{AllByRecursion};
ghost use Rattle.report_check.specs.Entries.{EntriesComeTo, EntryComesTo};
ghost use Rattle.serde_json.specs.Data.{depth};
ghost use Rattle.serde_json.specs.Read.{max_depth};
ghost use Rattle.serde_json.specs.View.{view};

use crate::answer::{CheckFault, Checked};
use crate::checker::Checker;
use crate::right_entry::is_right;
use plain_resolver::ResolveFault;
use serde_json::Value;
use std::alloc::Global;

/// What entries come to: that all are right, or the first that isn't, or whose query has too many walks.
pub(crate) fn check_entries(
    alloc: Global,
    checker: &mut Checker<'_, '_>,
    entries: &[Value],
) -> Result<Checked, CheckFault>
    requires { AllByRecursion (λ value. depth value ≤ max_depth) (map view entries.now) }
    ensures { EntriesComeTo checker.old.config checker.old.rewrites (map view entries.now) result }
{
    for (i, value) in entries.iter().enumerate() {
        let entry = i as u64 + 1;
        if !is_confirmed(alloc, checker, entry, value)? {
            return Ok(Checked::Wrong { entry });
        }
    }
    Ok(Checked::Right {
        entries: entries.len() as u64,
    })
}

/// Whether the entry with this number is right, unless its query has too many walks.
fn is_confirmed(
    alloc: Global,
    checker: &mut Checker<'_, '_>,
    entry: u64,
    value: &Value,
) -> Result<bool, CheckFault>
    requires { depth (view value.now) ≤ max_depth }
    ensures looked { EntryComesTo checker.old.config checker.old.rewrites entry (view value.now) result }
    ensures kept { checker.new ≡ checker.old }
{
    match is_right(alloc, checker, value) {
        Ok(right) => Ok(right),
        Err(ResolveFault::WalksPassed) => Err(CheckFault::Walks { entry }),
        Err(ResolveFault::NoMemory) => Err(CheckFault::NoMemory),
    }
}
