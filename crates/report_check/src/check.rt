//! A report checked.

ghost use Rattle.std.specs.Prelude.{◌≡◌, ◌≤◌, List, ℕ, map, Some};
ghost use Rattle.std.specs.List.{AllByRecursion};
ghost use Rattle.serde_json.specs.Data.{depth};
ghost use Rattle.serde_json.specs.Read.{max_depth};
ghost use Rattle.serde_json.specs.View.{view};
ghost use Rattle.meta_read.specs.Members.{value_of};
ghost use Rattle.report_check.specs.Checked.{IsChecked};
ghost use Rattle.report_check.specs.ReportIn.{report_in};

use crate::answer::{CheckFault, Checked};
use crate::checker::Checker;
use crate::entries::check_entries;
use crate::learning::learnt_sets;
use crate::members::rewrites_in;
use dns_data::NoMemory;
use meta_read::list_at;
use net_model::Config;
use plain_resolver::LearntFault;
use serde_json::Value;
use std::alloc::Global;
use zone_lookup::Hosts;

/// Checks the octets of a report against a configuration, entry by entry. It is `NotReport` where they are none; else
/// `Walks` with the number 0 where the name of a server has more than 10,000 walks with type A or with type AAAA in a
/// set from which a round of learning starts; else `Walks` or `Wrong` with the number of the first entry that isn't
/// right, or whose query has more than 10,000 walks with the entry's type: of one entry the walks are counted first.
pub fn check_report(alloc: Global, config: &Config, bytes: &[u8]) -> Result<Checked, CheckFault>
    ensures { IsChecked config.now bytes.now result }
{
    match Value::from_slice(alloc, bytes) {
        Ok(value) => check_value(alloc, config, &value),
        Err(error) => {
            if error.is_memory() {
                Err(CheckFault::NoMemory)
            } else {
                Err(CheckFault::NotReport)
            }
        }
    }
}

/// Checks the value of a report.
fn check_value(alloc: Global, config: &Config, value: &Value) -> Result<Checked, CheckFault>
    requires { depth (view value.now) ≤ max_depth }
    ensures { (octets : List ℕ) → value_of octets ≡ Some (view value.now) → IsChecked config.now octets result }
{
    let Some(rewrites) = rewrites_in(value) else {
        return Err(CheckFault::NotReport);
    };
    let Some(entries) = list_at(value, "faults") else {
        return Err(CheckFault::NotReport);
    };
    match Hosts::build(alloc, config) {
        Ok(hosts) => check_stated(alloc, &hosts, rewrites, entries),
        Err(NoMemory) => Err(CheckFault::NoMemory),
    }
}

/// Checks what is stated in a report, in a configuration whose zones' trees are built.
fn check_stated(
    alloc: Global,
    hosts: &Hosts<'_>,
    rewrites: u32,
    entries: &[Value],
) -> Result<Checked, CheckFault>
    requires { AllByRecursion (λ value. depth value ≤ max_depth) (map view entries.now) }
    ensures { (octets : List ℕ) → report_in octets ≡ Some (record { rewrites = rewrites; entries = map view entries.now })
        → IsChecked hosts.now octets result }
{
    match learnt_sets(alloc, hosts, rewrites) {
        Ok(sets) => check_entries(
            alloc,
            &mut Checker::new(alloc, hosts, rewrites, sets),
            entries,
        ),
        Err(LearntFault::WalksPassed(_)) => Err(CheckFault::Walks { entry: 0 }),
        Err(LearntFault::NoMemory) => Err(CheckFault::NoMemory),
    }
}
