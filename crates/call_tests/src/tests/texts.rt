//! Texts of reports in one, for programs that hold a whole report.

use super::configs::name;
use dns_data::{List, NoMemory, Octets};
use graph_form::Report;
use report_json::{report_text, scope_text};
use std::alloc::Global;
use std::test::Fail;

#[test]
fn a_report_and_a_scope_are_a_line_each(rt: HostRuntime) -> Result<(), Fail> {
    let alloc = rt.alloc();
    let report = no_fault(alloc);
    let name = name(alloc, "a.t.")?;
    let report_line = b"{\"classes\":2,\"faults\":[],\"names\":1,\"rewrites\":12}\n";
    assert!(rt; is_text(report_text(alloc, &report), report_line));
    let scope_line =
        b"{\"classes\":2,\"faults\":[],\"names\":1,\"rewrites\":12,\"scope\":\"a.t.\",\"sites\":[]}\n";
    assert!(rt; is_text(scope_text(alloc, &report, &name, &[]), scope_line));
    Ok(())
}

/// The report of a name without a fault, and of the names below it.
fn no_fault(alloc: Global) -> Report {
    Report {
        classes: 2,
        names: 1,
        rewrites: 12,
        entries: List::new(alloc),
    }
}

/// Whether the text has these octets.
fn is_text(text: Result<Octets, NoMemory>, octets: &[u8]) -> bool {
    match text {
        Ok(text) => text.items() == octets,
        Err(NoMemory) => false,
    }
}
