//! What is read in a report's value.

ghost use Rattle.std.specs.Prelude.{◌≡◌};
ghost use Rattle.serde_json.specs.View.{view};
ghost use Rattle.report_check.specs.ReportIn.{if_allowed, rewrites_in};

use serde_json::Value;

/// How many rewrites a query may use by the report, or `None` where there is no whole number of 1 to 64.
pub(crate) fn rewrites_in(value: &Value) -> Option<u32>
    ensures { result ≡ rewrites_in (view value.now) }
{
    if_allowed(value.get("rewrites")?.as_u64()?)
}

/// The number, if it is one of 1 to 64.
fn if_allowed(number: u64) -> Option<u32>
    ensures { result ≡ if_allowed number }
{
    if 1 <= number && number <= 64 {
        Some(number as u32)
    } else {
        None
    }
}
