//! Texts of values, compared with those of walks and entries.

ghost use Rattle.std.specs.Prelude.{◌≡◌, ◌↔◌, ◌≤◌, true, IfOk};
ghost use Rattle.report_json.specs.Plain.{IsWritten};
ghost use Rattle.report_json.specs.Report.{entry_value};
ghost use Rattle.report_json.specs.Walks.{walk_value};
ghost use Rattle.serde_json.specs.Data.{Data, depth};
ghost use Rattle.serde_json.specs.Read.{max_depth};
ghost use Rattle.serde_json.specs.View.{view};

use dns_data::NoMemory;
use graph_form::ReportEntry;
use net_model::Walk;
use report_json::{entry_text, laws, walk_text};
use serde_json::Value;
use std::alloc::Global;

/// The value, written without white space.
pub(crate) fn text_of(alloc: Global, value: &Value) -> Result<Vec<u8>, NoMemory>
    requires { depth (view value.now) ≤ max_depth }
    ensures { IfOk result (λ text. IsWritten (view value.now) text.items) }
{
    Ok(value.to_vec(alloc)?)
}

/// Whether the text is that of the walk.
pub(crate) fn is_walk_text(alloc: Global, walk: &Walk, text: &[u8]) -> Result<bool, NoMemory>
    ensures { IfOk result (λ same. (value : Data) → IsWritten value text.now → (same ≡ true) ↔ (value ≡ walk_value walk.now)) }
{
    // By this law the text tells the value.
    laws::texts_tell_values();
    let own = walk_text(alloc, walk)?;
    Ok(text == own.items())
}

/// Whether the text is that of the entry.
pub(crate) fn is_entry_text(
    alloc: Global,
    entry: &ReportEntry,
    text: &[u8],
) -> Result<bool, NoMemory>
    ensures { IfOk result (λ same. (value : Data) → IsWritten value text.now → (same ≡ true) ↔ (value ≡ entry_value entry.now)) }
{
    // By this law the text tells the value.
    laws::texts_tell_values();
    let own = entry_text(alloc, entry)?;
    Ok(text == own.items())
}
