//! Where the steps of walks stand, in the values of entries.

ghost use Rattle.std.specs.Prelude.{◌≡◌, map, IfOk};
ghost use Rattle.serde_json.specs.View.{view};
ghost use Rattle.report_check.specs.Steps.{has_name};

use dns_data::{Name, NoMemory};
use meta_read::text_at;
use net_model::State;
use plain_resolver::StateTest;
use serde_json::Value;
use std::alloc::Global;

/// The value of a step.
#[derive(Drop)]
pub(crate) struct StepValue<'v> {
    value: &'v Value,
}

/// A state fits where the step is one from its server with its name.
impl<'v> StateTest for StepValue<'v> {
    ghost use Rattle.report_check.specs.Steps.{is_at};
    ghost use Rattle.serde_json.specs.View.{view};

    ghost fits = { λ step state. is_at (view step.value.now) state };

    fn fits(&self, alloc: Global, state: &State) -> Result<bool, NoMemory> {
        Ok(
            has_name(alloc, self.value, "server", &state.server)?
                && has_name(alloc, self.value, "name", &state.name)?,
        )
    }
}

/// The values of steps.
pub(crate) fn step_values<'v>(
    alloc: Global,
    steps: &'v [Value],
) -> Result<Vec<StepValue<'v>>, NoMemory>
    ensures { IfOk result (λ values. map (λ step. view step.value.now) values.items ≡ map view steps.entry.now) }
{
    let mut values = Vec::new(alloc);
    for value in steps {
        values.push(StepValue { value })?;
    }
    Ok(values)
}

/// Whether the value has the text of the name at the key.
fn has_name(alloc: Global, value: &Value, key: &str, name: &Name) -> Result<bool, NoMemory>
    ensures { IfOk result (λ has. has ≡ has_name key.now name.now (view value.now)) }
{
    match text_at(value, key) {
        Some(text) => {
            let own = name.to_text(alloc)?;
            Ok(text == own.as_str())
        }
        None => Ok(false),
    }
}
