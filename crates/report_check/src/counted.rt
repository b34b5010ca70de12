//! Queries whose walks were counted.

ghost use Rattle.std.specs.Prelude.{◌≡◌, true, Contains};
ghost use Rattle.dns_data.specs.declared.rr_type.RrType.{RrType as TypeValue};
ghost use Rattle.net_model.specs.Step.{Setting};
ghost use Rattle.plain_resolver.specs.Passed.{HasMoreWalks, most_walks_followed};
ghost use Rattle.report_check.specs.Counted.{AreFew};

use crate::asked::EntryQuery;
use dns_data::{List, Name, NoMemory, RrType};
use std::alloc::Global;
use std::collections::BTreeMap;

/// Whether the query was counted with its type.
pub(crate) fn is_counted(counted: &BTreeMap<Name, List<RrType>>, asked: &EntryQuery) -> bool
    ensures { (setting : Setting) → AreFew setting counted.now → result ≡ true → HasMoreWalks setting asked.now.query asked.now.rtype most_walks_followed → ⊥ }
{
    match counted.get(&asked.query) {
        Some(types) => has_type(types.items(), asked.rtype),
        None => false,
    }
}

/// Whether the type is among others.
fn has_type(types: &[RrType], rtype: RrType) -> bool
    ensures { result ≡ true → Contains types.now rtype }
{
    for other in types {
        if other.number() == rtype.number() {
            return true;
        }
    }
    false
}

/// Puts a counted query and its type behind the others.
pub(crate) fn put_counted(
    alloc: Global,
    counted: &mut BTreeMap<Name, List<RrType>>,
    asked: &EntryQuery,
) -> Result<(), NoMemory>
    ensures { (setting : Setting) → AreFew setting counted.old → (HasMoreWalks setting asked.now.query asked.now.rtype most_walks_followed → ⊥) → AreFew setting counted.new }
{
    let mut types = take_types(alloc, counted, &asked.query);
    types.push(asked.rtype)?;
    counted.insert(asked.query.copy(alloc)?, types)?;
    Ok(())
}

/// Takes the types out with which the query was counted.
fn take_types(
    alloc: Global,
    counted: &mut BTreeMap<Name, List<RrType>>,
    query: &Name,
) -> List<RrType>
    ensures taken { (setting : Setting) (rtype : TypeValue) → AreFew setting counted.old → Contains result rtype → HasMoreWalks setting query.now rtype most_walks_followed → ⊥ }
    ensures others { (setting : Setting) → AreFew setting counted.old → AreFew setting counted.new }
{
    match counted.remove(query) {
        Some(types) => types,
        None => List::new(alloc),
    }
}
