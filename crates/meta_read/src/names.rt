//! Names in metadata.

ghost use Rattle.std.specs.Prelude.{IfOk, ◌≡◌, List};
ghost use Rattle.std.specs.BTreeSet as tree;
ghost use Rattle.dns_data.specs.Answers.{AnswersOr};
ghost use Rattle.dns_data.specs.Distinct.{distinct};
ghost use Rattle.dns_data.specs.Name.{name_eq};
ghost use Rattle.meta_read.specs.Names.{name_in_row};

use crate::fault::MetaFault;
use dns_data::{List, Name, NameFault, NoMemory};
use std::alloc::Global;
use std::collections::BTreeSet;

/// The name that a text of a row stands for, with the root as origin.
pub(crate) fn name_in_row(alloc: Global, row: u32, text: &str) -> Result<Name, MetaFault>
    ensures { AnswersOr MetaFault.NoMemory result (name_in_row row text.now) }
{
    match Name::from_text(alloc, text.as_bytes(), &Name::root()) {
        Ok(name) => Ok(name),
        Err(NameFault::NoMemory) => Err(MetaFault::NoMemory),
        Err(_) => Err(MetaFault::BadName { row }),
    }
}

/// The names without those that equal an earlier one.
pub(crate) fn once(alloc: Global, names: &[Name]) -> Result<List<Name>, NoMemory>
    ensures { IfOk result (λ single. single ≡ distinct name_eq names.now) }
{
    let mut seen = BTreeSet::new(alloc);
    let mut single = List::new(alloc);
    for name in names {
        if seen.insert(name.copy(alloc)?)? {
            single.push(name.copy(alloc)?)?;
        }
    }
    Ok(single)
}
