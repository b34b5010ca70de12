//! Fronts of names.

ghost use Rattle.std.specs.Prelude.{◌↔◌, ◌⊎◌, ◌<◌, ℕ, take, Contains, OnOk};
ghost use Rattle.dns_data.specs.Name.{Labels};
ghost use Rattle.label_graph.specs.LiveSet.{HavePrefixes};
ghost use Rattle.label_graph.specs.Targets.{IsPrefixFrom};

use dns_data::{Name, NoMemory};
use std::alloc::Global;

/// Puts the fronts of the name that aren't among the names at the end, where the names have the root and the prefixes of
/// each: those that the name shares with the last of them are passed over.
pub fn put_new_fronts(alloc: Global, names: &mut Vec<Name>, name: &Name) -> Result<(), NoMemory>
    requires { HavePrefixes names.old.items }
    ensures fronts { OnOk result ((front : Labels) → Contains names.new.items front ↔ (Contains names.old.items front ⊎ IsPrefixFrom 0 name.now front)) }
    ensures prefixes { OnOk result (HavePrefixes names.new.items) }
{
    let known = known_fronts(names.as_slice(), name);
    put_fronts(alloc, names, name, known)?;
    Ok(())
}

/// How many fronts of the name, from the root down, are fronts of the last of the names, and so among them.
fn known_fronts(names: &[Name], name: &Name) -> usize
    requires { HavePrefixes names.now }
    ensures { (count : ℕ) → count < result → Contains names.now (take count name.now) }
{
    match names.last() {
        Some(last) => last.labels().common_len(&name.labels()) as usize + 1,
        None => 0,
    }
}

/// Puts all fronts of the name that have at least this many labels at the end.
pub(crate) fn put_fronts(
    alloc: Global,
    names: &mut Vec<Name>,
    name: &Name,
    from: usize,
) -> Result<(), NoMemory>
    ensures { OnOk result ((front : Labels) → Contains names.new.items front ↔ (Contains names.old.items front ⊎ IsPrefixFrom from name.now front)) }
{
    for count in from..name.len() as usize + 1 {
        names.push(name.copy_front(alloc, count)?)?;
    }
    Ok(())
}
