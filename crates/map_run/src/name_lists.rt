//! Lists that stand at names.

ghost use Rattle.std.specs.Prelude.{◌≡◌, ◌++◌, ◌∷◌, [], false, if◌then◌else◌, OnOk};
ghost use Rattle.dns_data.specs.Name.{Labels, name_eq};
ghost use Rattle.map_run.specs.NameLists.{listed_at};

use crate::name_key::NameKey;
use dns_data::{List, Name, NoMemory};
use std::alloc::Global;
use std::collections::HashMap;

/// Lists an item behind the others at a name.
pub(crate) fn list_at<T: Drop>(
    alloc: Global,
    lists: &mut HashMap<NameKey, List<T>>,
    name: &Name,
    item: T,
) -> Result<(), NoMemory>
    ensures { OnOk result ((other : Labels) → listed_at lists.new other ≡ listed_at lists.old other ++ (if name_eq name.now other then item ∷ [] else [])) }
{
    let key = NameKey::of(alloc, name)?;
    let mut listed = take_listed(alloc, lists, &key);
    listed.push(item)?;
    lists.insert(key, listed)?;
    Ok(())
}

/// Takes out what is listed at a name.
fn take_listed<T: Drop>(
    alloc: Global,
    lists: &mut HashMap<NameKey, List<T>>,
    name: &NameKey,
) -> List<T>
    ensures taken { result ≡ listed_at lists.old name.now }
    ensures others { (other : Labels) → name_eq name.now other ≡ false → listed_at lists.new other ≡ listed_at lists.old other }
{
    match lists.remove(name) {
        Some(listed) => listed,
        None => List::new(alloc),
    }
}

/// What is listed at a name.
pub(crate) fn listed_at<'l, T>(lists: &'l HashMap<NameKey, List<T>>, name: &NameKey) -> &'l [T]
    ensures { result.now ≡ listed_at lists.now name.now }
{
    match lists.get(name) {
        Some(listed) => listed.items(),
        None => &[],
    }
}
