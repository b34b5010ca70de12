//! The first of several values with one name.

ghost use Rattle.std.specs.Prelude.{◌≡◌, List, map, IfOk, OnOk};
ghost use Rattle.std.specs.List.{flat_map};
ghost use Rattle.net_model.specs.declared.config.Zone.{Zone};
ghost use Rattle.zone_lookup.specs.Firsts.{ArePut, AreFirstsByName, FindsFirsts};

use crate::made_trees::MadeTrees;
use crate::named::Named;
use dns_data::{Name, NoMemory};
use std::alloc::Global;
use std::collections::BTreeMap;

/// What is made of a value that has a name, and tells the value.
pub(crate) trait MadeOf<'a, Y>: Drop {
    ghost tell: { Self → Y };

    ghost zones_of: { Y → List Zone };

    /// What is made of the value, with trees of its zones.
    fn make(alloc: Global, one: &'a Y, trees: &mut MadeTrees<'a>) -> Result<Self, NoMemory>
        ensures tells { IfOk result (λ made. tell made ≡ one.now) }
        ensures trees { OnOk result (ArePut (zones_of one.now) trees.old trees.new) };
}

/// What is made of the values, in the order of their names. Of several with one name the first counts.
pub(crate) fn firsts_in_order<'a, Y: Named, X: MadeOf<'a, Y>>(
    alloc: Global,
    all: &'a [Y],
    trees: &mut MadeTrees<'a>,
) -> Result<Vec<X>, NoMemory>
    ensures firsts { IfOk result (λ items. AreFirstsByName X.tell Y.name_of all.now items.items) }
    ensures trees { OnOk result (ArePut (flat_map X.zones_of all.now) trees.old trees.new) }
{
    let found = firsts_by_name(alloc, all, trees)?;
    // The length is read, so that it is known here that the keys are in order.
    let _ = found.len();
    items_of(alloc, found)
}

/// The items of a map, in its order.
fn items_of<'a, X: Drop>(alloc: Global, found: BTreeMap<&'a Name, X>) -> Result<Vec<X>, NoMemory>
    ensures { IfOk result (λ items. items.items ≡ map (λ entry. entry.1) found.entry.entries) }
{
    Ok(found.into_values().collect(alloc)?)
}

/// What is made of the values by their names. The last values are looked at first, and the first of one name stays.
fn firsts_by_name<'a, Y: Named, X: MadeOf<'a, Y>>(
    alloc: Global,
    all: &'a [Y],
    trees: &mut MadeTrees<'a>,
) -> Result<BTreeMap<&'a Name, X>, NoMemory>
    ensures finds { IfOk result (λ found. FindsFirsts X.tell Y.name_of all.now found) }
    ensures trees { OnOk result (ArePut (flat_map X.zones_of all.now) trees.old trees.new) }
{
    let mut found = BTreeMap::new(alloc);
    let mut left = all.len();
    while left > 0 {
        left -= 1;
        let one = &all[left];
        let made = X::make(alloc, one, trees)?;
        found.insert(one.its_name(), made)?;
    }
    Ok(found)
}
