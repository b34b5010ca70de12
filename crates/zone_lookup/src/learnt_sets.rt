//! The sets of learnt addresses, in which a name is found without a pass over the others.

ghost use Rattle.std.specs.Prelude.{◌≡◌, IfOk};
ghost use Rattle.dns_data.specs.Name.{is_among};
ghost use Rattle.zone_lookup.specs.LearntSets.{IsSetOf};

use dns_data::{Name, NoMemory};
use net_model::Deps;
use std::alloc::Global;
use std::collections::BTreeSet;
use std::marker::Model;

/// The least and the greatest set of learnt addresses, each as a list and in the order of names. Contracts see the lists.
#[derive(Debug, Drop)]
pub struct LearntSets {
    deps: Deps,
    least: BTreeSet<Name>,
    greatest: BTreeSet<Name>,
}

impl Model for LearntSets {
    ghost use Rattle.net_model.specs.declared.deps.Deps.{Deps};
    ghost use Rattle.zone_lookup.specs.LearntSets.{AreSetsOf};

    ghost Value = { Deps };

    ghost view = { λ sets. sets.deps };

    ghost invariant = { λ sets. AreSetsOf sets.deps sets.least sets.greatest };
}

impl LearntSets {
    /// The sets of these lists. Each name is copied once.
    pub fn build(alloc: Global, deps: Deps) -> Result<LearntSets, NoMemory>
        ensures { IfOk result (λ sets. sets ≡ deps) }
    {
        let least = set_of(alloc, deps.least.items())?;
        let greatest = set_of(alloc, deps.greatest.items())?;
        Ok(LearntSets {
            deps,
            least,
            greatest,
        })
    }

    /// The lists. It takes no memory.
    pub fn deps(&self) -> &Deps
        ensures { result.now ≡ self.now }
    {
        &self.deps
    }

    /// Whether the name is in the least set.
    pub fn has_least(&self, name: &Name) -> bool
        ensures { result ≡ is_among self.now.least name.now }
    {
        self.least.contains(name)
    }

    /// Whether the name is in the greatest set.
    pub fn has_greatest(&self, name: &Name) -> bool
        ensures { result ≡ is_among self.now.greatest name.now }
    {
        self.greatest.contains(name)
    }
}

/// The set of these names. Each is copied once.
pub fn set_of(alloc: Global, names: &[Name]) -> Result<BTreeSet<Name>, NoMemory>
    ensures { IfOk result (IsSetOf names.now) }
{
    let mut set = BTreeSet::new(alloc);
    for name in names {
        set.insert(name.copy(alloc)?)?;
    }
    Ok(set)
}
