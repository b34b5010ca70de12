//! The names that a part holds.

ghost use Rattle.std.specs.Prelude.{◌≡◌, ◌↔◌, IfOk, Contains};
ghost use Rattle.dns_data.specs.Name.{Labels, is_among};
ghost use Rattle.part_laws.specs.Part.{with_prefixes};
ghost use Rattle.own_names.specs.OwnNames.{is_own_here};

use dns_data::{Name, NoMemory};
use label_graph::put_new_fronts;
use part_names::PartNames;
use std::alloc::Global;
use std::collections::BTreeSet;
use std::marker::Model;
use zone_lookup::set_of;

/// The names that a part holds: the root, and all prefixes of those that are told as held. One is found without a pass over
/// the others. Contracts see what is told of the part.
#[derive(Debug, Drop)]
pub struct HeldNames<'a> {
    names: &'a PartNames,
    held: BTreeSet<Name>,
}

impl<'a> Model for HeldNames<'a> {
    ghost use Rattle.part_laws.specs.Part.{with_prefixes};
    ghost use Rattle.part_names.specs.declared.names.PartNames.{PartNames};
    ghost use Rattle.zone_lookup.specs.LearntSets.{IsSetOf};

    ghost Value = { PartNames };

    ghost view = { λ held. held.names.now };

    ghost invariant = { λ held. IsSetOf (with_prefixes held.names.now.held) held.held };
}

impl<'a> HeldNames<'a> {
    /// The names that the part holds.
    pub fn build(alloc: Global, names: &'a PartNames) -> Result<HeldNames<'a>, NoMemory>
        ensures { IfOk result (λ held. held ≡ names.now) }
    {
        let fronts = fronts_of(alloc, names.held.items())?;
        let held = set_of(alloc, fronts.as_slice())?;
        Ok(HeldNames { names, held })
    }

    /// Whether the part holds the name.
    pub fn has(&self, name: &Name) -> bool
        ensures { result ≡ is_among (with_prefixes self.now.held) name.now }
    {
        self.held.contains(name)
    }

    /// Whether the longest prefix of the name that the part holds is own.
    pub(crate) fn is_own_here(&self, alloc: Global, name: &Name) -> Result<bool, NoMemory>
        ensures { IfOk result (λ own. own ≡ is_own_here self.now name.now) }
    {
        let labels = name.len() as usize;
        for passed in 0..labels + 1 {
            let front = name.copy_front(alloc, labels - passed)?;
            if self.has(&front) {
                return Ok(self.names.is_own(&front));
            }
        }
        // The root is held: one of the fronts was found.
        Ok(false)
    }
}

/// The root, and all prefixes of names, some of them more than once.
fn fronts_of(alloc: Global, names: &[Name]) -> Result<Vec<Name>, NoMemory>
    ensures { IfOk result (λ fronts. (name : Labels) → Contains fronts.items name ↔ Contains (with_prefixes names.now) name) }
{
    let mut fronts = Vec::new(alloc);
    fronts.push(Name::root())?;
    for name in names {
        put_new_fronts(alloc, &mut fronts, name)?;
    }
    Ok(fronts)
}
