//! The names of a part in sets.

ghost use Rattle.std.specs.Prelude.{◌≡◌, false, Some, IfOk};
ghost use Rattle.dns_data.specs.Name.{is_among};
ghost use Rattle.part_checks.specs.Outside.{first_outside, own_outside};
ghost use Rattle.part_checks.specs.Parts.{held_by};
ghost use Rattle.part_names.specs.PartNames.{is_own};

use crate::marks::NameMarks;
use dns_data::{Name, NoMemory};
use own_names::HeldNames;
use part_names::PartNames;
use std::alloc::Global;
use std::collections::BTreeSet;
use std::marker::Model;
use zone_lookup::set_of;

/// The names of a part, in which one is found without a pass over the others. Contracts see the names.
#[derive(Debug, Drop)]
pub(crate) struct NameSets<'a> {
    names: &'a PartNames,
    held: HeldNames<'a>,
    held_marks: NameMarks,
    away: BTreeSet<Name>,
    away_marks: NameMarks,
}

impl<'a> Model for NameSets<'a> {
    ghost use Rattle.std.specs.Prelude.{◌≡◌};
    ghost use Rattle.part_names.specs.declared.names.PartNames.{PartNames};
    ghost use Rattle.part_checks.specs.Marks.{MarksAll};
    ghost use Rattle.part_checks.specs.Parts.{held_by};
    ghost use Rattle.zone_lookup.specs.LearntSets.{IsSetOf};

    ghost Value = { PartNames };

    ghost view = { λ sets. sets.names.now };

    ghost invariant = { λ sets. (sets.held ≡ sets.names.now) × IsSetOf sets.names.now.away sets.away
        × MarksAll (held_by sets.names.now) sets.held_marks × MarksAll sets.names.now.away sets.away_marks };
}

impl<'a> NameSets<'a> {
    /// The sets of the names of a part, with the prefixes of those that are held.
    pub(crate) fn build(alloc: Global, names: &'a PartNames) -> Result<NameSets<'a>, NoMemory>
        ensures { IfOk result (λ sets. sets ≡ names.now) }
    {
        let held = HeldNames::build(alloc, names)?;
        let held_marks = NameMarks::of_fronts(alloc, names.held.items())?;
        let away = set_of(alloc, names.away.items())?;
        let away_marks = NameMarks::of_fronts(alloc, names.away.items())?;
        Ok(NameSets {
            names,
            held,
            held_marks,
            away,
            away_marks,
        })
    }

    /// The names of the part.
    pub(crate) fn names(&self) -> &PartNames
        ensures { result.now ≡ self.now }
    {
        self.names
    }

    /// Whether the name is held.
    pub(crate) fn has(&self, name: &Name) -> bool
        ensures { result ≡ is_among (held_by self.now) name.now }
    {
        self.held_marks.may_have(name) && self.held.has(name)
    }

    /// Whether the name is told as no name of the whole.
    pub(crate) fn is_away(&self, name: &Name) -> bool
        ensures { result ≡ is_among self.now.away name.now }
    {
        self.away_marks.may_have(name) && self.away.contains(name)
    }

    /// Whether the name is one of the part's own.
    fn is_own(&self, name: &Name) -> bool
        ensures { result ≡ is_own self.now name.now }
    {
        self.names.is_own(name)
    }

    /// The shortest prefix of a name that isn't held, or `None` where all are.
    pub(crate) fn first_outside(&self, alloc: Global, name: &Name) -> Result<Option<Name>, NoMemory>
        ensures { IfOk result (λ found. found ≡ first_outside self.now name.now) }
    {
        if self.has(name) {
            return Ok(None);
        }
        Ok(Some(self.front_outside(alloc, name)?))
    }

    /// The shortest prefix that isn't held of a name that isn't held.
    pub(crate) fn front_outside(&self, alloc: Global, name: &Name) -> Result<Name, NoMemory>
        requires { is_among (held_by self.now) name.now ≡ false }
        ensures { IfOk result (λ front. first_outside self.now name.now ≡ Some front) }
    {
        for count in 1..name.len() as usize {
            let front = name.copy_front(alloc, count)?;
            if !self.has(&front) {
                return Ok(front);
            }
        }
        name.copy(alloc)
    }

    /// The shortest prefix of a name that is own, from this one that isn't held on, or `None` where there is none.
    pub(crate) fn own_outside(
        &self,
        alloc: Global,
        front: &Name,
        name: &Name,
    ) -> Result<Option<Name>, NoMemory>
        requires { first_outside self.now name.now ≡ Some front.now }
        ensures { IfOk result (λ found. found ≡ own_outside self.now name.now) }
    {
        for count in front.len() as usize..name.len() as usize {
            let longer = name.copy_front(alloc, count)?;
            if self.is_own(&longer) {
                return Ok(Some(longer));
            }
        }
        if self.is_own(name) {
            return Ok(Some(name.copy(alloc)?));
        }
        Ok(None)
    }
}
