//! Marks by which most names are told apart from some without a search.

ghost use Rattle.std.specs.Prelude.{◌≡◌, ◌++◌, ◌<◌, true, length, IfOk, OnOk};
ghost use Rattle.dns_data.specs.Name.{Labels};
ghost use Rattle.part_laws.specs.Part.{with_prefixes};
ghost use Rattle.part_checks.specs.Marks.{is_marked, place_of, MarksAll};

use dns_data::{Name, NoMemory};
use std::alloc::Global;
use std::hash::{FoldHasher, Hasher};
use std::marker::Model;

/// Marks at the numbers of some names: a name whose number isn't marked is none of them. Contracts see the marks.
#[derive(Debug, Drop)]
pub(crate) struct NameMarks {
    marks: Vec<bool>,
}

impl Model for NameMarks {
    ghost use Rattle.std.specs.Prelude.{◌<◌, Bool, List, length};

    ghost Value = { List Bool };

    ghost view = { λ marks. marks.marks.items };

    ghost invariant = { λ marks. 0 < length marks.marks.items };
}

impl NameMarks {
    /// The marks of the root, of names and of their prefixes.
    pub(crate) fn of_fronts(alloc: Global, names: &[Name]) -> Result<NameMarks, NoMemory>
        ensures { IfOk result (λ marks. MarksAll (with_prefixes names.now) marks) }
    {
        // With sixteen marks a name most marks stay unset, also where a name has several prefixes.
        let mut all = NameMarks::unset(alloc, names.len().saturating_mul(16))?;
        all.put(&Name::root());
        for name in names {
            all.put_fronts(alloc, name)?;
        }
        Ok(all)
    }

    /// Marks of which none is set, one more than these.
    fn unset(alloc: Global, size: usize) -> Result<NameMarks, NoMemory> {
        let marks = vec![in alloc; false; size.saturating_add(1)]?;
        Ok(NameMarks { marks })
    }

    /// Marks a name and its prefixes.
    fn put_fronts(&mut self, alloc: Global, name: &Name) -> Result<(), NoMemory>
        ensures marked { OnOk result ((above below : Labels) → above ++ below ≡ name.now → is_marked self.new above ≡ true) }
        ensures stays { OnOk result ((other : Labels) → is_marked self.old other ≡ true → is_marked self.new other ≡ true) }
    {
        for count in 0..name.len() as usize + 1 {
            let front = name.copy_front(alloc, count)?;
            self.put(&front);
        }
        Ok(())
    }

    /// Marks a name.
    fn put(&mut self, name: &Name)
        ensures marked { is_marked self.new name.now ≡ true }
        ensures stays { (other : Labels) → is_marked self.old other ≡ true → is_marked self.new other ≡ true }
    {
        let place = self.place_of(name);
        self.marks[place] = true;
    }

    /// Whether the name is marked: if it isn't, it is none of those.
    pub(crate) fn may_have(&self, name: &Name) -> bool
        ensures { result ≡ is_marked self.now name.now }
    {
        self.marks[self.place_of(name)]
    }

    /// The place of a name's mark.
    fn place_of(&self, name: &Name) -> usize
        ensures place { result ≡ place_of (length self.now) name.now }
        ensures within { result < length self.now }
    {
        let mut hasher = FoldHasher::default();
        hasher.write(name.encoding());
        (hasher.finish() % self.marks.len() as u64) as usize
    }
}
