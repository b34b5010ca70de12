//! A list that contracts see as its items.

ghost use Rattle.std.specs.Prelude.{◌≡◌, ◌==◌, ◌∷◌, ◌++◌, [], length, IfOk, OnOk, OnErr};
ghost use Rattle.std.specs.Slice.Iter.{iter_rest};

use crate::list_iter::ListIter;
use crate::memory::NoMemory;
use crate::name::Name;
use crate::octets::Octets;
use std::alloc::Global;
use std::cmp::Ordering;
use std::marker::Model;
use std::slice;

/// Items in order. Contracts see it as a list.
#[derive(Debug, Drop)]
pub struct List<T> {
    items: Vec<T>,
}

impl<T> Model for List<T> {
    ghost use Rattle.std.specs.Prelude.{List};

    ghost Value = { List T };

    ghost view = { λ list. list.items.items };
}

impl<T> List<T> {
    /// The list without an item. It takes no memory.
    pub fn new(alloc: Global) -> List<T>
        ensures { result ≡ [] }
    {
        List {
            items: Vec::new(alloc),
        }
    }

    /// The list of a vector's items.
    pub fn from_vec(items: Vec<T>) -> List<T>
        ensures { result ≡ items.items }
    {
        List { items }
    }

    /// The vector of the items.
    pub fn into_vec(self) -> Vec<T>
        ensures { result.items ≡ self }
    {
        self.items
    }

    /// The items, in order.
    pub fn items(&self) -> &[T]
        ensures { result.now ≡ self.now }
    {
        self.items.as_slice()
    }

    /// The items one after the other, in order.
    pub fn iter(&self) -> slice::Iter<'_, T>
        ensures { iter_rest result ≡ self.now }
    {
        self.items.iter()
    }

    /// How many items there are.
    pub fn len(&self) -> usize
        ensures { result ≡ length self.now }
    {
        self.items.len()
    }

    /// Whether there is no item.
    pub fn is_empty(&self) -> bool
        ensures { result ≡ (length self.now == 0) }
    {
        self.items.is_empty()
    }

    /// Puts an item at the end. After an error the list is as it was.
    pub fn push(&mut self, item: T) -> Result<(), NoMemory>
    where
        T: Drop,
        ensures ok { OnOk result (self.new ≡ self.old ++ item ∷ []) }
        ensures err { OnErr result (self.new ≡ self.old) }
    {
        self.items.push(item)?;
        Ok(())
    }
}

impl<T: Drop> IntoIterator for List<T> {
    ghost use Rattle.std.specs.Prelude.{◌≡◌};
    ghost use Rattle.std.specs.Iterator.{YieldsFirst};
    ghost use Rattle.std.specs.Iterator.Runs.{YieldsInOrder};

    type Item = T;

    type IntoIter = ListIter<T>;

    ghost into_iter_gives = { λ list iter. (iter ≡ list)
        × YieldsInOrder (YieldsFirst {A = T} (λ left. left)) (λ left. left) };

    fn into_iter(self) -> ListIter<T> {
        ListIter::new(self.into_vec())
    }
}

impl List<Octets> {
    /// An equal list.
    pub fn copy(&self, alloc: Global) -> Result<List<Octets>, NoMemory>
        ensures { IfOk result (λ list. list ≡ self.now) }
    {
        let mut list = List::new(alloc);
        for octets in self.items() {
            list.push(octets.copy(alloc)?)?;
        }
        Ok(list)
    }
}

impl List<Name> {
    /// An equal list.
    pub fn copy(&self, alloc: Global) -> Result<List<Name>, NoMemory>
        ensures { IfOk result (λ list. list ≡ self.now) }
    {
        let mut list = List::new(alloc);
        for name in self.items() {
            list.push(name.copy(alloc)?)?;
        }
        Ok(list)
    }
}

impl<T: PartialEq> PartialEq for List<T> {
    ghost use lib.Pointwise.{pointwise};
    ghost use Rattle.std.specs.Cmp.Lexicographic.{lists_per};

    ghost eq = { pointwise T.eq };

    ghost laws = { lists_per T.PartialEq.laws };

    fn eq(&self, other: &List<T>) -> bool {
        self.items() == other.items()
    }
}

impl<T: Eq> Eq for List<T> {
    ghost use Rattle.std.specs.Cmp.Lexicographic.{lists_equiv};

    ghost laws = { lists_equiv T.Eq.laws };
}

impl<T: PartialOrd> PartialOrd for List<T> {
    ghost use Rattle.std.specs.Cmp.Lexicographic.{slice_partial_cmp, lists_po};

    ghost partial_cmp = { slice_partial_cmp T.partial_cmp };

    ghost laws = { lists_po T.PartialOrd.laws };

    fn partial_cmp(&self, other: &List<T>) -> Option<Ordering> {
        self.items().partial_cmp(other.items())
    }
}

impl<T: Ord> Ord for List<T> {
    ghost use Rattle.std.specs.Cmp.Lexicographic.{slice_cmp, lists_total, lists_agrees, lists_ties};

    ghost cmp = { slice_cmp T.cmp };

    ghost total = { lists_total T.Ord.total };

    ghost matches_partial_cmp = { lists_agrees T.Ord.matches_partial_cmp };

    ghost matches_eq = { lists_ties T.cmp T.Ord.matches_eq };

    fn cmp(&self, other: &List<T>) -> Ordering {
        self.items().cmp(other.items())
    }
}
