//! A value in memory of its own, that contracts see as the value.

ghost use Rattle.std.specs.Prelude.{◌≡◌, IfOk};

use crate::memory::NoMemory;
use crate::name::Name;
use crate::octets::Octets;
use std::alloc::Global;
use std::cmp::Ordering;
use std::marker::Model;

/// A value in memory of its own, so that what holds it stays small. Contracts see the value.
#[derive(Debug, Drop)]
pub struct Boxed<T> {
    value: Box<T>,
}

impl<T> Model for Boxed<T> {
    ghost Value = { T };

    ghost view = { λ boxed. boxed.value.value };
}

impl<T> Boxed<T> {
    /// The value, moved into memory of its own. `NoMemory` comes where there is no room for it; the value is let go then.
    pub fn new(alloc: Global, value: T) -> Result<Boxed<T>, NoMemory>
    where
        T: Drop,
        ensures { IfOk result (λ boxed. boxed ≡ value) }
    {
        Ok(Boxed {
            value: Box::new(alloc, value)?,
        })
    }

    /// The value.
    pub fn get(&self) -> &T
        ensures { result.now ≡ self.now }
    {
        self.value.as_ref()
    }
}

impl Boxed<Octets> {
    /// Equal octets.
    pub fn copy(&self, alloc: Global) -> Result<Boxed<Octets>, NoMemory>
        ensures { IfOk result (λ copy. copy ≡ self.now) }
    {
        Boxed::new(alloc, self.get().copy(alloc)?)
    }
}

impl Boxed<Name> {
    /// An equal name.
    pub fn copy(&self, alloc: Global) -> Result<Boxed<Name>, NoMemory>
        ensures { IfOk result (λ copy. copy ≡ self.now) }
    {
        Boxed::new(alloc, self.get().copy(alloc)?)
    }
}

impl<T: PartialEq> PartialEq for Boxed<T> {
    ghost eq = { T.eq };

    ghost laws = { T.PartialEq.laws };

    fn eq(&self, other: &Boxed<T>) -> bool {
        *self.get() == *other.get()
    }
}

impl<T: Eq> Eq for Boxed<T> {
    ghost laws = { T.Eq.laws };
}

impl<T: PartialOrd> PartialOrd for Boxed<T> {
    ghost partial_cmp = { T.partial_cmp };

    ghost laws = { T.PartialOrd.laws };

    fn partial_cmp(&self, other: &Boxed<T>) -> Option<Ordering> {
        self.get().partial_cmp(other.get())
    }
}

impl<T: Ord> Ord for Boxed<T> {
    ghost cmp = { T.cmp };

    ghost total = { T.Ord.total };

    ghost matches_partial_cmp = { T.Ord.matches_partial_cmp };

    ghost matches_eq = { T.Ord.matches_eq };

    fn cmp(&self, other: &Boxed<T>) -> Ordering {
        self.get().cmp(other.get())
    }
}
