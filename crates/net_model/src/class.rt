//! Classes of query names.

ghost use Rattle.std.specs.Prelude.{◌≡◌, IfOk};
ghost use Rattle.net_model.specs.Class.{class_cmp};

use dns_data::{Name, NoMemory};
use std::alloc::Global;
use std::cmp::Ordering;

/// A class of query names: one name alone, or all names below a name of which no longer prefix is told apart.
#[derive(Debug, Drop)]
pub enum Class {
    Exact(Name),
    Below(Name),
}

impl Class {
    /// An equal class.
    pub fn copy(&self, alloc: Global) -> Result<Class, NoMemory>
        ensures { IfOk result (λ class. class ≡ self.now) }
    {
        match self {
            Class::Exact(name) => Ok(Class::Exact(name.copy(alloc)?)),
            Class::Below(name) => Ok(Class::Below(name.copy(alloc)?)),
        }
    }

    /// How the class stands to the other: by their names, the name alone before those below it.
    pub fn compare(&self, other: &Class) -> Ordering
        ensures { result ≡ class_cmp self.now other.now }
    {
        match (self, other) {
            (Class::Exact(a), Class::Exact(b)) => a.compare(b),
            (Class::Exact(a), Class::Below(b)) => a.compare(b).then(Ordering::Less),
            (Class::Below(a), Class::Exact(b)) => a.compare(b).then(Ordering::Greater),
            (Class::Below(a), Class::Below(b)) => a.compare(b),
        }
    }
}
