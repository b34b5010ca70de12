//! Names as keys of tables without an order.

ghost use Rattle.std.specs.Prelude.{◌≡◌, IfOk};
ghost use Rattle.dns_data.specs.Name.{name_eq};

use dns_data::{Name, NoMemory};
use std::alloc::Global;
use std::hash::{Hash, Hasher};
use std::marker::Model;

/// A name at which something is found. Contracts see the name.
#[derive(Debug, Drop)]
pub(crate) struct NameKey {
    name: Name,
}

impl Model for NameKey {
    ghost use Rattle.std.specs.Prelude.{List, ℕ};

    ghost Value = { List (List ℕ) };

    ghost view = { λ key. key.name };

    ghost inverse = { λ name. record { name = name } };
}

impl NameKey {
    /// The key of a name. Most names take no memory of their own.
    pub(crate) fn of(alloc: Global, name: &Name) -> Result<NameKey, NoMemory>
        ensures { IfOk result (λ key. key ≡ name.now) }
    {
        Ok(NameKey {
            name: name.copy(alloc)?,
        })
    }
}

impl PartialEq for NameKey {
    ghost use Rattle.std.specs.Cmp.Lexicographic.{nat_list_eq_equiv, lists_equiv};
    ghost use Rattle.std.specs.Cmp.{partial_equiv_from_equiv};

    ghost eq = { name_eq };

    ghost laws = { partial_equiv_from_equiv (lists_equiv nat_list_eq_equiv) };

    fn eq(&self, other: &NameKey) -> bool {
        self.name == other.name
    }
}

impl Eq for NameKey {
    ghost use Rattle.std.specs.Cmp.Lexicographic.{nat_list_eq_equiv, lists_equiv};

    ghost laws = { lists_equiv nat_list_eq_equiv };
}

impl Hash for NameKey {
    ghost use Rattle.map_run.specs.NameLists.{equal_writes, name_writes};

    ghost hash_input = { name_writes };

    ghost respects_eq = { equal_writes };

    fn hash<H: Hasher>(&self, state: &mut H) {
        state.write(self.name.encoding());
    }
}
