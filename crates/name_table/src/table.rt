//! Tables of names.

ghost use Rattle.std.specs.Prelude.{◌≡◌, IfOk};
ghost use Rattle.name_table.specs.Keys.{AreKeyed};
ghost use Rattle.name_table.specs.Table.{IsTable};

use crate::keys::key_of;
use dns_data::{Name, NoMemory};
use std::alloc::Global;
use std::marker::Model;

/// Names in order, of which the first is above the others. With each name that has a label below the first, the one a label
/// above it is there. Beside each stands the key of the labels that it has below the first.
#[derive(Debug, Drop)]
pub struct NameTable {
    names: Vec<Name>,
    keys: Vec<u64>,
}

impl Model for NameTable {
    ghost use Rattle.std.specs.Prelude.{List};
    ghost use Rattle.dns_data.specs.Name.{Labels};
    ghost use Rattle.name_table.specs.Keys.{AreKeyed};
    ghost use Rattle.name_table.specs.Table.{IsTable};

    ghost Value = { List Labels };

    ghost view = { λ table. table.names.items };

    ghost invariant = { λ table. IsTable table.names.items × AreKeyed table.names.items table.keys.items };
}

impl NameTable {
    /// The table of these names.
    pub fn of(alloc: Global, names: Vec<Name>) -> Result<NameTable, NoMemory>
        requires { IsTable names.items }
        ensures { IfOk result (λ table. table ≡ names.items) }
    {
        let keys = keys_of(alloc, names.as_slice())?;
        Ok(NameTable { names, keys })
    }

    /// The names, in order.
    pub fn names(&self) -> &[Name]
        ensures same { result.now ≡ self.now }
        ensures table { IsTable self.now }
    {
        self.names.as_slice()
    }

    /// The names, and their keys.
    pub(crate) fn with_keys(&self) -> (&[Name], &[u64])
        ensures same { result.0.now ≡ self.now }
        ensures table { IsTable result.0.now }
        ensures keyed { AreKeyed result.0.now result.1.now }
    {
        (self.names.as_slice(), self.keys.as_slice())
    }
}

/// The keys of the labels that names have below the first of them.
fn keys_of(alloc: Global, names: &[Name]) -> Result<Vec<u64>, NoMemory>
    requires { IsTable names.now }
    ensures { IfOk result (λ keys. AreKeyed names.now keys.items) }
{
    let first = &names[0];
    let mut keys = Vec::with_capacity(alloc, names.len())?;
    for name in names {
        keys.push(key_of(first, &name.labels()))?;
    }
    Ok(keys)
}
