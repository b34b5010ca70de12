//! Top servers among the servers of rows.

ghost use Rattle.std.specs.Prelude.{◌≡◌, IfOk, List, ℕ};
ghost use Rattle.std.specs.Option.{option_map};
ghost use Rattle.std.specs.List.{list_any};
ghost use Rattle.std.specs.BTreeSet as tree;
ghost use Rattle.dns_data.specs.Name.{name_eq, name_cmp};
ghost use Rattle.meta_read.specs.Metadata.{first_unhosted};

use crate::meta::MetaRow;
use dns_data::{Name, NoMemory};
use std::alloc::Global;
use std::collections::BTreeSet;

/// The first of the top servers that has no row.
pub(crate) fn first_unhosted<'a>(
    alloc: Global,
    tops: &'a [Name],
    rows: &[MetaRow],
) -> Result<Option<&'a Name>, NoMemory>
    ensures { IfOk result (λ found. option_map (λ top. top.now) found ≡ first_unhosted tops.now rows.now) }
{
    let servers = servers_of(alloc, rows)?;
    Ok(tops.iter().find(|top| !servers.contains(*top)))
}

/// The servers of the rows.
fn servers_of(alloc: Global, rows: &[MetaRow]) -> Result<BTreeSet<Name>, NoMemory>
    ensures { IfOk result (λ servers. (name : List (List ℕ)) → tree.contains name_cmp servers name ≡ list_any (λ row. name_eq name row.server) rows.now) }
{
    let mut servers = BTreeSet::new(alloc);
    for row in rows {
        servers.insert(row.server.copy(alloc)?)?;
    }
    Ok(servers)
}
