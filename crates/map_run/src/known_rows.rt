//! The rows of a configuration by their origins.

ghost use Rattle.std.specs.Prelude.{◌≡◌, map, IfOk};
ghost use Rattle.std.specs.List.{filter};
ghost use Rattle.map_run.specs.Chain.{is_row_at};
ghost use Rattle.map_run.specs.NameLists.{Lists};

use crate::name_key::NameKey;
use crate::name_lists::{list_at, listed_at};
use config_load::RowFiles;
use dns_data::{List, NoMemory};
use std::alloc::Global;
use std::collections::HashMap;
use std::marker::Model;
use zone_lookup::Hosts;

/// The trees of a configuration's zones, and its rows by their origins. Contracts see the configuration and the rows.
#[derive(Drop)]
pub(crate) struct KnownRows<'h, 'a, 'r> {
    hosts: &'h Hosts<'a>,
    rows: &'r [RowFiles],
    by_origin: HashMap<NameKey, List<&'r RowFiles>>,
}

impl<'h, 'a, 'r> Model for KnownRows<'h, 'a, 'r> {
    ghost use Rattle.config_load.specs.declared.loaded.Loaded.{Loaded};
    ghost use Rattle.map_run.specs.Chain.{is_row_at};
    ghost use Rattle.map_run.specs.NameLists.{Lists};

    ghost Value = { Loaded };

    ghost view = { λ all. record { config = all.hosts.now; rows = all.rows.now } };

    ghost invariant = { λ all. Lists is_row_at all.rows.now all.by_origin };
}

impl<'h, 'a, 'r> KnownRows<'h, 'a, 'r> {
    /// The rows by their origins, beside the trees.
    pub(crate) fn new(
        alloc: Global,
        hosts: &'h Hosts<'a>,
        rows: &'r [RowFiles],
    ) -> Result<KnownRows<'h, 'a, 'r>, NoMemory>
        ensures { IfOk result (λ all. all ≡ record { config = hosts.entry.now; rows = rows.entry.now }) }
    {
        let by_origin = rows_by_origin(alloc, rows)?;
        Ok(KnownRows {
            hosts,
            rows,
            by_origin,
        })
    }

    /// The trees of the zones.
    pub(crate) fn hosts(&self) -> &'h Hosts<'a>
        ensures { result.now ≡ self.now.config }
    {
        self.hosts
    }

    /// The rows with this origin, in order.
    pub(crate) fn at(&self, origin: &NameKey) -> &[&'r RowFiles]
        ensures { map (λ row. row.now) result.now ≡ filter (is_row_at origin.now) self.now.rows }
    {
        listed_at(&self.by_origin, origin)
    }
}

/// The rows by their origins.
fn rows_by_origin<'r>(
    alloc: Global,
    rows: &'r [RowFiles],
) -> Result<HashMap<NameKey, List<&'r RowFiles>>, NoMemory>
    ensures { IfOk result (Lists is_row_at rows.now) }
{
    let mut lists = HashMap::new(alloc);
    for row in rows {
        list_at(alloc, &mut lists, &row.origin, row)?;
    }
    Ok(lists)
}
