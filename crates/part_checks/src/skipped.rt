//! Rows that a part needn't read.

ghost use Rattle.std.specs.Prelude.{◌≡◌};
ghost use Rattle.part_checks.specs.Skipped.{begins_past, ends_before, is_apart, is_skipped};

use crate::sets::NameSets;
use dns_data::Name;
use part_names::PartNames;

/// Whether a zone with this origin has nothing that the part asks for but its origin: no name at or below the origin is
/// held, and none is own.
pub(crate) fn is_skipped(sets: &NameSets<'_>, origin: &Name) -> bool
    ensures { result ≡ is_skipped sets.now origin.now }
{
    is_apart(sets.names(), origin) && !sets.has(origin)
}

/// Whether no name at or below this one is one of the part's own.
fn is_apart(names: &PartNames, name: &Name) -> bool
    ensures { result ≡ is_apart names.now name.now }
{
    ends_before(&names.to, name) || begins_past(&names.from, name)
}

/// Whether own names that end here end before a name and all below it.
fn ends_before(to: &Option<Name>, name: &Name) -> bool
    ensures { result ≡ ends_before to.now name.now }
{
    match to {
        Some(to) => !name.compare(to).is_lt(),
        None => false,
    }
}

/// Whether own names that begin here begin behind a name and all below it.
fn begins_past(from: &Option<Name>, name: &Name) -> bool
    ensures { result ≡ begins_past from.now name.now }
{
    match from {
        Some(from) => name.compare(from).is_lt() && !name.is_prefix_of(from),
        None => false,
    }
}
