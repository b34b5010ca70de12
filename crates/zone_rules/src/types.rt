//! The types of records that rules ask for.

ghost use Rattle.std.specs.Prelude.{◌≡◌};
ghost use Rattle.zone_rules.specs.Apex.{is_type};

use dns_data::{Rdata, Rr, RrType};

/// Whether the record is a start of authority (RFC 1035 section 3.3.13).
pub(crate) fn is_soa(rr: &Rr) -> bool
    ensures { result ≡ is_type RrType.Soa rr.now }
{
    matches!(rr.rdata, Rdata::Soa { .. })
}

/// Whether the record names a name server (RFC 1035 section 3.3.11).
pub(crate) fn is_ns(rr: &Rr) -> bool
    ensures { result ≡ is_type RrType.Ns rr.now }
{
    matches!(rr.rdata, Rdata::Ns(_))
}

/// Whether the record makes its owner an alias (RFC 1035 section 3.3.1).
pub(crate) fn is_cname(rr: &Rr) -> bool
    ensures { result ≡ is_type RrType.Cname rr.now }
{
    matches!(rr.rdata, Rdata::Cname(_))
}

/// Whether the record redirects the names below its owner (RFC 6672 section 2.1).
pub(crate) fn is_dname(rr: &Rr) -> bool
    ensures { result ≡ is_type RrType.Dname rr.now }
{
    matches!(rr.rdata, Rdata::Dname(_))
}
