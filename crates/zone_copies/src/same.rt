//! Zones with the same records.

ghost use Rattle.std.specs.Prelude.{◌≡◌, ◌&&◌, true, map};
ghost use Rattle.dns_data.specs.Name.{name_eq};
ghost use Rattle.dns_data.specs.Rdata.{data_eq};
ghost use Rattle.zone_copies.specs.Versions.{version_of};
ghost use Rattle.zone_copies.specs.Plain.{plain};

use dns_data::Rr;
use net_model::Zone;

/// Whether the records of two zones have the same owners and data, one by one. Then what is compared of the zones is the
/// same, and needn't be made.
pub fn have_same_records(a: &Zone, b: &Zone) -> bool
    ensures { result ≡ true → version_of a.now ≡ version_of b.now }
{
    are_same(a.rrs.items(), b.rrs.items())
}

/// Whether records have the same owners and data, one by one.
fn are_same(some: &[Rr], others: &[Rr]) -> bool
    ensures { result ≡ true → map plain some.now ≡ map plain others.now }
{
    if some.len() != others.len() {
        return false;
    }
    for place in 0..some.len() {
        if !is_same(&some[place], &others[place]) {
            return false;
        }
    }
    true
}

/// Whether two records have the same owner and data.
fn is_same(a: &Rr, b: &Rr) -> bool
    ensures { result ≡ (name_eq a.now.owner b.now.owner && data_eq a.now.rdata b.now.rdata) }
{
    a.owner == b.owner && a.rdata == b.rdata
}
