//! Zones that are the same.

ghost use Rattle.std.specs.Prelude.{◌≡◌, true};

use dns_data::Rr;
use net_model::Zone;

/// What may be the same as another of its kind.
pub(crate) trait Same {
    /// Whether both are equal in each field.
    fn is_same(&self, other: &Self) -> bool
        ensures { result ≡ true → self.now ≡ other.now };
}

impl Same for Zone {
    fn is_same(&self, other: &Zone) -> bool {
        self.origin == other.origin && are_same(self.rrs.items(), other.rrs.items())
    }
}

impl Same for Rr {
    fn is_same(&self, other: &Rr) -> bool {
        self.line == other.line
            && self.file == other.file
            && self.ttl == other.ttl
            && self.owner == other.owner
            && self.rdata == other.rdata
    }
}

/// Whether the items of both are the same, one by one.
pub(crate) fn are_same<T: Same>(some: &[T], others: &[T]) -> bool
    ensures { result ≡ true → some.now ≡ others.now }
{
    if some.len() != others.len() {
        return false;
    }
    for place in 0..some.len() {
        if !some[place].is_same(&others[place]) {
            return false;
        }
    }
    true
}
