//! Numbers that equal owners, and identical records, share. Others seldom do, unless they were made for it.

ghost use Rattle.std.specs.Prelude.{◌≡◌};
ghost use Rattle.zone_rules.specs.Fingerprint.{fed_data, owner_number, record_number};

use dns_data::{Name, Rdata, Rr};
use std::hash::{FoldHasher, Hasher};

/// The number of an owner.
pub(crate) fn owner_number(owner: &Name) -> u64
    ensures { result ≡ owner_number owner.now }
{
    let mut hasher = FoldHasher::default();
    hasher.write(owner.encoding());
    hasher.finish()
}

/// The number of a record, by its owner and the address or the name that its data give.
pub(crate) fn record_number(rr: &Rr) -> u64
    ensures { result ≡ record_number rr.now }
{
    let mut hasher = FoldHasher::default();
    hasher.write(rr.owner.encoding());
    feed_data(&mut hasher, &rr.rdata);
    hasher.finish()
}

/// Feeds the address or the name that data give, if they give one.
fn feed_data(hasher: &mut FoldHasher, rdata: &Rdata)
    ensures { hasher.new ≡ fed_data hasher.old rdata.now }
{
    match rdata {
        Rdata::A(address) => hasher.write(address.as_slice()),
        Rdata::Aaaa(address) => hasher.write(address.as_slice()),
        Rdata::Ns(name) | Rdata::Cname(name) | Rdata::Ptr(name) | Rdata::Dname(name) => {
            hasher.write(name.encoding())
        }
        Rdata::Mx { exchange, .. } => hasher.write(exchange.encoding()),
        Rdata::Srv { target, .. } => hasher.write(target.encoding()),
        _ => (),
    }
}
