//! Where something stands in a configuration.

ghost use Rattle.std.specs.Prelude.{◌≡◌, IfOk};
ghost use Rattle.net_model.specs.FaultOrder.{place_cmp, cut_cmp};

use dns_data::{Name, NoMemory};
use std::alloc::Global;
use std::cmp::Ordering;

/// The place of a rewrite: the server, the zone's origin and the owner of the record that rewrites.
#[derive(Debug, PartialEq, Eq, Drop)]
pub struct Place {
    pub server: Name,
    pub zone: Name,
    pub owner: Name,
}

/// One name server of a delegation: the referring server and its zone's origin, the zone cut, and the name of
/// the name server (RFC 1034 section 4.2.1).
#[derive(Debug, PartialEq, Eq, Drop)]
pub struct Cut {
    pub server: Name,
    pub zone: Name,
    pub cut: Name,
    pub ns: Name,
}

impl Place {
    /// An equal place.
    pub fn copy(&self, alloc: Global) -> Result<Place, NoMemory>
        ensures { IfOk result (λ copy. copy ≡ self.now) }
    {
        Ok(Place {
            server: self.server.copy(alloc)?,
            zone: self.zone.copy(alloc)?,
            owner: self.owner.copy(alloc)?,
        })
    }

    /// How the place stands to the other: by server, zone and owner.
    pub fn compare(&self, other: &Place) -> Ordering
        ensures { result ≡ place_cmp self.now other.now }
    {
        self.server.compare(&other.server).then_with(|| {
            self.zone
                .compare(&other.zone)
                .then_with(|| self.owner.compare(&other.owner))
        })
    }
}

impl Cut {
    /// An equal name server of a delegation.
    pub fn copy(&self, alloc: Global) -> Result<Cut, NoMemory>
        ensures { IfOk result (λ copy. copy ≡ self.now) }
    {
        Ok(Cut {
            server: self.server.copy(alloc)?,
            zone: self.zone.copy(alloc)?,
            cut: self.cut.copy(alloc)?,
            ns: self.ns.copy(alloc)?,
        })
    }

    /// How the name server's delegation stands to the other: by server, zone, zone cut and name server.
    pub fn compare(&self, other: &Cut) -> Ordering
        ensures { result ≡ cut_cmp self.now other.now }
    {
        self.server.compare(&other.server).then_with(|| {
            self.zone.compare(&other.zone).then_with(|| {
                self.cut
                    .compare(&other.cut)
                    .then_with(|| self.ns.compare(&other.ns))
            })
        })
    }
}
