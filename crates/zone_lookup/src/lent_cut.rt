//! One name server of a delegation, whose names are lent.

ghost use Rattle.std.specs.Prelude.{◌≡◌, IfOk};
ghost use Rattle.zone_lookup.specs.LentCut.{cut_of};

use dns_data::{Name, NoMemory};
use net_model::Cut;
use std::alloc::Global;

/// One name server of a delegation, as a `Cut` has it, with names that are lent. It takes no memory.
#[derive(Clone, Copy)]
pub struct LentCut<'c> {
    pub server: &'c Name,
    pub zone: &'c Name,
    pub cut: &'c Name,
    pub ns: &'c Name,
}

impl<'c> LentCut<'c> {
    /// The cut, lent.
    pub fn of(cut: &'c Cut) -> LentCut<'c>
        ensures { cut_of result ≡ cut.now }
    {
        LentCut {
            server: &cut.server,
            zone: &cut.zone,
            cut: &cut.cut,
            ns: &cut.ns,
        }
    }

    /// The cut with names of its own.
    pub fn copy(&self, alloc: Global) -> Result<Cut, NoMemory>
        ensures { IfOk result (λ copy. copy ≡ cut_of self.now) }
    {
        Ok(Cut {
            server: self.server.copy(alloc)?,
            zone: self.zone.copy(alloc)?,
            cut: self.cut.copy(alloc)?,
            ns: self.ns.copy(alloc)?,
        })
    }
}
