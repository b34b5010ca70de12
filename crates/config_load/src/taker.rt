//! What is done with zones when they are read.

ghost use Rattle.std.specs.Prelude.{◌≡◌, ◌++◌, ◌∷◌, [], Bool, false, List, IfOk, OnOk, refl};
ghost use Rattle.dns_data.specs.Name.{Labels};
ghost use Rattle.net_model.specs.Configured.{KeepsWithin};
ghost use Rattle.net_model.specs.declared.config.Zone.{Zone as ZoneValue};

use dns_data::{Name, NoMemory};
use net_model::Zone;
use std::alloc::Global;

/// What is done with each zone when it is read, before the files of the next row are opened: some of it is left, and the
/// rest is let go of. The files of some rows needn't be read, which is told by the origins that these give.
pub trait ZoneTaker {
    /// Whether rows with this origin are skipped.
    ghost skips: { Self → Labels → Bool };

    /// What is left of a zone.
    ghost left_of: { Self → ZoneValue → ZoneValue };

    /// Since it was the first of these it took these zones, and became the second.
    ghost took: { Self → Self → List ZoneValue → Type 0 };

    /// Whether a row with this origin is skipped: then no file is read for it, and a zone without records is taken.
    fn passes_over(&self, origin: &Name) -> bool
        ensures { result ≡ skips self.now origin.now };

    /// Takes a zone whose records lie at or below its origin, and gives what is left of it.
    fn take(&mut self, alloc: Global, zone: Zone) -> Result<Zone, NoMemory>
        requires { KeepsWithin zone }
        ensures left { IfOk result (λ left. left ≡ left_of self.old zone) }
        ensures took { OnOk result ((first : Self) (zones : List ZoneValue) → took first self.old zones → took first self.new (zones ++ zone ∷ [])) }
        ensures same { left_of self.new ≡ left_of self.old }
        ensures same_skips { skips self.new ≡ skips self.old };

    /// What is left of a zone has its origin.
    ghost origin: { (taker : Self) (zone : ZoneValue) → (left_of taker zone).origin ≡ zone.origin };

    /// The records that are left lie at or below the origin.
    ghost within: { (taker : Self) (zone : ZoneValue) → KeepsWithin zone → KeepsWithin (left_of taker zone) };
}

/// Leaves each zone as it is.
#[derive(Debug, Drop)]
pub(crate) struct WholeZones;

impl ZoneTaker for WholeZones {
    ghost skips = { λ taker origin. false };

    ghost left_of = { λ taker zone. zone };

    ghost took = { λ first taker zones. Unit {0} };

    ghost origin = { λ taker zone. refl };

    ghost within = { λ taker zone keeps. keeps };

    fn passes_over(&self, _origin: &Name) -> bool {
        false
    }

    fn take(&mut self, _alloc: Global, zone: Zone) -> Result<Zone, NoMemory> {
        Ok(zone)
    }
}
