//! The faults that a report lists.

ghost use Rattle.std.specs.Prelude.{◌≡◌, IfOk};
ghost use Rattle.net_model.specs.FaultOrder.{kind_number, fault_place_cmp, fault_cmp};

use crate::class::Class;
use crate::place::{Cut, Place};
use dns_data::{NoMemory, RrType};
use std::alloc::Global;
use std::cmp::Ordering;

/// A kind of fault with its place, in the order of the report.
#[derive(Debug, Drop)]
pub enum Fault {
    /// The name server of a delegation doesn't serve the delegated zone.
    Lame(Cut),
    /// The delegation and the delegated zone list different name servers.
    Differs(Cut),
    /// A name server at or below the zone cut has no address in the referring zone.
    NoGlue(Cut),
    /// The addresses of a name server differ between the referring and the delegated zone.
    GlueDiffers(Cut),
    /// The address of a name server can be learnt only by asking that server or another such.
    Cyclic(Cut),
    /// A query is rewritten more often than is allowed.
    Limit(Place),
    /// A rewritten query ends at a name that doesn't exist.
    Blackhole(Place),
    /// Servers answer a query of the class differently.
    Answers(Class, RrType),
    /// A rewrite makes a name of more than 255 octets.
    Overlong(Place),
    /// The address of a name server can't be learnt.
    NoAddress(Cut),
}

impl Fault {
    /// An equal fault.
    pub fn copy(&self, alloc: Global) -> Result<Fault, NoMemory>
        ensures { IfOk result (λ copy. copy ≡ self.now) }
    {
        match self {
            Fault::Lame(cut) => Ok(Fault::Lame(cut.copy(alloc)?)),
            Fault::Differs(cut) => Ok(Fault::Differs(cut.copy(alloc)?)),
            Fault::NoGlue(cut) => Ok(Fault::NoGlue(cut.copy(alloc)?)),
            Fault::GlueDiffers(cut) => Ok(Fault::GlueDiffers(cut.copy(alloc)?)),
            Fault::Cyclic(cut) => Ok(Fault::Cyclic(cut.copy(alloc)?)),
            Fault::Limit(place) => Ok(Fault::Limit(place.copy(alloc)?)),
            Fault::Blackhole(place) => Ok(Fault::Blackhole(place.copy(alloc)?)),
            Fault::Answers(class, rtype) => Ok(Fault::Answers(class.copy(alloc)?, *rtype)),
            Fault::Overlong(place) => Ok(Fault::Overlong(place.copy(alloc)?)),
            Fault::NoAddress(cut) => Ok(Fault::NoAddress(cut.copy(alloc)?)),
        }
    }

    /// How the fault stands to the other in a report: by kind, then by the fields of the place.
    pub fn compare(&self, other: &Fault) -> Ordering
        ensures { result ≡ fault_cmp self.now other.now }
    {
        self.kind()
            .cmp(&other.kind())
            .then_with(|| self.compare_place(other))
    }

    // The place of the fault's kind in a report, counted from 0.
    fn kind(&self) -> u8
        ensures { result ≡ kind_number self.now }
    {
        match self {
            Fault::Lame(_) => 0,
            Fault::Differs(_) => 1,
            Fault::NoGlue(_) => 2,
            Fault::GlueDiffers(_) => 3,
            Fault::Cyclic(_) => 4,
            Fault::Limit(_) => 5,
            Fault::Blackhole(_) => 6,
            Fault::Answers(_, _) => 7,
            Fault::Overlong(_) => 8,
            Fault::NoAddress(_) => 9,
        }
    }

    // How the places of two faults of one kind stand to each other. Those of two kinds are equal here.
    fn compare_place(&self, other: &Fault) -> Ordering
        ensures { result ≡ fault_place_cmp self.now other.now }
    {
        match (self, other) {
            (Fault::Lame(a), Fault::Lame(b)) => a.compare(b),
            (Fault::Differs(a), Fault::Differs(b)) => a.compare(b),
            (Fault::NoGlue(a), Fault::NoGlue(b)) => a.compare(b),
            (Fault::GlueDiffers(a), Fault::GlueDiffers(b)) => a.compare(b),
            (Fault::Cyclic(a), Fault::Cyclic(b)) => a.compare(b),
            (Fault::Limit(a), Fault::Limit(b)) => a.compare(b),
            (Fault::Blackhole(a), Fault::Blackhole(b)) => a.compare(b),
            (Fault::Answers(a, s), Fault::Answers(b, t)) => {
                a.compare(b).then_with(|| s.number().cmp(&t.number()))
            }
            (Fault::Overlong(a), Fault::Overlong(b)) => a.compare(b),
            (Fault::NoAddress(a), Fault::NoAddress(b)) => a.compare(b),
            _ => Ordering::Equal,
        }
    }
}
