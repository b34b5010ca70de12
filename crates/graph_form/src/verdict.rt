//! Of faults seen with several types the first.

ghost use Rattle.std.specs.Prelude.{IfOk};
ghost use Rattle.std.specs.Ordering.{nat_cmp};
ghost use Rattle.std.proofs.lemmas.Cmp.{nat_cmp_total, on_total};
ghost use Rattle.dns_data.specs.RrType.{number_of};
ghost use Rattle.graph_form.specs.Verdict.{AreFirstTypes};

use crate::first_faults::{OfFault, first_of_each};
use crate::report::Seen;
use dns_data::{List, NoMemory};
use net_model::Fault;
use std::alloc::Global;
use std::cmp::Ordering;

impl OfFault for Seen {
    ghost fault_of = { λ seen. seen.fault };

    ghost rank = { λ a b. nat_cmp (number_of a.rtype) (number_of b.rtype) };

    fn its_fault(&self) -> &Fault {
        &self.fault
    }

    fn compare_rank(&self, other: &Seen) -> Ordering {
        self.rtype.number().cmp(&other.rtype.number())
    }

    ghost total = { on_total (λ seen. number_of seen.rtype) nat_cmp_total };
}

/// The first type with which each fault is seen, in fault order.
pub fn first_types(alloc: Global, seen: List<Seen>) -> Result<List<Seen>, NoMemory>
    ensures { IfOk result (AreFirstTypes seen) }
{
    // Named, since the proof speaks of the list that comes where memory suffices.
    let first = first_of_each(alloc, seen)?;
    Ok(first)
}
