//! Of items that have a fault, of each fault the first.

ghost use Rattle.std.specs.Prelude.{◌≡◌, ◌-◌, ◌∷◌, ◌++◌, [], IfOk, OnOk, if◌then◌else◌, length, slice_get};
ghost use Rattle.std.specs.Cmp.{IsTotalOrder};
ghost use Rattle.std.specs.declared.cmp.Ordering.{Ordering as OrderingOf};
ghost use Rattle.net_model.specs.declared.fault.Fault.{Fault as FaultOf};
ghost use Rattle.graph_form.specs.FirstFaults.{AreFirsts, is_next, item_cmp};

use dns_data::{List, NoMemory};
use net_model::Fault;
use std::alloc::Global;
use std::cmp::Ordering;

/// What has a fault, in an order among the items with one fault.
pub trait OfFault {
    ghost fault_of: { Self → FaultOf };

    ghost rank: { Self → Self → OrderingOf };

    /// The fault.
    fn its_fault(&self) -> &Fault
        ensures { result.now ≡ fault_of self.now };

    /// How two items with one fault stand to each other.
    fn compare_rank(&self, other: &Self) -> Ordering
        ensures { result ≡ rank self.now other.now };

    ghost total: { IsTotalOrder rank };
}

/// The first item of each fault, in fault order. The list is sorted and then passed over once.
pub fn first_of_each<T: OfFault + Drop>(alloc: Global, items: List<T>) -> Result<List<T>, NoMemory>
    ensures { IfOk result (AreFirsts T.fault_of T.rank items) }
{
    let mut sorted = items.into_vec();
    sorted.sort_by(|a, b| compare(a, b))?;
    let mut first = List::new(alloc);
    for next in List::from_vec(sorted) {
        put_next(&mut first, next)?;
    }
    Ok(first)
}

/// Puts the next one behind the others, unless the last of them has the same fault.
fn put_next<T: OfFault + Drop>(first: &mut List<T>, next: T) -> Result<(), NoMemory>
    ensures { OnOk result (first.new ≡ (if is_next T.fault_of (slice_get first.old (length first.old - 1)) next then first.old ++ next ∷ [] else first.old)) }
{
    if is_next(first.items(), &next) {
        return first.push(next);
    }
    Ok(())
}

/// How two items stand to each other: by fault, then by their order among those with one fault.
fn compare<T: OfFault>(a: &T, b: &T) -> Ordering
    ensures { result ≡ item_cmp T.fault_of T.rank a.now b.now }
{
    match a.its_fault().compare(b.its_fault()) {
        Ordering::Equal => a.compare_rank(b),
        other => other,
    }
}

/// Whether the next one has another fault than the last of the list.
fn is_next<T: OfFault>(first: &[T], next: &T) -> bool
    ensures { result ≡ is_next T.fault_of (slice_get first.now (length first.now - 1)) next.now }
{
    match first.last() {
        Some(last) => last.its_fault().compare(next.its_fault()) != Ordering::Equal,
        None => true,
    }
}
