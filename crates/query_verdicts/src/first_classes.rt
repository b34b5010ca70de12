//! Of the faults that the classes of a class tree show, each with the first class that shows it.

ghost use Rattle.std.specs.Prelude.{◌≡◌, ◌++◌, ◌∷◌, [], IsTrue, IfOk, OnOk};
ghost use Rattle.std.proofs.lemmas.Cmp.{on_total};
ghost use Rattle.graph_form.specs.FirstFaults.{AreFirsts, IsRanked};
ghost use Rattle.net_model.proofs.FaultOrder.{classes_total};
ghost use Rattle.query_verdicts.specs.Rows.{KeepsFirsts, class_fault, class_rank, found_at, found_fault, found_in, found_of, with_class};

use crate::subject::{OnSubject, SubjectGround};
use crate::verdict::{ClassVerdict, FiledVerdict, NameVerdict};
use dns_data::{List, Name, NoMemory};
use graph_form::{OfFault, Seen, first_of_each};
use net_model::{Class, Fault};
use query_classes::TreeName;
use std::alloc::Global;
use std::cmp::Ordering;
use std::marker::Model;
use std::mem;
use verdict_book::{Filed, Work};

/// A fault with its first type, and a class that shows it.
#[derive(Drop)]
pub(crate) struct ClassFault {
    pub seen: Seen,
    pub class: Class,
}

impl OfFault for ClassFault {
    ghost fault_of = { found_fault };

    ghost rank = { class_rank };

    fn its_fault(&self) -> &Fault {
        &self.seen.fault
    }

    fn compare_rank(&self, other: &ClassFault) -> Ordering {
        self.class.compare(&other.class)
    }

    ghost total = { on_total (λ found. found.class) classes_total };
}

/// The faults of the names, each with the first class that shows it, in fault order. They take room as there are
/// faults that differ, and not as there are classes that show them.
pub(crate) fn first_classes<
    S: OnSubject,
    W: Work<Item = TreeName<SubjectGround<S>>, Verdict = FiledVerdict>,
>(alloc: Global, filed: List<Filed<W>>) -> Result<List<ClassFault>, NoMemory>
    ensures { IfOk result (AreFirsts found_fault class_rank (found_of filed)) }
{
    let mut found = FirstClasses::new(alloc);
    for one in filed {
        let Filed { item, verdict } = one;
        put_name(alloc, item.into_name(), verdict, &mut found)?;
    }
    // Named, since the proof speaks of the list that comes where memory suffices.
    let firsts = found.into_list(alloc)?;
    Ok(firsts)
}

/// Puts the faults of the classes of a name.
fn put_name(
    alloc: Global,
    name: Name,
    verdict: FiledVerdict,
    found: &mut FirstClasses,
) -> Result<(), NoMemory>
    ensures { OnOk result (KeepsFirsts (found.old ++ found_at name verdict) found.new) }
{
    match verdict.whole() {
        Some(whole) => put_classes(alloc, name, whole, found),
        None => Ok(()),
    }
}

/// Puts the faults of the class of a name alone and of the class below it.
fn put_classes(
    alloc: Global,
    name: Name,
    verdict: &NameVerdict<ClassVerdict>,
    found: &mut FirstClasses,
) -> Result<(), NoMemory>
    ensures { OnOk result (KeepsFirsts (found.old ++ found_at name verdict.now) found.new) }
{
    let class = Class::Exact(name.copy(alloc)?);
    found.put_class(alloc, &class, &verdict.exact)?;
    match &verdict.below {
        Some(verdict) => found.put_class(alloc, &Class::Below(name), verdict),
        None => Ok(()),
    }
}

/// The faults of the classes so far: each with the first of them that shows it, and some of them with later ones too.
/// Contracts see them. So many at the front are in fault order, each once; a fault is looked for at the next place first,
/// and else among these. Classes that show the same faults, one after the other, cost one comparison a fault.
#[derive(Drop)]
struct FirstClasses {
    found: List<ClassFault>,
    sorted: usize,
    next: usize,
}

/// How many faults don't count when it is asked whether fewer than half are in order: so few are put in order once, at the
/// end.
const FRESH: usize = 2048;

impl Model for FirstClasses {
    ghost use Rattle.std.specs.Prelude.{List};
    ghost use Rattle.query_verdicts.specs.declared.first_classes.ClassFault.{ClassFault};

    ghost Value = { List ClassFault };

    ghost view = { λ classes. classes.found };
}

impl FirstClasses {
    /// No fault.
    fn new(alloc: Global) -> FirstClasses
        ensures { result ≡ [] }
    {
        FirstClasses {
            found: List::new(alloc),
            sorted: 0,
            next: 0,
        }
    }

    /// Puts the faults of a class.
    fn put_class(
        &mut self,
        alloc: Global,
        class: &Class,
        verdict: &ClassVerdict,
    ) -> Result<(), NoMemory>
        ensures { OnOk result (KeepsFirsts (self.old ++ found_in class.now verdict.now) self.new) }
    {
        self.sort(alloc)?;
        match verdict {
            ClassVerdict::Faults(shown) => self.put_shown(alloc, class, shown.items()),
            ClassVerdict::StatesPassed => Ok(()),
        }
    }

    /// Puts all faults in order, if there are many and fewer than half of them are.
    fn sort(&mut self, alloc: Global) -> Result<(), NoMemory>
        ensures { OnOk result (KeepsFirsts self.old self.new) }
    {
        if self.sorted.saturating_add(FRESH) < self.found.len() / 2 {
            let found = mem::replace(&mut self.found, List::new(alloc));
            self.found = first_of_each(alloc, found)?;
            self.sorted = self.found.len();
        }
        Ok(())
    }

    /// Puts the faults that a class shows. The first of them are looked for next.
    fn put_shown(&mut self, alloc: Global, class: &Class, shown: &[Seen]) -> Result<(), NoMemory>
        ensures { OnOk result (KeepsFirsts (self.old ++ with_class class.now shown.now) self.new) }
    {
        for seen in shown {
            self.put(alloc, class, seen)?;
        }
        self.next = self.next.saturating_sub(shown.len());
        Ok(())
    }

    /// Puts a fault of a class, unless it is known of this class or an earlier one.
    fn put(&mut self, alloc: Global, class: &Class, seen: &Seen) -> Result<(), NoMemory>
        ensures { OnOk result (KeepsFirsts (self.old ++ class_fault class.now seen.now ∷ []) self.new) }
    {
        if self.has(class, seen) {
            return Ok(());
        }
        let one = copied(alloc, class, seen)?;
        self.next = self.found.len().saturating_add(1);
        self.found.push(one)
    }

    /// Whether the fault is found with this class or an earlier one. The next place is that behind it.
    fn has(&mut self, class: &Class, seen: &Seen) -> bool
        ensures shown { IsTrue result → IsRanked found_fault class_rank self.old (class_fault class.now seen.now) }
        ensures same { self.new ≡ self.old }
    {
        if has_at(self.found.items(), self.next, class, seen) {
            self.next = self.next.saturating_add(1);
            return true;
        }
        let place = place_of(self.found.items(), self.sorted, &seen.fault);
        self.next = place.saturating_add(1);
        has_at(self.found.items(), place, class, seen)
    }

    /// The faults, each with the first class that shows it, in fault order.
    fn into_list(self, alloc: Global) -> Result<List<ClassFault>, NoMemory>
        ensures { IfOk result (AreFirsts found_fault class_rank self) }
    {
        // Named, since the proof speaks of the list that comes where memory suffices.
        let firsts = first_of_each(alloc, self.found)?;
        Ok(firsts)
    }
}

/// Whether the fault stands at a place, with this class or an earlier one.
fn has_at(found: &[ClassFault], place: usize, class: &Class, seen: &Seen) -> bool
    ensures { IsTrue result → IsRanked found_fault class_rank found.now (class_fault class.now seen.now) }
{
    match found.get(place) {
        Some(one) => one.is_of(&seen.fault) && !class.compare(&one.class).is_lt(),
        None => false,
    }
}

impl ClassFault {
    /// Whether it is this fault.
    fn is_of(&self, fault: &Fault) -> bool
        ensures { IsTrue result → found_fault self.now ≡ fault.now }
    {
        self.seen.fault.compare(fault).is_eq()
    }
}

/// Where a fault stands among so many first ones, which are in order, if it is one of them. The last of these is looked at
/// first. No meaning rests on it.
fn place_of(found: &[ClassFault], sorted: usize, fault: &Fault) -> usize {
    let Some(front) = found.get(..sorted) else {
        return usize::MAX;
    };
    match front.last() {
        Some(last) if !last.seen.fault.compare(fault).is_lt() => searched(front, fault),
        _ => usize::MAX,
    }
}

/// Where a fault stands among faults in order, or would stand.
fn searched(sorted: &[ClassFault], fault: &Fault) -> usize {
    match sorted.binary_search_by(|one| one.seen.fault.compare(fault)) {
        Ok(place) | Err(place) => place,
    }
}

/// The fault with the class.
fn copied(alloc: Global, class: &Class, seen: &Seen) -> Result<ClassFault, NoMemory>
    ensures { IfOk result (λ one. one ≡ class_fault class.now seen.now) }
{
    let class = class.copy(alloc)?;
    let fault = seen.fault.copy(alloc)?;
    let rtype = seen.rtype;
    Ok(ClassFault {
        seen: Seen { fault, rtype },
        class,
    })
}
