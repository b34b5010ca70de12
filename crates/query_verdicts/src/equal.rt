//! Whether two verdicts are the same.

ghost use Rattle.std.specs.Prelude.{◌≡◌, IsTrue};

use crate::verdict::{ClassVerdict, NameVerdict};
use graph_form::Seen;

/// Whether two verdicts of names are found to be the same.
pub(crate) fn is_same(a: &NameVerdict<ClassVerdict>, b: &NameVerdict<ClassVerdict>) -> bool
    ensures { IsTrue result → a.now ≡ b.now }
{
    is_same_class(&a.exact, &b.exact) && is_same_below(&a.below, &b.below)
}

/// Whether two verdicts of classes, either of which may be empty, are the same.
fn is_same_below(a: &Option<ClassVerdict>, b: &Option<ClassVerdict>) -> bool
    ensures { IsTrue result → a.now ≡ b.now }
{
    match (a, b) {
        (Some(one), Some(other)) => is_same_class(one, other),
        (None, None) => true,
        _ => false,
    }
}

/// Whether two verdicts of classes are the same.
fn is_same_class(a: &ClassVerdict, b: &ClassVerdict) -> bool
    ensures { IsTrue result → a.now ≡ b.now }
{
    match (a, b) {
        (ClassVerdict::Faults(one), ClassVerdict::Faults(other)) => {
            are_same(one.items(), other.items())
        }
        (ClassVerdict::StatesPassed, ClassVerdict::StatesPassed) => true,
        _ => false,
    }
}

/// Whether two lists of faults are the same.
fn are_same(a: &[Seen], b: &[Seen]) -> bool
    ensures { IsTrue result → a.now ≡ b.now }
{
    if a.len() != b.len() {
        return false;
    }
    for place in 0..a.len() {
        if !is_same_seen(&a[place], &b[place]) {
            return false;
        }
    }
    true
}

/// Whether two faults with their types are the same.
fn is_same_seen(a: &Seen, b: &Seen) -> bool
    ensures { IsTrue result → a.now ≡ b.now }
{
    a.rtype.number() == b.rtype.number() && a.fault.compare(&b.fault).is_eq()
}
