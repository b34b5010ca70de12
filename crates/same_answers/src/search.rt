//! The first class of a verdict that is sought.

ghost use Rattle.std.specs.Prelude.{◌≡◌, Some, false, true, IfOk, MatchOption};
ghost use Rattle.std.specs.Option.{option_map_or};
ghost use Rattle.query_classes.specs.Children.{IsInTree};
ghost use Rattle.query_classes.specs.TreeNames.{IsLiveIn};
ghost use Rattle.same_answers.specs.Compared.{joint};
ghost use Rattle.same_answers.specs.Rows.{ArePairRows, IsFirstSought, IsFoundBelow, IsSoughtAt, NoneSought, is_sought};
ghost use Rattle.same_answers.specs.Verdict.{IsPairVerdict};

use crate::naming::{JointGround, PairNaming};
use crate::pairing::Pairing;
use crate::verdict::PairEnd;
use dns_data::{Name, NoMemory};
use query_classes::{LiveName, TreeName};
use query_verdicts::NameVerdict;
use verdict_book::{Filed, Work};

/// What is sought: a class whose representative reaches more pairs of state and type than are looked at, or one whose
/// outcomes differ.
#[derive(Clone, Copy, Debug)]
pub(crate) enum Sought {
    Passed,
    Apart,
}

/// The representative of a class, and the class's verdict.
#[derive(Debug, Drop)]
pub(crate) struct SoughtClass {
    pub query: Name,
    pub end: PairEnd,
}

impl<'a, N: PairNaming> Pairing<'a, N> {
    /// The first class in class order of a verdict that is sought, or `None` where there is none.
    pub(crate) fn first_sought<
        W: Work<Item = TreeName<JointGround<N>>, Verdict = NameVerdict<PairEnd>>,
    >(&self, filed: &[Filed<W>], sought: Sought) -> Result<Option<SoughtClass>, NoMemory>
        requires { ArePairRows N.compared filed.now }
        ensures { IfOk result (λ found. MatchOption found (NoneSought N.compared sought) (IsFirstSought N.compared sought)) }
    {
        for one in filed {
            if let Some(found) = self.sought_at(one.item.live_name(), &one.verdict, sought)? {
                return Ok(Some(found));
            }
        }
        Ok(None)
    }

    /// The first class of a name with such a verdict, or `None` where there is none.
    fn sought_at(
        &self,
        name: &LiveName,
        verdict: &NameVerdict<PairEnd>,
        sought: Sought,
    ) -> Result<Option<SoughtClass>, NoMemory>
        requires live { IsLiveIn (joint N.compared) name.now.name name.now.live }
        requires in_tree { IsInTree (joint N.compared) name.now.name }
        requires verdict { IsPairVerdict N.compared name.now.name verdict.now }
        ensures { IfOk result (IsSoughtAt N.compared sought name.now.name) }
    {
        if is_sought(sought, verdict.exact) {
            let query = name.name.copy(self.alloc())?;
            return Ok(Some(SoughtClass {
                query,
                end: verdict.exact,
            }));
        }
        match sought_below(sought, verdict.below) {
            Some(end) => self.found_below(name, end),
            None => Ok(None),
        }
    }

    /// The class below a name of the class tree, of which this is the verdict, or `None` where it is empty.
    fn found_below(&self, above: &LiveName, end: PairEnd) -> Result<Option<SoughtClass>, NoMemory>
        requires live { IsLiveIn (joint N.compared) above.now.name above.now.live }
        requires in_tree { IsInTree (joint N.compared) above.now.name }
        ensures { IfOk result (IsFoundBelow N.compared above.now.name end) }
    {
        match self.representative_below(above)? {
            Some(query) => Ok(Some(SoughtClass { query, end })),
            None => Ok(None),
        }
    }
}

/// The verdict of the class below a name, where it is sought, or `None`.
fn sought_below(sought: Sought, below: Option<PairEnd>) -> Option<PairEnd>
    ensures { MatchOption result (option_map_or (is_sought sought) below false ≡ false) (λ end. (below ≡ Some end) × (is_sought sought end ≡ true)) }
{
    match below {
        Some(end) => {
            if is_sought(sought, end) {
                Some(end)
            } else {
                None
            }
        }
        None => None,
    }
}

/// Whether this is what is sought.
fn is_sought(sought: Sought, end: PairEnd) -> bool
    ensures { result ≡ is_sought sought end }
{
    match (sought, end) {
        (Sought::Passed, PairEnd::StatesPassed) | (Sought::Apart, PairEnd::Apart(_)) => true,
        _ => false,
    }
}
