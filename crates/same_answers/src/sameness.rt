//! What the verdicts of the names of the joint class tree tell of two configurations.

ghost use Rattle.std.specs.Prelude.{◌≡◌, ◌+◌, ◌≤◌, ◌<◌, ◌^◌, true, [], length, IfOk, IfErr, OnOk};
ghost use Rattle.dns_data.specs.Name.{name_cmp};
ghost use Rattle.query_verdicts.specs.TreeVerdicts.{below_count};
ghost use Rattle.same_answers.specs.Passed.{SomeClassPassesInOne};
ghost use Rattle.same_answers.specs.Rows.{ArePairRows, IsApartBy, is_sought};
ghost use Rattle.same_answers.specs.Sameness.{IsSameFault, IsSameness};
ghost use Rattle.same_answers.specs.declared.sameness.Sameness.TheVariants.{Same};
ghost use Rattle.verdict_book.specs.Lists.{IsWholeTree};

use crate::naming::{JointGround, PairNaming};
use crate::pairing::Pairing;
use crate::search::{Sought, SoughtClass};
use crate::verdict::PairEnd;
use dns_data::{List, Name, RrType};
use query_classes::TreeName;
use query_verdicts::{JudgeFault, NameVerdict};
use verdict_book::{Filed, Work};

/// Whether two configurations give the same outcomes.
#[derive(Debug, Drop)]
pub enum Sameness {
    /// Each query of at most 255 octets that both bound has the same outcomes in both, with each type. This many
    /// classes that aren't empty, and this many names, were looked at.
    Same { classes: u32, names: u32 },
    /// Both bound this query, and its outcomes differ with the type. It is the first representative of which that is
    /// so, with the first type.
    Apart { query: Name, rtype: RrType },
}

impl<'a, N: PairNaming + Send> Pairing<'a, N> {
    /// Whether the two configurations give the same outcomes, from the verdicts of all names of their joint class tree.
    /// `Same` speaks of every query that both bound, and `Apart` names one. Where some representative reaches more pairs of
    /// state and type than are looked at, in one of the configurations, it is `StatesPassed` with the first such one.
    pub fn outcome(&self, filed: List<Filed<Pairing<'a, N>>>) -> Result<Sameness, JudgeFault>
        requires whole { IsWholeTree name_cmp [] N.children_of N.verdict_of filed }
        requires few { length filed < 2 ^ 31 }
        ensures sameness { IfOk result (IsSameness N.compared) }
        ensures none_passes { OnOk result (SomeClassPassesInOne N.compared → ⊥) }
        ensures fault { IfErr result (IsSameFault N.compared) }
    {
        // The memory is asked, so that what the work is made of is known here.
        let _ = self.alloc();
        self.by_names(filed)
    }

    /// Whether they do, by the names of the tree with their verdicts.
    fn by_names<W: Work<Item = TreeName<JointGround<N>>, Verdict = NameVerdict<PairEnd>>>(
        &self,
        filed: List<Filed<W>>,
    ) -> Result<Sameness, JudgeFault>
        requires rows { ArePairRows N.compared filed }
        requires few { length filed < 2 ^ 31 }
        ensures sameness { IfOk result (IsSameness N.compared) }
        ensures none_passes { OnOk result (SomeClassPassesInOne N.compared → ⊥) }
        ensures fault { IfErr result (IsSameFault N.compared) }
    {
        self.by_rows(filed.items())
    }

    /// Whether they do, by the rows of the tree.
    fn by_rows<W: Work<Item = TreeName<JointGround<N>>, Verdict = NameVerdict<PairEnd>>>(
        &self,
        rows: &[Filed<W>],
    ) -> Result<Sameness, JudgeFault>
        requires rows { ArePairRows N.compared rows.now }
        requires few { length rows.now < 2 ^ 31 }
        ensures sameness { IfOk result (IsSameness N.compared) }
        ensures none_passes { OnOk result (SomeClassPassesInOne N.compared → ⊥) }
        ensures fault { IfErr result (IsSameFault N.compared) }
    {
        if let Some(SoughtClass { query, .. }) = self.first_sought(rows, Sought::Passed)? {
            return Err(JudgeFault::StatesPassed(query));
        }
        self.servers_are_learnt();
        match self.first_sought(rows, Sought::Apart)? {
            Some(found) => Ok(apart_by(found)),
            None => Ok(counted(rows)),
        }
    }
}

/// The query and the type of a class whose outcomes differ.
fn apart_by(found: SoughtClass) -> Sameness
    requires { is_sought Sought.Apart found.end ≡ true }
    ensures { IsApartBy found result }
{
    let SoughtClass { query, end } = found;
    match end {
        PairEnd::Apart(rtype) => Sameness::Apart { query, rtype },
        _ => unreachable!(),
    }
}

/// The answer that nothing differs, with the number of the classes and of the names.
fn counted<N: PairNaming, W: Work<Item = TreeName<JointGround<N>>, Verdict = NameVerdict<PairEnd>>>(
    rows: &[Filed<W>],
) -> Sameness
    requires few { length rows.now < 2 ^ 31 }
    ensures { result ≡ Same (length rows.now + below_count rows.now) (length rows.now) }
{
    let names = rows.len();
    let below = below_count(rows);
    Sameness::Same {
        classes: (names + below) as u32,
        names: names as u32,
    }
}

/// How many of the classes below the names aren't empty.
fn below_count<
    N: PairNaming,
    W: Work<Item = TreeName<JointGround<N>>, Verdict = NameVerdict<PairEnd>>,
>(rows: &[Filed<W>]) -> usize
    ensures value { result ≡ below_count rows.now }
    ensures within { result ≤ length rows.now }
{
    let mut count = 0;
    for one in rows {
        if one.verdict.below.is_some() {
            count += 1;
        }
    }
    count
}
