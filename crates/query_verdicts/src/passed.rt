//! The first class whose representative reaches more pairs of state and type than are looked at.

ghost use Rattle.std.specs.Prelude.{IfOk, MatchOption};
ghost use Rattle.query_verdicts.specs.Passed.{SomeClassPasses, IsFirstPassed};
ghost use Rattle.query_verdicts.specs.Rows.{AreRows, IsPassedAt};
ghost use Rattle.query_verdicts.specs.Verdict.{IsNameVerdict};
ghost use Rattle.net_model.specs.Tree.{IsInPart};

use crate::name_judge::NameJudge;
use crate::subject::{OnSubject, SubjectGround};
use crate::verdict::FiledVerdict;
use dns_data::{Name, NoMemory};
use query_classes::TreeName;
use verdict_book::{Filed, Work};

/// The first representative that reaches more pairs, or `None` where none does.
pub(crate) fn first_passed<
    S: OnSubject,
    W: Work<Item = TreeName<SubjectGround<S>>, Verdict = FiledVerdict>,
>(judge: &NameJudge<'_, S>, filed: &[Filed<W>]) -> Result<Option<Name>, NoMemory>
    requires rows { AreRows S.subject S.states filed.now }
    ensures { IfOk result (λ found. MatchOption found (SomeClassPasses S.subject S.states → ⊥)
        (IsFirstPassed S.subject S.states)) }
{
    for one in filed {
        if let Some(query) = passed_at(judge, &one.item.live_name().name, &one.verdict)? {
            return Ok(Some(query));
        }
    }
    Ok(None)
}

/// The first representative of the classes of a name that reaches more pairs, or `None` where none does.
fn passed_at<S: OnSubject>(
    judge: &NameJudge<'_, S>,
    name: &Name,
    verdict: &FiledVerdict,
) -> Result<Option<Name>, NoMemory>
    requires in_part { IsInPart S.subject.ground S.subject.below name.now }
    requires verdict { IsNameVerdict S.subject S.states name.now verdict.now }
    ensures { IfOk result (IsPassedAt S.subject S.states name.now) }
{
    if verdict.exact_passes() {
        return Ok(Some(name.copy(judge.alloc())?));
    }
    if verdict.below_passes() {
        return judge.representative_below(name);
    }
    Ok(None)
}
