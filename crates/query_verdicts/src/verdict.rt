//! The verdicts of a class and of a name of the class tree, and how a name's verdict is filed.

ghost use Rattle.std.specs.Prelude.{◌≡◌, [], IsTrue, IfOk, IfSome, MatchOption, is_some, false};
ghost use Rattle.std.specs.Arc.{arc_value};
ghost use Rattle.std.specs.Option.{option_map_or};
ghost use Rattle.query_verdicts.specs.FiledVerdict.{TellsNothing, verdict_of_form};
ghost use Rattle.query_verdicts.specs.Rows.{passes};
ghost use Rattle.query_verdicts.specs.declared.verdict.ClassVerdict.TheVariants.{Faults};

use crate::equal::is_same;
use dns_data::{List, NoMemory};
use graph_form::Seen;
use std::alloc::Global;
use std::marker::Model;
use std::sync::Arc;

/// The verdict of a class: the faults that its representative shows, in fault order, each with its first type; or that the
/// representative reaches more pairs of state and type than are looked at.
#[derive(Debug, Drop)]
pub enum ClassVerdict {
    Faults(List<Seen>),
    StatesPassed,
}

/// The verdict of a name of a class tree: of the class of the name alone, and of the class below it, `None` where that is
/// empty.
#[derive(Debug, Drop)]
pub struct NameVerdict<C> {
    pub exact: C,
    pub below: Option<C>,
}

/// The verdict of a name of the class tree, as it is filed. Where it says nothing, as nearly all do, it takes no
/// memory of its own, and others may stand in one place of memory. Contracts see the verdict.
#[derive(Debug, Drop)]
pub struct FiledVerdict {
    form: FiledForm,
}

/// How the verdict of a name is filed. It says nothing of a class whose representative shows no fault and reaches no more
/// pairs of state and type than are looked at.
#[derive(Debug, Drop)]
enum FiledForm {
    /// Nothing, and the class below the name isn't empty.
    Nothing,
    /// Nothing, and the class below the name is empty.
    NothingAlone,
    /// What the verdict says.
    Whole(Arc<NameVerdict<ClassVerdict>>),
}

impl Model for FiledVerdict {
    ghost use Rattle.query_verdicts.specs.declared.verdict.ClassVerdict.{ClassVerdict};
    ghost use Rattle.query_verdicts.specs.declared.verdict.NameVerdict.{NameVerdict};

    ghost Value = { NameVerdict ClassVerdict };

    ghost use Rattle.query_verdicts.specs.FiledVerdict.{verdict_filed};

    ghost view = { verdict_filed };
}

impl FiledVerdict {
    /// The verdict, to be filed.
    pub(crate) fn of(
        alloc: Global,
        verdict: NameVerdict<ClassVerdict>,
    ) -> Result<FiledVerdict, NoMemory>
        ensures { IfOk result (λ filed. filed ≡ verdict) }
    {
        match short_form(&verdict) {
            Some(form) => Ok(FiledVerdict { form }),
            None => Ok(FiledVerdict {
                form: FiledForm::Whole(Arc::new(alloc, verdict)?),
            }),
        }
    }

    /// The verdict, or `None` where it says nothing.
    pub(crate) fn whole(&self) -> Option<&NameVerdict<ClassVerdict>>
        ensures { MatchOption result (TellsNothing self.now) (λ verdict. verdict.now ≡ self.now) }
    {
        match &self.form {
            FiledForm::Whole(verdict) => Some(verdict),
            FiledForm::Nothing | FiledForm::NothingAlone => None,
        }
    }

    /// Whether it says something, so that equal verdicts may stand in one place of memory.
    pub fn may_be_shared(&self) -> bool {
        matches!(self.form, FiledForm::Whole(_))
    }

    /// The verdict in the place of another one, where it says something and the two are found to be the same.
    pub fn shared(&self, other: &FiledVerdict) -> Option<FiledVerdict>
        ensures { IfSome result (λ same. same ≡ self.now) }
    {
        match &other.form {
            FiledForm::Whole(verdict) if self.is_verdict(verdict) => again(verdict),
            _ => None,
        }
    }

    /// Whether it is found to be this verdict, and says something.
    fn is_verdict(&self, verdict: &NameVerdict<ClassVerdict>) -> bool
        ensures { IsTrue result → verdict.now ≡ self.now }
    {
        match self.whole() {
            Some(own) => is_same(verdict, own),
            None => false,
        }
    }

    /// Whether the representative of the class of the name alone reaches more pairs of state and type than are looked at.
    pub(crate) fn exact_passes(&self) -> bool
        ensures { result ≡ passes self.now.exact }
    {
        match &self.form {
            FiledForm::Whole(verdict) => passes(&verdict.exact),
            FiledForm::Nothing | FiledForm::NothingAlone => false,
        }
    }

    /// Whether there is a class below the name, and its representative reaches more pairs.
    pub(crate) fn below_passes(&self) -> bool
        ensures { result ≡ option_map_or passes self.now.below false }
    {
        match &self.form {
            FiledForm::Whole(verdict) => passes_below(&verdict.below),
            FiledForm::Nothing | FiledForm::NothingAlone => false,
        }
    }

    /// Whether the class below the name isn't empty.
    pub(crate) fn has_below(&self) -> bool
        ensures { result ≡ is_some self.now.below }
    {
        match &self.form {
            FiledForm::Whole(verdict) => verdict.below.is_some(),
            FiledForm::Nothing => true,
            FiledForm::NothingAlone => false,
        }
    }
}

/// A verdict that is filed already, in the same place of memory: `None` where that place has too many owners.
fn again(verdict: &Arc<NameVerdict<ClassVerdict>>) -> Option<FiledVerdict>
    ensures { IfSome result (λ filed. filed ≡ arc_value verdict.now) }
{
    match Arc::try_clone(verdict) {
        Ok(same) => Some(FiledVerdict {
            form: FiledForm::Whole(same),
        }),
        Err(_) => None,
    }
}

/// The form of a verdict that says nothing, or `None` where it says more.
fn short_form(verdict: &NameVerdict<ClassVerdict>) -> Option<FiledForm>
    ensures { IfSome result (λ form. verdict_of_form form ≡ verdict.now) }
{
    if !tells_nothing(&verdict.exact) {
        return None;
    }
    match &verdict.below {
        Some(below) if tells_nothing(below) => Some(FiledForm::Nothing),
        Some(_) => None,
        None => Some(FiledForm::NothingAlone),
    }
}

/// Whether the representative of the class shows no fault.
fn tells_nothing(verdict: &ClassVerdict) -> bool
    ensures { IsTrue result → verdict.now ≡ Faults [] }
{
    match verdict {
        ClassVerdict::Faults(shown) => shown.items().is_empty(),
        ClassVerdict::StatesPassed => false,
    }
}

/// Whether the representative of the class reaches more pairs.
fn passes(verdict: &ClassVerdict) -> bool
    ensures { result ≡ passes verdict.now }
{
    matches!(verdict, ClassVerdict::StatesPassed)
}

/// Whether there is a class below the name, and its representative reaches more pairs.
fn passes_below(below: &Option<ClassVerdict>) -> bool
    ensures { result ≡ option_map_or passes below.now false }
{
    match below {
        Some(verdict) => passes(verdict),
        None => false,
    }
}
