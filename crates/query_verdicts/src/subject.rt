//! The subject of a judge of names.

ghost use Rattle.std.specs.Prelude.{ℕ};
ghost use Rattle.graph_form.specs.Report.{Subject};

use query_classes::OnGround;
use std::marker::PhantomData;

/// What names the subject of a judge: the configuration, how many rewrites a query may use, which names are told apart, and
/// the name at or below which queries are looked at; and how many pairs of state and type a query may reach.
pub trait OnSubject {
    ghost subject: { Subject };

    ghost states: { ℕ };
}

/// The ground of a subject, on which the names of its class tree stand. What may hold of all names at or below one of
/// them is that they show no fault.
#[derive(Drop)]
pub struct SubjectGround<S: OnSubject> {
    of: PhantomData<S>,
}

impl<S: OnSubject> OnGround for SubjectGround<S> {
    ghost use Rattle.query_verdicts.specs.Verdict.{IsQuiet};

    ghost ground = { S.subject.ground };

    ghost holds = { IsQuiet S.subject S.states };
}
