//! The names under which comparisons go.

ghost use Rattle.std.specs.Prelude.{[], ⊤, List as Items, None};
ghost use Rattle.dns_data.specs.Name.{Labels};
ghost use Rattle.query_verdicts.specs.declared.verdict.NameVerdict.{NameVerdict};
ghost use Rattle.same_answers.specs.Compared.{Compared, joint};
ghost use Rattle.same_answers.specs.declared.verdict.PairEnd.{PairEnd};
ghost use Rattle.same_answers.specs.declared.verdict.PairEnd.TheVariants.{Equal};
ghost use Rattle.query_verdicts.proofs.Childless.{childless_apart};
ghost use Rattle.verdict_book.specs.Items.{ParentsApart};

use query_classes::OnGround;
use std::marker::{Brand, PhantomData};

/// The name under which two configurations are compared: the two with the limits of their queries, and the children and the
/// verdict of each name of the joint class tree. The meanings of a work belong to its type, so whoever compares two
/// configurations picks a name for the values in hand.
pub trait PairNaming {
    ghost compared: { Compared };

    ghost children_of: { Labels → Items Labels };

    ghost verdict_of: { Labels → NameVerdict PairEnd };

    ghost apart: { ParentsApart [] children_of };
}

impl PairNaming for Brand {
    ghost compared = { record { first = record { tops = []; servers = [] }; second = record { tops = []; servers = [] }; rewrites = 0; states = 0 } };

    ghost children_of = { λ name. [] };

    ghost verdict_of = { λ name. record { exact = Equal; below = None } };

    ghost apart = { childless_apart [] };
}

/// The joint ground of the two configurations of a name, on which the names of their class tree stand. Nothing is said of
/// all names at or below one of them.
#[derive(Drop)]
pub struct JointGround<N: PairNaming> {
    of: PhantomData<N>,
}

impl<N: PairNaming> OnGround for JointGround<N> {
    ghost ground = { joint N.compared };

    ghost holds = { λ _. ⊤ };
}
