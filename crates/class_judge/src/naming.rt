//! The names under which judges go.

ghost use Rattle.std.specs.Prelude.{ℕ, [], List as Items};
ghost use Rattle.dns_data.specs.Name.{Labels};
ghost use Rattle.graph_form.specs.Report.{Subject};
ghost use Rattle.query_verdicts.specs.Carried.{whole_config};
ghost use Rattle.query_verdicts.specs.Values.{AreValues};
ghost use Rattle.query_verdicts.specs.declared.verdict.ClassVerdict.{ClassVerdict};
ghost use Rattle.query_verdicts.specs.declared.verdict.NameVerdict.{NameVerdict};
ghost use Rattle.query_verdicts.proofs.TreeValues as trees;
ghost use Rattle.walk_laws.proofs.JoinedGround.{own_covers};

use query_verdicts::OnSubject;
use std::marker::{Brand, PhantomData};

/// The name under which a judge goes: its subject, how many pairs of state and type a query may reach, and the children and
/// the verdict of each name, as the subject gives them. The meanings of a work belong to its type, so whoever makes a judge
/// picks a name for the values in hand.
pub trait Naming {
    ghost subject: { Subject };

    ghost states: { ℕ };

    ghost children_of: { Labels → Items Labels };

    ghost verdict_of: { Labels → NameVerdict ClassVerdict };

    ghost values: { AreValues subject states children_of verdict_of };
}

impl Naming for Brand {
    ghost subject = { whole_config (record { tops = []; servers = [] }) 0 };

    ghost states = { 0 };

    ghost children_of = { trees.names_below (whole_config (record { tops = []; servers = [] }) 0) (own_covers (record { tops = []; servers = [] })) };

    ghost verdict_of = { trees.verdict_of (whole_config (record { tops = []; servers = [] }) 0) (own_covers (record { tops = []; servers = [] })) 0 };

    ghost values = { trees.values (whole_config (record { tops = []; servers = [] }) 0) (own_covers (record { tops = []; servers = [] })) 0 };
}

/// The subject of a name.
#[derive(Drop)]
pub struct OfNaming<N: Naming> {
    of: PhantomData<N>,
}

impl<N: Naming> OnSubject for OfNaming<N> {
    ghost subject = { N.subject };

    ghost states = { N.states };
}
