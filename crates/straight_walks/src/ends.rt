//! What the walks of a query end in that go straight.

ghost use Rattle.std.specs.Prelude.{◌≡◌, ◌∷◌, [], false, true, None, IfOk, IfSome, is_some, option_and_then};
ghost use Rattle.straight_walks.specs.Answers.{answering_by, outcome_with};
ghost use Rattle.straight_walks.specs.Ends.{answer_with, ends_alike, fails_with, outcomes_alike};
ghost use Rattle.straight_walks.specs.Nowhere.{untold};
ghost use Rattle.straight_walks.specs.Searching.{AnswerIsPut, failing};

use crate::answers::ZoneAnswer;
use crate::faulty::Faulty;
use crate::lent_place::{AliasFault, LentPlace};
use dns_data::{List, NoMemory, RrType};
use zone_tree::Tree;

/// What walks end in that go straight. Each server that answers answers this; there is none if no walk ends in an answer.
/// It fails if some walk ends where no server answers. The referrals that show faults are those by which the query shows
/// some, and the blackholes those DNAME records that lead to a name that doesn't exist; with each type but CNAME it shows
/// the faults of aliases too, and with none another fault. No walk is rewritten more often than so. With `below` these are
/// the ends too of each name below the query that has no origin of a zone between. With `unnamed_below` it is known what
/// walks end in of the query with any unnamed tail: a name below it, of which the configuration names no front longer than
/// the query.
#[derive(Drop)]
pub struct StraightEnds<'h, 'a> {
    pub answer: Option<ZoneAnswer<'h, 'a>>,
    pub fails: bool,
    pub faulty: Vec<Faulty<'a>>,
    pub blackholes: List<LentPlace<'h, 'a>>,
    pub alias_faults: List<AliasFault<'h, 'a>>,
    pub rewrites: u32,
    pub below: bool,
    pub unnamed_below: bool,
}

impl<'h, 'a> StraightEnds<'h, 'a> {
    /// Whether walks with the type have the same outcomes: in both some end in an answer, which is the same, or none
    /// does; and in both some end where no server answers, or none does.
    pub fn are_alike(&self, other: &StraightEnds<'_, '_>, rtype: RrType) -> bool
        ensures { result ≡ ends_alike self.now other.now rtype }
    {
        self.fails_with(rtype) == other.fails_with(rtype) && self.answers_as(other, rtype)
    }

    /// Puts what one more server answers behind so many rewrites to the others: whether it answers as each one before.
    /// Where none answered before, this is the answer from then on. It is one to the query, and tells of the names below it
    /// at most that the server has none with an unnamed tail.
    pub(crate) fn put(
        &mut self,
        answer: ZoneAnswer<'h, 'a>,
        rewrites: u32,
        none_below: bool,
    ) -> bool
        ensures { result ≡ true → AnswerIsPut self.old answer.entry rewrites none_below untold self.new }
    {
        self.below = false;
        self.unnamed_below = self.unnamed_below && none_below;
        self.rewrites = self.rewrites.max(rewrites);
        if let Some(before) = &self.answer {
            return before.is_same(&answer);
        }
        self.answer = Some(answer);
        true
    }

    /// Puts that at one more server the rewrite at this place leads to a name, behind so many rewrites, that its zone
    /// doesn't have: whether the server answers as each one before.
    pub(crate) fn put_blackhole(
        &mut self,
        tree: &'h Tree<'a>,
        place: LentPlace<'h, 'a>,
        rewrites: u32,
    ) -> Result<bool, NoMemory>
        ensures { IfOk result (λ put. put ≡ true → AnswerIsPut self.old (answering_by tree.now None) rewrites false (record { places = place.entry ∷ []; aliases = [] }) self.new) }
    {
        self.blackholes.push(place)?;
        Ok(self.put(ZoneAnswer::of_nothing(tree), rewrites, false))
    }

    /// Puts what one more server answers behind an alias, with the fault that walks show there with each type but CNAME:
    /// whether it answers as each one before.
    pub(crate) fn put_with_fault(
        &mut self,
        answer: ZoneAnswer<'h, 'a>,
        fault: AliasFault<'h, 'a>,
        rewrites: u32,
    ) -> Result<bool, NoMemory>
        ensures { IfOk result (λ put. put ≡ true → AnswerIsPut self.old answer.entry rewrites false (record { places = []; aliases = fault.entry ∷ [] }) self.new) }
    {
        self.alias_faults.push(fault)?;
        Ok(self.put(answer, rewrites, false))
    }

    /// Puts that some walk ends where no server answers.
    pub(crate) fn put_failing(&mut self)
        ensures { self.new ≡ failing self.old }
    {
        self.fails = true;
    }

    /// Whether some walk with the type fails.
    fn fails_with(&self, rtype: RrType) -> bool
        ensures { result ≡ fails_with self.now rtype }
    {
        self.fails || matches!(&self.answer, Some(answer) if answer.fails_with(rtype))
    }

    /// The answer with the type, or `None` where there is none.
    fn answer_with(&self, rtype: RrType) -> Option<&ZoneAnswer<'h, 'a>>
        ensures outcome { option_and_then (λ answer. outcome_with answer.now rtype) result ≡ answer_with self.now rtype }
        ensures some { IfSome result (λ answer. is_some (outcome_with answer.now rtype) ≡ true) }
    {
        match &self.answer {
            Some(answer) if !answer.fails_with(rtype) => Some(answer),
            _ => None,
        }
    }

    /// Whether there is the same answer with the type in both, or none in either.
    fn answers_as(&self, other: &StraightEnds<'_, '_>, rtype: RrType) -> bool
        ensures { result ≡ outcomes_alike (answer_with self.now rtype) (answer_with other.now rtype) }
    {
        match (self.answer_with(rtype), other.answer_with(rtype)) {
            (Some(one), Some(other)) => one.is_same_with(other, rtype),
            (None, None) => true,
            _ => false,
        }
    }
}
