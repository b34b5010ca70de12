//! What the representatives of the joint class tree tell of all queries, and what the children and the verdicts of its
//! names are.

ghost use Rattle.std.specs.Prelude.{◌≡◌, ◌↔◌, ℕ, List, []};
ghost use Rattle.dns_data.specs.Name.{Labels};
ghost use Rattle.net_model.specs.Tree.{HasMoreThan};
ghost use Rattle.query_classes.specs.Children.{AreChildren, IsInTree};
ghost use Rattle.query_verdicts.specs.declared.verdict.NameVerdict.{NameVerdict};
ghost use Rattle.same_answers.specs.Alike.{AllAlike, ClassesAlike};
ghost use Rattle.same_answers.specs.Compared.{Compared, joint};
ghost use Rattle.same_answers.specs.Passed.{IsFirstPassedInOne};
ghost use Rattle.same_answers.specs.Sameness.{IsSameness};
ghost use Rattle.same_answers.specs.Values.{ArePairValues};
ghost use Rattle.same_answers.specs.declared.sameness.Sameness.{Sameness};
ghost use Rattle.same_answers.specs.declared.verdict.PairEnd.{PairEnd};
ghost use Rattle.verdict_book.specs.Items.{ReachesMore};

/// Each query of at most 255 octets that both configurations bound has the same outcomes in both, with each type,
/// exactly where so has the representative of each class that they bound.
pub fn comparing()
    ensures { (two : Compared) → AllAlike two ↔ ClassesAlike two }
{}

/// Two configurations have one answer, and one representative is the first that reaches too many pairs of state
/// and type.
pub fn one_sameness()
    ensures one { (two : Compared) (a b : Sameness) → IsSameness two a → IsSameness two b → a ≡ b }
    ensures passed { (two : Compared) (a b : Labels) → IsFirstPassedInOne two a → IsFirstPassedInOne two b → a ≡ b }
{}

/// Each name of the joint class tree has children and a verdict.
pub fn values_exist()
    ensures { (two : Compared) → (children_of : Labels → List Labels) × (verdict_of : Labels → NameVerdict PairEnd) × ArePairValues two children_of verdict_of }
{}

/// More items than the limit are reached from the root exactly where the joint class tree has more names.
pub fn tree_is_reached()
    ensures { (two : Compared) (children_of : Labels → List Labels) → ((name : Labels) → AreChildren (joint two) name (children_of name))
        → (limit : ℕ) → ReachesMore [] children_of limit ↔ HasMoreThan (IsInTree (joint two)) limit }
{}
