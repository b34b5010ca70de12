//! What the faults of representatives tell of all queries, and what the children and the verdicts of names are.

ghost use Rattle.std.specs.Prelude.{◌↔◌, ◌++◌, ℕ, List, []};
ghost use Rattle.query_verdicts.specs.Carried.{SomeClassShows, whole_config};
ghost use Rattle.query_verdicts.specs.Subjects.{IsCovering};
ghost use Rattle.query_verdicts.specs.Values.{AreValues};
ghost use Rattle.query_verdicts.specs.declared.verdict.ClassVerdict.{ClassVerdict};
ghost use Rattle.query_verdicts.specs.declared.verdict.NameVerdict.{NameVerdict};
ghost use Rattle.dns_data.specs.Name.{Labels, IsName};
ghost use Rattle.graph_form.specs.Report.{IsShown, Subject};
ghost use Rattle.net_model.specs.Reading.{ground_of, IsNamed};
ghost use Rattle.net_model.specs.Tree.{HasMoreThan, IsInPart};
ghost use Rattle.net_model.specs.declared.config.Config.{Config};
ghost use Rattle.net_model.specs.declared.fault.Fault.{Fault};
ghost use Rattle.query_classes.specs.Children.{AreChildren, IsInTree};
ghost use Rattle.query_classes.specs.Members.{IsInOneClass};
ghost use Rattle.verdict_book.specs.Items.{ReachesMore};

use query_verdicts::laws;

/// Some query shows a fault exactly where the representative of some class does.
pub fn carrying()
    ensures { (config : Config) (rewrites : ℕ) (fault : Fault) → IsShown (whole_config config rewrites) fault ↔ SomeClassShows (whole_config config rewrites) fault }
{
    laws::carrying();
}

/// Each name is in one class of a configuration, for which a name of it stands that is no longer than any other; and of
/// a named name all prefixes are named.
pub fn names_have_classes()
    ensures one { (config : Config) (query : Labels) → IsName query → IsInOneClass (ground_of config) query }
    ensures prefixes { (config : Config) (above below : Labels) → IsNamed (ground_of config) (above ++ below) → IsNamed (ground_of config) above }
{}

/// Each name of a class tree has children and a verdict.
pub fn values_exist()
    ensures { (config : Config) (rewrites states : ℕ) → (children_of : Labels → List Labels) × (verdict_of : Labels → NameVerdict ClassVerdict)
        × AreValues (whole_config config rewrites) states children_of verdict_of }
{
    laws::values_exist();
}

/// More items than the limit are reached from a subject's name exactly where its class tree has more names at or below it.
pub fn part_is_reached()
    ensures { (subject : Subject) (children_of : Labels → List Labels) → IsCovering subject → ((name : Labels) → AreChildren subject.ground name (children_of name))
        → (limit : ℕ) → ReachesMore subject.below children_of limit ↔ HasMoreThan (IsInPart subject.ground subject.below) limit }
{}

/// More items than the limit are reached from the root exactly where the class tree has more names.
pub fn tree_is_reached()
    ensures { (config : Config) (children_of : Labels → List Labels) → ((name : Labels) → AreChildren (ground_of config) name (children_of name))
        → (limit : ℕ) → ReachesMore [] children_of limit ↔ HasMoreThan (IsInTree (ground_of config)) limit }
{
    part_is_reached();
}
