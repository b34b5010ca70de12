//! What the representatives of a scope's classes tell of all queries at or below a name, which refusal its report has,
//! and what the children and the verdicts of its names are.

ghost use Rattle.std.specs.Prelude.{◌≡◌, ◌↔◌, ℕ, List};
ghost use Rattle.job_scope.specs.Scoped.{scoped, widened};
ghost use Rattle.query_verdicts.specs.Carried.{SomeClassShows};
ghost use Rattle.query_verdicts.specs.Passed.{IsRefusedFor, NonePasses};
ghost use Rattle.query_verdicts.specs.Values.{AreValues};
ghost use Rattle.query_verdicts.specs.declared.verdict.ClassVerdict.{ClassVerdict};
ghost use Rattle.query_verdicts.specs.declared.verdict.NameVerdict.{NameVerdict};
ghost use Rattle.dns_data.specs.Name.{Labels, IsName};
ghost use Rattle.graph_form.specs.Report.{IsShown};
ghost use Rattle.net_model.specs.Tree.{HasMoreThan, IsInPart};
ghost use Rattle.net_model.specs.declared.config.Config.{Config};
ghost use Rattle.net_model.specs.declared.fault.Fault.{Fault};
ghost use Rattle.query_classes.specs.Children.{AreChildren};
ghost use Rattle.verdict_book.specs.Items.{ReachesMore};

use class_judge::laws as judge_laws;
use query_verdicts::laws;

/// Some query of at most 255 octets at or below a name shows a fault if and only if the representative of some class of the
/// name's scope does.
pub fn scope_law()
    ensures { (config : Config) (rewrites : ℕ) (name : Labels) (fault : Fault)
        → IsShown (scoped config rewrites name) fault ↔ SomeClassShows (scoped config rewrites name) fault }
{}

/// The report of a scope is refused for at most one name, and for none if no class and no server's name passes the limit.
pub fn one_refusal()
    ensures one { (config : Config) (rewrites states : ℕ) (name a b : Labels)
        → IsRefusedFor (scoped config rewrites name) states a → IsRefusedFor (scoped config rewrites name) states b → a ≡ b }
    ensures none { (config : Config) (rewrites states : ℕ) (name refused : Labels)
        → NonePasses (scoped config rewrites name) states → IsRefusedFor (scoped config rewrites name) states refused → ⊥ }
{}

/// Each name of a scope has children and a verdict.
pub fn values_exist()
    ensures { (config : Config) (rewrites states : ℕ) (name : Labels) → (children_of : Labels → List Labels) × (verdict_of : Labels → NameVerdict ClassVerdict)
        × AreValues (scoped config rewrites name) states children_of verdict_of }
{
    laws::values_exist();
}

/// More items than the limit are reached from a name if and only if its scope has more names.
pub fn scope_is_reached()
    ensures { (config : Config) (name : Labels) (children_of : Labels → List Labels) → IsName name
        → ((above : Labels) → AreChildren (widened config name) above (children_of above))
        → (limit : ℕ) → ReachesMore name children_of limit ↔ HasMoreThan (IsInPart (widened config name) name) limit }
{
    judge_laws::part_is_reached();
}
