//! What the faults of representatives tell of all queries, and what the children and the verdicts of names are.

ghost use Rattle.std.specs.Prelude.{◌≡◌, ◌↔◌, ℕ, List};
ghost use Rattle.query_verdicts.specs.Carried.{SomeClassShows, at_all_names};
ghost use Rattle.query_verdicts.specs.Passed.{SomeClassPasses, SomeNamePasses};
ghost use Rattle.query_verdicts.specs.Subjects.{IsCovering};
ghost use Rattle.query_verdicts.specs.Values.{AreValues};
ghost use Rattle.query_verdicts.specs.Verdict.{IsClassVerdict};
ghost use Rattle.query_verdicts.specs.declared.verdict.ClassVerdict.{ClassVerdict};
ghost use Rattle.query_verdicts.specs.declared.verdict.NameVerdict.{NameVerdict};
ghost use Rattle.dns_data.specs.Name.{Labels};
ghost use Rattle.graph_form.specs.Report.{Subject, IsShown};
ghost use Rattle.net_model.specs.Reading.{Ground, Covers};
ghost use Rattle.net_model.specs.declared.config.Config.{Config};
ghost use Rattle.net_model.specs.declared.fault.Fault.{Fault};

/// Some query at or below a subject's name shows a fault exactly where the representative of some class of the
/// subject's tree does, where the subject's ground covers its configuration and its name is in the tree.
pub fn carrying()
    ensures { (subject : Subject) → IsCovering subject → (fault : Fault) → IsShown subject fault ↔ SomeClassShows subject fault }
{}

/// Where the name of some server reaches too many pairs of state and type, so does the representative of some class, under
/// every ground that covers the configuration, if classes are looked at of all names.
pub fn passing_names()
    ensures { (config : Config) (rewrites states : ℕ) (base : Ground) → Covers base config → SomeNamePasses config rewrites states
        → SomeClassPasses (at_all_names config rewrites base) states }
{}

/// Each name of a class tree has children and a verdict.
pub fn values_exist()
    ensures { (subject : Subject) → Covers subject.ground subject.config → (states : ℕ)
        → (children_of : Labels → List Labels) × (verdict_of : Labels → NameVerdict ClassVerdict) × AreValues subject states children_of verdict_of }
{}

/// A class has one verdict.
pub fn one_verdict()
    ensures { (config : Config) (rewrites states : ℕ) (query : Labels) (a b : ClassVerdict)
        → IsClassVerdict config rewrites states query a → IsClassVerdict config rewrites states query b → a ≡ b }
{}
