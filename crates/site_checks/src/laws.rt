//! Laws over the definitions.

ghost use Rattle.std.specs.Prelude.{◌≡◌, List};
ghost use Rattle.graph_form.specs.Report.{Subject};
ghost use Rattle.site_checks.specs.Views.{AreViews, IsView};
ghost use Rattle.site_checks.specs.declared.views.View.{View};

/// A subject has one view of each class, and one list of views.
pub fn views_are_one()
    ensures view { (subject : Subject) (a b : View) → IsView subject a → IsView subject b → a.class ≡ b.class → a ≡ b }
    ensures views { (subject : Subject) (a b : List View) → AreViews subject a → AreViews subject b → a ≡ b }
{}
