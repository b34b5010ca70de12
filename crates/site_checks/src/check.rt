//! What an operator looks for.

ghost use Rattle.std.specs.Prelude.{◌≡◌, ℕ, List, IfOk, OnOk, OnErr};
ghost use Rattle.site_checks.specs.declared.views.View.{View as Seen};

use crate::line::Line;
use crate::views::View;
use dns_data::{List, NoMemory};
use std::alloc::Global;

/// A check of the operator's own. It is shown the views of classes one after the other, and has findings, each a line.
pub trait SiteCheck: Drop {
    /// The check's name.
    ghost name: { Self → List ℕ };

    /// The check's findings so far, in order.
    ghost held: { Self → List (List ℕ) };

    /// The check's findings after a view, by those before it.
    ghost step: { Self → List (List ℕ) → Seen → List (List ℕ) };

    /// The check's name.
    fn title(&self, alloc: Global) -> Result<Line, NoMemory>
        ensures { IfOk result (λ title. title ≡ name self.now) };

    /// Looks at a view. After an error its findings are those of before.
    fn see(&mut self, alloc: Global, view: &View) -> Result<(), NoMemory>
        ensures ok { OnOk result (held self.new ≡ step self.old (held self.old) view.now) }
        ensures err { OnErr result (held self.new ≡ held self.old) }
        ensures name { name self.new ≡ name self.old }
        ensures step { (findings : List (List ℕ)) (view : Seen) → step self.new findings view ≡ step self.old findings view };

    /// The check's findings so far, in order.
    fn findings(&self, alloc: Global) -> Result<List<Line>, NoMemory>
        ensures { IfOk result (λ lines. lines ≡ held self.now) };
}
