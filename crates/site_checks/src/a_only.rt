//! A check that comes with the library: for queries that have IPv4 addresses and no IPv6 address.

ghost use Rattle.std.specs.Prelude.{◌≡◌, [], ℕ, List, codes};
ghost use Rattle.site_checks.specs.AOnly.{a_only};
ghost use Rattle.site_checks.specs.declared.views.View.{View as Seen};

use crate::check::SiteCheck;
use crate::line::{Line, copied_lines};
use crate::views::View;
use dns_data::{List, NoMemory, RrType};
use std::alloc::Global;

/// Lists the queries with an answer of type A and none of type AAAA.
#[derive(Drop)]
pub struct AOnly {
    found: List<Line>,
}

impl AOnly {
    /// The check that has found nothing. It takes no memory.
    pub fn new(alloc: Global) -> AOnly
        ensures name { ⟦<AOnly as SiteCheck>⟧.name result ≡ codes "a-only" }
        ensures held { ⟦<AOnly as SiteCheck>⟧.held result ≡ [] }
        ensures step { (held : List (List ℕ)) (view : Seen) → ⟦<AOnly as SiteCheck>⟧.step result held view ≡ a_only held view }
    {
        AOnly {
            found: List::new(alloc),
        }
    }
}

impl SiteCheck for AOnly {
    ghost name = { λ check. codes "a-only" };

    ghost held = { λ check. check.found };

    ghost step = { λ check held view. a_only held view };

    fn title(&self, alloc: Global) -> Result<Line, NoMemory> {
        Line::of_text(alloc, "a-only")
    }

    fn see(&mut self, alloc: Global, view: &View) -> Result<(), NoMemory> {
        if view.is_answered(RrType::A) && !view.is_answered(RrType::Aaaa) {
            let line = Line::with_name(alloc, "a-only ", &view.query)?;
            self.found.push(line)?;
        }
        Ok(())
    }

    fn findings(&self, alloc: Global) -> Result<List<Line>, NoMemory> {
        copied_lines(alloc, self.found.items())
    }
}
