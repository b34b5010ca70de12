//! Rows that a query reaches: a check of the operator's own.

ghost use Rattle.std.specs.Prelude.{◌≡◌, ℕ, true, List, codes, map, IfOk};
ghost use Rattle.site_checks.specs.Line.{is_line};
ghost use Rattle.site_checks.specs.declared.views.View.{View as Seen};
ghost use Rattle.map_run.specs.Reached.{after_view, reached_word};
ghost use Rattle.map_run.specs.ReachedRows.{is_row_answered};

use crate::answered::{Answered, answers_of, rows_answered};
use config_load::RowFiles;
use dns_data::{List, NoMemory};
use net_model::Class;
use site_checks::{Line, SiteCheck, View};
use std::alloc::Global;

/// Tells of each row whether the SOA query at its zone's origin has a walk that ends in an answer at its server.
#[derive(Debug, Drop)]
pub struct Reached<'a> {
    rows: &'a [RowFiles],
    answered: List<Answered>,
}

impl<'a> Reached<'a> {
    /// The check of these rows, which was shown no view.
    pub fn of_rows(alloc: Global, rows: &'a [RowFiles]) -> Reached<'a>
        ensures held { ⟦<Reached<'a> as SiteCheck>⟧.held result ≡ map (λ row. codes "unreached") rows.now }
        ensures step { (words : List (List ℕ)) (view : Seen) → ⟦<Reached<'a> as SiteCheck>⟧.step result words view ≡ after_view view rows.now words }
    {
        Reached {
            rows,
            answered: List::new(alloc),
        }
    }

    /// Of each row whether a view has shown that it is reached.
    pub(crate) fn are_reached(&self, alloc: Global) -> Result<Vec<bool>, NoMemory>
        ensures { IfOk result (λ reached. map reached_word reached.items ≡ ⟦<Reached<'a> as SiteCheck>⟧.held self.now) }
    {
        rows_answered(alloc, self.rows, self.answered.items())
    }
}

impl<'a> SiteCheck for Reached<'a> {
    ghost name = { λ check. codes "reached" };

    ghost held = { λ check. map (λ row. reached_word (is_row_answered check.answered row)) check.rows.now };

    ghost step = { λ check words view. after_view view check.rows.now words };

    fn title(&self, alloc: Global) -> Result<Line, NoMemory> {
        Line::of_text(alloc, "reached")
    }

    fn see(&mut self, alloc: Global, view: &View) -> Result<(), NoMemory> {
        match &view.class {
            Class::Exact(origin) => {
                let answers = answers_of(alloc, origin, view.ends.items())?;
                self.answered.push(answers)
            }
            Class::Below(_) => Ok(()),
        }
    }

    fn findings(&self, alloc: Global) -> Result<List<Line>, NoMemory> {
        let reached = self.are_reached(alloc)?;
        words_of(alloc, reached.as_slice())
    }
}

/// The words of rows, by whether each is reached.
fn words_of(alloc: Global, reached: &[bool]) -> Result<List<Line>, NoMemory>
    ensures { IfOk result (λ words. words ≡ map reached_word reached.now) }
{
    let mut words = List::new(alloc);
    for one in reached {
        words.push(Line::of_text(alloc, reached_word(*one))?)?;
    }
    Ok(words)
}

/// The word of a row.
pub(crate) fn reached_word(reached: bool) -> &'static str
    ensures word { result.now ≡ reached_word reached }
    ensures line { is_line result.now ≡ true }
{
    match reached {
        true => "reached",
        false => "unreached",
    }
}
