//! A check that comes with the library: for servers that answer.

ghost use Rattle.std.specs.Prelude.{◌≡◌, [], ℕ, List, codes, length, take, OnOk, OnErr};
ghost use Rattle.std.specs.List.{fold, list_any};
ghost use Rattle.dns_data.specs.Rdata.{octets_eq};
ghost use Rattle.site_checks.specs.Answering.{answering, with_answer};
ghost use Rattle.site_checks.specs.Once.{with_new};
ghost use Rattle.site_checks.specs.declared.views.View.{View as Seen};

use crate::check::SiteCheck;
use crate::line::{Line, copied_lines};
use crate::views::{TypedEnd, View};
use dns_data::{List, NoMemory};
use std::alloc::Global;

/// Lists the servers that answer some query with data, each once, in the order in which they first do.
#[derive(Drop)]
pub struct Answering {
    found: Vec<Line>,
}

impl Answering {
    /// The check that has found nothing. It takes no memory.
    pub fn new(alloc: Global) -> Answering
        ensures name { ⟦<Answering as SiteCheck>⟧.name result ≡ codes "answering" }
        ensures held { ⟦<Answering as SiteCheck>⟧.held result ≡ [] }
        ensures step { (held : List (List ℕ)) (view : Seen) → ⟦<Answering as SiteCheck>⟧.step result held view ≡ answering held view }
    {
        Answering {
            found: Vec::new(alloc),
        }
    }
}

impl SiteCheck for Answering {
    ghost name = { λ check. codes "answering" };

    ghost held = { λ check. check.found.items };

    ghost step = { λ check held view. answering held view };

    fn title(&self, alloc: Global) -> Result<Line, NoMemory> {
        Line::of_text(alloc, "answering")
    }

    fn see(&mut self, alloc: Global, view: &View) -> Result<(), NoMemory> {
        let before = self.found.len();
        let put = put_answers(alloc, view.ends.items(), &mut self.found);
        if put.is_err() {
            self.found.truncate(before);
        }
        put
    }

    fn findings(&self, alloc: Global) -> Result<List<Line>, NoMemory> {
        copied_lines(alloc, self.found.as_slice())
    }
}

/// Puts the line of each answering end behind the others, unless it is there. After an error some of them are put.
fn put_answers(alloc: Global, ends: &[TypedEnd], found: &mut Vec<Line>) -> Result<(), NoMemory>
    ensures ok { OnOk result (found.new.items ≡ fold with_answer found.old.items ends.now) }
    ensures before { take (length found.old.items) found.new.items ≡ found.old.items }
{
    for end in ends {
        put_answer(alloc, end, found)?;
    }
    Ok(())
}

/// Puts the line of an answering end behind the others, unless it is there. After an error they are as they were.
fn put_answer(alloc: Global, end: &TypedEnd, found: &mut Vec<Line>) -> Result<(), NoMemory>
    ensures ok { OnOk result (found.new.items ≡ with_answer found.old.items end.now) }
    ensures err { OnErr result (found.new.items ≡ found.old.items) }
{
    if !end.is_answer() {
        return Ok(());
    }
    let line = Line::with_name(alloc, "answers ", &end.server)?;
    put_line(line, found)
}

/// Puts a line behind the others, unless it is there. After an error they are as they were.
fn put_line(line: Line, found: &mut Vec<Line>) -> Result<(), NoMemory>
    ensures ok { OnOk result (found.new.items ≡ with_new octets_eq found.old.items line) }
    ensures err { OnErr result (found.new.items ≡ found.old.items) }
{
    if has_line(found.as_slice(), &line) {
        return Ok(());
    }
    found.push(line)?;
    Ok(())
}

/// Whether the line is there.
fn has_line(lines: &[Line], line: &Line) -> bool
    ensures { result ≡ list_any (octets_eq line.now) lines.now }
{
    lines.iter().any(|other| *line == *other)
}
