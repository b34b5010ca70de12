//! The names of a part.

ghost use Rattle.std.specs.Prelude.{◌≡◌, None, IfOk, Some, is_some, not};
ghost use Rattle.part_names.specs.PartNames.{begun_at, ends_behind, if_put, is_own, no_names, with_line, with_name};

use crate::lines::{NameWord, word_in};
use dns_data::{List, Name, NameFault, NoMemory};
use std::alloc::Global;

/// The names of a part, as a file tells them: where its own names begin and which is the first name behind them, if there
/// are such names; the names that it holds, as they stand there, without their prefixes; and the names that lie outside of
/// the whole and that the records of the part lead to.
#[derive(Debug, Drop)]
pub struct PartNames {
    pub from: Option<Name>,
    pub to: Option<Name>,
    pub held: List<Name>,
    pub away: List<Name>,
}

impl PartNames {
    /// No name.
    pub(crate) fn new(alloc: Global) -> PartNames
        ensures { result ≡ no_names }
    {
        PartNames {
            from: None,
            to: None,
            held: List::new(alloc),
            away: List::new(alloc),
        }
    }

    /// Whether the name is one of the part's own: not before the name where they begin, and before the first one behind
    /// them.
    pub fn is_own(&self, name: &Name) -> bool
        ensures { result ≡ is_own self.now name.now }
    {
        has_begun(&self.from, name) && ends_behind(&self.to, name)
    }

    /// Puts the name that a line tells to the others, and answers whether it tells one; where it tells none, nothing is
    /// known of the names. An empty line tells no name more, and that is no fault.
    pub(crate) fn put_line(&mut self, alloc: Global, line: &[u8]) -> Result<bool, NoMemory>
        ensures { IfOk result (λ put. if_put put self.new ≡ with_line self.old line.now) }
    {
        if line.is_empty() {
            return Ok(true);
        }
        let Some((word, text)) = word_in(line) else {
            return Ok(false);
        };
        match Name::from_text(alloc, text, &Name::root()) {
            Ok(name) => self.put(word, name),
            Err(NameFault::NoMemory) => Err(NoMemory),
            Err(_) => Ok(false),
        }
    }

    /// Puts a name to the others as its word says, and answers whether it may stand there; where it may not, nothing is
    /// known of the names.
    fn put(&mut self, word: NameWord, name: Name) -> Result<bool, NoMemory>
        ensures { IfOk result (λ put. if_put put self.new ≡ with_name self.old word name) }
    {
        match word {
            NameWord::From => Ok(put_bound(&mut self.from, name)),
            NameWord::To => Ok(put_bound(&mut self.to, name)),
            NameWord::Keep => {
                self.held.push(name)?;
                Ok(true)
            }
            NameWord::Away => {
                self.away.push(name)?;
                Ok(true)
            }
        }
    }
}

/// Puts a bound where there is none, and answers whether there was none.
fn put_bound(bound: &mut Option<Name>, name: Name) -> bool
    ensures none { result ≡ not (is_some bound.old) }
    ensures put { bound.old ≡ None → bound.new ≡ Some name }
{
    if bound.is_some() {
        return false;
    }
    *bound = Some(name);
    true
}

/// Whether own names that begin here have begun at a name.
fn has_begun(from: &Option<Name>, name: &Name) -> bool
    ensures { result ≡ begun_at from.now name.now }
{
    match from {
        Some(first) => !name.compare(first).is_lt(),
        None => true,
    }
}

/// Whether own names that end here end behind a name.
fn ends_behind(to: &Option<Name>, name: &Name) -> bool
    ensures { result ≡ ends_behind to.now name.now }
{
    match to {
        Some(next) => name.compare(next).is_lt(),
        None => true,
    }
}
