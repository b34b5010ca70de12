//! Files with a name in each line.

ghost use Rattle.std.specs.Prelude.{◌≡◌, ◌==◌, ◌+◌, ◌<◌, ◌^◌, length, map, IfOk};
ghost use Rattle.std.specs.Char.{is_ascii_graphic};
ghost use Rattle.std.specs.List.{list_all, slice_split};
ghost use Rattle.dns_data.specs.Answers.{AnswersOr};
ghost use Rattle.groot_run.specs.NameList.{name_in_line, names_from, names_of};
ghost use Rattle.groot_run.specs.declared.name_list.ListFault.TheVariants as list_faults;

use dns_data::{List, Name, NameFault, WantOfMemory};
use std::alloc::{AllocError, Global};

/// Why octets are no names.
#[derive(Clone, Copy, Debug)]
pub(crate) enum ListFault {
    /// The line with this number, counted from 1, is no name.
    NotName { line: u32 },
    /// Memory ran out.
    NoMemory,
}

impl<E: WantOfMemory + Drop> From<E> for ListFault {
    ghost from_gives = { λ _ fault. fault ≡ list_faults.NoMemory };

    fn from(_fault: E) -> ListFault {
        ListFault::NoMemory
    }
}

/// The names of a file with one in each line, in order. An empty line has none. It is `NotName` with the first line of
/// which not all octets are printed ones, or that spells no name under the root (RFC 1035 section 5.1).
pub(crate) fn names_of(alloc: Global, octets: &[u8]) -> Result<List<Name>, ListFault>
    requires { length octets.now + 1 < 2 ^ 32 }
    ensures { AnswersOr ListFault.NoMemory result (names_of octets.now) }
{
    let lines = lines_of(alloc, octets)?;
    names_from(alloc, lines.as_slice())
}

/// The lines, of which the last one stands behind the last line feed.
fn lines_of<'a>(alloc: Global, octets: &'a [u8]) -> Result<Vec<&'a [u8]>, AllocError>
    ensures { IfOk result (λ lines. map (λ line. line.now) lines.items ≡ slice_split (λ octet. octet == 10) octets.now) }
{
    octets.split(|octet| *octet == b'\n').collect(alloc)
}

/// The names of lines, of which the first has the number 1.
fn names_from(alloc: Global, lines: &[&[u8]]) -> Result<List<Name>, ListFault>
    requires { length lines.now < 2 ^ 32 }
    ensures { AnswersOr ListFault.NoMemory result (names_from 1 (map (λ line. line.now) lines.now)) }
{
    let mut names = List::new(alloc);
    for (i, line) in lines.iter().enumerate() {
        if !line.is_empty() {
            names.push(name_in_line(alloc, i as u32 + 1, line)?)?;
        }
    }
    Ok(names)
}

/// The name that a line spells under the root.
fn name_in_line(alloc: Global, number: u32, line: &[u8]) -> Result<Name, ListFault>
    ensures { AnswersOr ListFault.NoMemory result (name_in_line number line.now) }
{
    if !are_printed(line) {
        return Err(ListFault::NotName { line: number });
    }
    match Name::from_text(alloc, line, &Name::root()) {
        Ok(name) => Ok(name),
        Err(NameFault::NoMemory) => Err(ListFault::NoMemory),
        Err(_) => Err(ListFault::NotName { line: number }),
    }
}

/// Whether all octets are printed as they stand.
fn are_printed(octets: &[u8]) -> bool
    ensures { result ≡ list_all is_ascii_graphic octets.now }
{
    octets.iter().all(|octet| octet.is_ascii_graphic())
}
