//! Lines of findings.

ghost use Rattle.std.specs.Prelude.{◌≡◌, ◌++◌, true, IfOk};
ghost use Rattle.dns_data.specs.Spelling.{name_text};
ghost use Rattle.site_checks.specs.Line.{is_line, line_of};

use dns_data::{List, Name, NoMemory, Text, same_octets};
use std::alloc::Global;
use std::marker::Model;
use std::str;

/// A line of octets from 32 to 126, the printable ones of ASCII.
#[derive(Debug, Drop)]
pub struct Line {
    text: Text,
}

impl Model for Line {
    ghost use Rattle.std.specs.Prelude.{◌≡◌, List, ℕ, true};
    ghost use Rattle.site_checks.specs.Line.{is_line};

    ghost Value = { List ℕ };

    ghost view = { λ line. line.text };

    ghost invariant = { λ line. is_line line.text ≡ true };
}

impl Line {
    /// The line with these octets, or `None` where one of them is below 32 or above 126.
    pub fn from_octets(alloc: Global, octets: &[u8]) -> Result<Option<Line>, NoMemory>
        ensures { IfOk result (λ line. line ≡ line_of octets.now) }
    {
        if !is_line(octets) {
            return Ok(None);
        }
        Ok(Some(Line::of_text(alloc, printed(octets))?))
    }

    /// The line of a text that has no other octets than 32 to 126.
    pub fn of_text(alloc: Global, text: &str) -> Result<Line, NoMemory>
        requires { is_line text.now ≡ true }
        ensures { IfOk result (λ line. line ≡ text.now) }
    {
        Ok(Line {
            text: Text::from_str(alloc, text)?,
        })
    }

    /// The line of a text of such octets and, behind it, the text of a name.
    pub fn with_name(alloc: Global, text: &str, name: &Name) -> Result<Line, NoMemory>
        requires { is_line text.now ≡ true }
        ensures { IfOk result (λ line. line ≡ text.now ++ name_text name.now) }
    {
        // The labels are read, so that it is known here that they are a name's.
        let _labels = name.labels();
        let mut line = String::from_str(alloc, text)?;
        let name = name.to_text(alloc)?;
        line.push_str(name.as_str())?;
        Ok(Line {
            text: Text::from_string(line),
        })
    }

    /// The line, as a `str`.
    pub fn as_str(&self) -> &str
        ensures same { result.now ≡ self.now }
        ensures line { is_line self.now ≡ true }
    {
        self.text.as_str()
    }

    /// An equal line.
    pub fn copy(&self, alloc: Global) -> Result<Line, NoMemory>
        ensures { IfOk result (λ line. line ≡ self.now) }
    {
        Ok(Line {
            text: self.text.copy(alloc)?,
        })
    }
}

/// Equal lines, in order.
pub fn copied_lines(alloc: Global, lines: &[Line]) -> Result<List<Line>, NoMemory>
    ensures { IfOk result (λ copy. copy ≡ lines.now) }
{
    let mut copy = List::new(alloc);
    for line in lines {
        copy.push(line.copy(alloc)?)?;
    }
    Ok(copy)
}

/// Whether each octet may stand in a line.
fn is_line(octets: &[u8]) -> bool
    ensures { result ≡ is_line octets.now }
{
    octets.iter().all(|octet| (32..=126).contains(octet))
}

/// The text of octets that may stand in a line.
fn printed(octets: &[u8]) -> &str
    requires { is_line octets.now ≡ true }
    ensures { result.now ≡ octets.now }
{
    match str::from_utf8(octets) {
        Ok(text) => text,
        Err(_) => unreachable!(),
    }
}

impl PartialEq for Line {
    ghost use Rattle.std.specs.Prelude.{nat_eq};
    ghost use lib.Pointwise.{pointwise};
    ghost use Rattle.std.specs.Cmp.Lexicographic.{nat_list_eq_equiv};
    ghost use Rattle.std.specs.Cmp.{partial_equiv_from_equiv};

    ghost eq = { pointwise nat_eq };

    ghost laws = { partial_equiv_from_equiv nat_list_eq_equiv };

    fn eq(&self, other: &Line) -> bool {
        same_octets(self.as_str().as_bytes(), other.as_str().as_bytes())
    }
}

impl Eq for Line {
    ghost use Rattle.std.specs.Cmp.Lexicographic.{nat_list_eq_equiv};

    ghost laws = { nat_list_eq_equiv };
}
