//! The lines that checks of an operator find.

use dns_data::{List, Name, NoMemory};
use site_checks::{Line, copied_lines};
use std::alloc::Global;
use std::test::Fail;

// A space and a tilde are the first and the last octet that a line may have, and a line feed is none of them.
#[test]
fn lines_have_printable_octets_and_copies(rt: HostRuntime) -> Result<(), Fail> {
    assert!(rt; is_no_line(rt.alloc(), b"a\nb"));
    let lines = three_lines(rt.alloc())?;
    assert!(rt; are_copied(rt.alloc(), lines.items())?);
    Ok(())
}

/// Whether the octets are no line.
fn is_no_line(alloc: Global, octets: &[u8]) -> bool {
    matches!(Line::from_octets(alloc, octets), Ok(None))
}

/// A line of octets, one of a text, and one with the name of the root.
fn three_lines(alloc: Global) -> Result<List<Line>, NoMemory> {
    let mut lines = List::new(alloc);
    if let Some(line) = Line::from_octets(alloc, b" ~")? {
        lines.push(line)?;
    }
    lines.push(Line::of_text(alloc, "a b")?)?;
    lines.push(Line::with_name(alloc, "at ", &Name::root())?)?;
    Ok(lines)
}

/// Whether copies of these three lines have copies with their texts.
fn are_copied(alloc: Global, lines: &[Line]) -> Result<bool, NoMemory> {
    let copies = copied_lines(alloc, lines)?;
    match copies.items() {
        [first, second, third] => Ok(
            has_copy(alloc, first, " ~")
                && has_copy(alloc, second, "a b")
                && has_copy(alloc, third, "at ."),
        ),
        _ => Ok(false),
    }
}

/// Whether the line has a copy with this text.
fn has_copy(alloc: Global, line: &Line, text: &str) -> bool {
    match line.copy(alloc) {
        Ok(copy) => copy.as_str() == text,
        Err(NoMemory) => false,
    }
}
