//! Entries of master files (RFC 1035 section 5.1).

use master_lex::{Entry, LexFault, LexKind, Lexer, TakeFault, Taken, read_entries};
use std::alloc::Global;
use std::test::Fail;

// An entry over two lines, one behind it, and a parenthesis that nothing opens.
#[test]
fn entries_come_from_pieces_up_to_a_fault(rt: HostRuntime) -> Result<(), Fail> {
    let pieces: [&[u8]; 3] = [b"a (", b"\n b) c\n\"d", b"\" e\n)"];
    let reading = read_entries(rt.alloc(), &pieces)?;
    assert!(rt; reading.entries.len() == 2);
    assert!(rt; is_stray_close(&reading.fault, 4));
    Ok(())
}

/// Whether the fault is such a parenthesis in this line.
fn is_stray_close(fault: &Option<LexFault>, line: u32) -> bool {
    match fault {
        Some(fault) => fault.line == line && fault.kind == LexKind::StrayClose,
        None => false,
    }
}

// The entry is gone over once: a lexer that begins it anew at each octet would pass over some 500,000,000,000.
#[test]
fn an_entry_with_a_million_spaces_comes_octet_by_octet(rt: HostRuntime) -> Result<(), Fail> {
    let mut text = Vec::new(rt.alloc());
    text.extend_from_slice(b"x.t. 60 TXT (")?;
    text.resize(1_000_013, b' ')?;
    text.extend_from_slice(b"\"a\")\n")?;
    assert!(rt; comes_at_the_end(rt.alloc(), text.as_slice())?);
    Ok(())
}

/// The most octets of a text that is fed in a test.
const MOST: usize = 2_000_000;

/// Whether the last octet of a text that comes octet by octet, and none before, completes an entry, which is in line 1 and
/// has four tokens.
fn comes_at_the_end(alloc: Global, text: &[u8]) -> Result<bool, TakeFault> {
    if text.len() > MOST {
        return Ok(false);
    }
    let mut lexer = Lexer::new(alloc);
    for place in 0..text.len() {
        lexer.feed(alloc, &[text[place]])?;
        match lexer.take(alloc)? {
            Taken::More => {}
            Taken::Entry(entry) => return Ok(place + 1 == text.len() && has_four_tokens(&entry)),
            Taken::End => return Ok(false),
        }
    }
    Ok(false)
}

/// Whether the entry is in line 1 and has four tokens.
fn has_four_tokens(entry: &Entry) -> bool {
    entry.line == 1 && entry.tokens.items().len() == 4
}
