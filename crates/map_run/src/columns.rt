//! Columns of lines.

ghost use Rattle.std.specs.Prelude.{◌≡◌, ◌++◌, ◌&&◌, ◌==◌, not, true, decimal, OnOk};
ghost use Rattle.std.specs.List.{list_all};
ghost use Rattle.dns_data.specs.Spelling.{name_text};
ghost use Rattle.map_run.specs.Columns.{as_written, file_octet_text, file_text, is_held, is_plain, next_written, tab, written_octet};

use config_load::{put_decimal_escape, put_shown_octet};
use dns_data::{Name, NoMemory, Octets};
use itoa::Buffer;
use std::alloc::Global;

/// Puts a tab at the end.
pub(crate) fn put_tab(alloc: Global, text: &mut Octets) -> Result<(), NoMemory>
    ensures { OnOk result (text.new ≡ text.old ++ tab) }
{
    text.push(alloc, b'\t')
}

/// Puts a name at the end.
pub(crate) fn put_name(alloc: Global, text: &mut Octets, name: &Name) -> Result<(), NoMemory>
    ensures { OnOk result (text.new ≡ text.old ++ name_text name.now) }
{
    let name = name.to_text(alloc)?;
    text.extend_from_slice(alloc, name.as_str().as_bytes())
}

/// Puts a number at the end.
pub(crate) fn put_number(alloc: Global, text: &mut Octets, number: u64) -> Result<(), NoMemory>
    ensures { OnOk result (text.new ≡ text.old ++ decimal number) }
{
    let mut digits = Buffer::new();
    text.extend_from_slice(alloc, digits.format(number).as_bytes())
}

/// Puts the name of a file at the end.
pub(crate) fn put_file(alloc: Global, text: &mut Octets, file: &str) -> Result<(), NoMemory>
    ensures { OnOk result (text.new ≡ text.old ++ file_text file.now) }
{
    let octets = file.as_bytes();
    if stand_for_themselves(octets) {
        text.extend_from_slice(alloc, octets)
    } else {
        put_file_octets(alloc, text, octets)
    }
}

/// Whether each octet of a file's name is printable and neither a space nor a backslash, as mostly all are.
fn stand_for_themselves(octets: &[u8]) -> bool
    ensures { result ≡ list_all (λ octet. is_plain octet && not (octet == 92)) octets.now }
{
    octets
        .iter()
        .all(|octet| is_plain(*octet) && *octet != b'\\')
}

/// Puts the octets of a file's name at the end.
fn put_file_octets(alloc: Global, text: &mut Octets, octets: &[u8]) -> Result<(), NoMemory>
    ensures { OnOk result (text.new ≡ text.old ++ file_text octets.now) }
{
    for octet in octets {
        put_file_octet(alloc, text, *octet)?;
    }
    Ok(())
}

/// Puts an octet of a file's name at the end.
fn put_file_octet(alloc: Global, text: &mut Octets, octet: u8) -> Result<(), NoMemory>
    ensures { OnOk result (text.new ≡ text.old ++ file_octet_text octet) }
{
    match octet {
        b'\\' => text.extend_from_slice(alloc, b"\\\\"),
        _ => put_shown_octet(alloc, text, octet),
    }
}

/// Puts a token at the end, as it was written.
pub(crate) fn put_written(alloc: Global, text: &mut Octets, token: &[u8]) -> Result<(), NoMemory>
    ensures { OnOk result (text.new ≡ text.old ++ as_written token.now) }
{
    let mut escaped = false;
    for octet in token {
        put_next(alloc, text, escaped, *octet)?;
        escaped = is_held(escaped, *octet);
    }
    if escaped {
        return text.push(alloc, b'\\');
    }
    Ok(())
}

/// Whether the octet is a backslash that is written with the next octet.
fn is_held(escaped: bool, octet: u8) -> bool
    ensures { result ≡ is_held escaped octet }
{
    !escaped && octet == b'\\'
}

/// Puts what is written at an octet at the end, behind a backslash that isn't written yet or without one.
fn put_next(alloc: Global, text: &mut Octets, escaped: bool, octet: u8) -> Result<(), NoMemory>
    ensures { OnOk result (text.new ≡ text.old ++ next_written escaped octet) }
{
    if escaped {
        put_escaped(alloc, text, octet)
    } else if octet == b'\\' {
        Ok(())
    } else {
        put_written_octet(alloc, text, octet)
    }
}

/// Puts an octet at the end with the backslash before it, or its digits.
fn put_escaped(alloc: Global, text: &mut Octets, octet: u8) -> Result<(), NoMemory>
    ensures { OnOk result (text.new ≡ text.old ++ next_written true octet) }
{
    if !is_plain(octet) {
        return put_decimal_escape(alloc, text, octet);
    }
    text.push(alloc, b'\\')?;
    text.push(alloc, octet)
}

/// Whether the octet is printable and no space.
fn is_plain(octet: u8) -> bool
    ensures { result ≡ is_plain octet }
{
    (33..=126).contains(&octet)
}

/// Puts an octet of a token at the end.
fn put_written_octet(alloc: Global, text: &mut Octets, octet: u8) -> Result<(), NoMemory>
    ensures { OnOk result (text.new ≡ text.old ++ written_octet octet) }
{
    if is_plain(octet) {
        return text.push(alloc, octet);
    }
    put_decimal_escape(alloc, text, octet)
}
