//! Names of files, as lines for people show them.

ghost use Rattle.std.specs.Prelude.{◌≡◌, ◌++◌, IfOk, OnOk};
ghost use Rattle.dns_data.specs.Octet.{decimal_escape};
ghost use Rattle.config_load.specs.FileName.{is_control, shown_file, shown_octet};

use dns_data::{NoMemory, Octets};
use std::alloc::Global;

/// The control character behind all printed ones (RFC 20 section 5.2).
const DELETE: u8 = 127;

/// The name of a file, as a line for people shows it: each control character stands behind a backslash, a tab as `t`, a
/// line feed as `n`, and any other as its number in three decimal digits. All else stands as it is, a backslash too.
pub fn shown_file(alloc: Global, file: &str) -> Result<Octets, NoMemory>
    ensures { IfOk result (λ shown. shown ≡ shown_file file.now) }
{
    let mut text = Octets::new();
    for octet in file.as_bytes() {
        put_shown_octet(alloc, &mut text, *octet)?;
    }
    Ok(text)
}

/// Puts an octet of a file's name at the end, as `shown_file` shows it.
pub fn put_shown_octet(alloc: Global, text: &mut Octets, octet: u8) -> Result<(), NoMemory>
    ensures { OnOk result (text.new ≡ text.old ++ shown_octet octet) }
{
    match octet {
        b'\t' => text.extend_from_slice(alloc, b"\\t"),
        b'\n' => text.extend_from_slice(alloc, b"\\n"),
        _ => {
            if is_control(octet) {
                put_decimal_escape(alloc, text, octet)
            } else {
                text.push(alloc, octet)
            }
        }
    }
}

/// Whether the octet is a control character.
fn is_control(octet: u8) -> bool
    ensures { result ≡ is_control octet }
{
    octet < b' ' || octet == DELETE
}

/// Puts a backslash and the octet's number in three decimal digits at the end (RFC 1035 section 5.1).
pub fn put_decimal_escape(alloc: Global, text: &mut Octets, octet: u8) -> Result<(), NoMemory>
    ensures { OnOk result (text.new ≡ text.old ++ decimal_escape octet) }
{
    let digits = [
        b'\\',
        b'0' + octet / 100,
        b'0' + octet / 10 % 10,
        b'0' + octet % 10,
    ];
    text.extend_from_slice(alloc, &digits)
}
