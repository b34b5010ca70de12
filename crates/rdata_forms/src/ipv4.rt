//! IPv4 addresses.

ghost use Rattle.std.specs.Prelude.{◌≡◌};
ghost use Rattle.rdata_forms.specs.Addresses.{part_of, ipv4_of, has_leading_zero};

use crate::piece::first_piece;
use dns_data::read_number;

/// The IPv4 address that the text stands for, or `None` where it stands for none: four numbers up to 255 without
/// leading zeros, with dots between (RFC 1035 section 3.4.1).
pub(crate) fn read_ipv4(text: &[u8]) -> Option<[u8; 4]>
    ensures { result ≡ ipv4_of text.now }
{
    let (a, rest) = first_piece(text, b'.');
    let (b, rest) = first_piece(rest?, b'.');
    let (c, rest) = first_piece(rest?, b'.');
    let (d, rest) = first_piece(rest?, b'.');
    if rest.is_some() {
        return None;
    }
    Some([read_part(a)?, read_part(b)?, read_part(c)?, read_part(d)?])
}

/// A number of an address, or `None` where the text is none.
fn read_part(text: &[u8]) -> Option<u8>
    ensures { result ≡ part_of text.now }
{
    if leads_with_zero(text) {
        return None;
    }
    let number = read_number(text, 3, 255)?;
    Some(number as u8)
}

/// Whether the text begins with a zero that others follow.
fn leads_with_zero(text: &[u8]) -> bool
    ensures { result ≡ has_leading_zero text.now }
{
    text.len() > 1 && text[0] == b'0'
}
