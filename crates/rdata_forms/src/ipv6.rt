//! IPv6 addresses.

ghost use Rattle.std.specs.Prelude.{◌≡◌, ◌+◌, ◌<◌, ◌++◌, Some, None, option_map, IsTrue, IfSome, IfNone, OnSome, SomeIff, MatchOption, length};
ghost use Rattle.rdata_forms.specs.Addresses.{is_hex, hex_digit, hex_after, is_group, group_of, last_of, octets_of, side_of, sides_of, if_whole, with_zero_groups, ipv6_of};

use crate::ipv4::read_ipv4;
use crate::piece::first_piece;
use arrayvec::ArrayVec;

/// The octets of an address, or of a part of it.
type AddressPart = ArrayVec<u8, 16>;

/// The octets for which a `::` may stand.
const ZEROS: [u8; 16] = [0; 16];

/// The IPv6 address that the text stands for, or `None` where it stands for none: eight groups of one to four
/// hexadecimal digits with colons between. One `::` stands for one or more groups of zero, and an IPv4 address may
/// stand for the last two groups (RFC 4291 section 2.2).
pub(crate) fn read_ipv6(text: &[u8]) -> Option<[u8; 16]>
    ensures { result ≡ ipv6_of text.now }
{
    match sides(text) {
        Some((front, back)) => {
            let front = read_side(front, false)?;
            let back = read_side(back, true)?;
            with_zeros(front, &back)
        }
        None => whole(read_pieces(text, true)?),
    }
}

/// What stands before the first `::` and behind it, or `None` where there is none.
fn sides(text: &[u8]) -> Option<(&[u8], &[u8])>
    ensures { MatchOption result (sides_of text.now ≡ None)
        (λ sides. sides_of text.now ≡ Some (record { front = sides.0.now; back = sides.1.now })) }
{
    for at in 1..text.len() {
        if text[at - 1] == b':' && text[at] == b':' {
            return Some((&text[..at - 1], &text[at + 1..]));
        }
    }
    None
}

/// The address with zeros between its two parts, or `None` where they leave no room for a group of them.
fn with_zeros(mut front: AddressPart, back: &AddressPart) -> Option<[u8; 16]>
    ensures { result ≡ with_zero_groups front.items back.now.items }
{
    let written = front.len() + back.len();
    if written > 14 {
        return None;
    }
    push_all(&mut front, &ZEROS[written..])?;
    push_all(&mut front, back.as_slice())?;
    whole(front)
}

/// The address of these octets, or `None` where they aren't sixteen.
fn whole(octets: AddressPart) -> Option<[u8; 16]>
    ensures { result ≡ if_whole octets.items }
{
    octets.into_inner().ok()
}

/// Puts octets at the end, or answers `None` where there is no room for all of them.
fn push_all(octets: &mut AddressPart, more: &[u8]) -> Option<()>
    ensures some { OnSome result (octets.new.items ≡ octets.old.items ++ more.now) }
    ensures none { IfNone result (16 < length octets.old.items + length more.now) }
{
    octets.try_extend_from_slice(more).ok()
}

/// The octets of a side of a `::`, where there may be no piece. `None` stands for too many octets too.
fn read_side(text: &[u8], ends: bool) -> Option<AddressPart>
    ensures some { IfSome result (λ octets. side_of ends text.now ≡ Some octets.items) }
    ensures none { IfNone result (IfSome (side_of ends text.now) (λ octets. 16 < length octets)) }
{
    if text.is_empty() {
        return Some(ArrayVec::new());
    }
    read_pieces(text, ends)
}

/// The octets of pieces with colons between them, of which the last may be an IPv4 address where they end the
/// text. `None` stands for too many octets too.
fn read_pieces(text: &[u8], ends: bool) -> Option<AddressPart>
    ensures some { IfSome result (λ octets. octets_of ends text.now ≡ Some octets.items) }
    ensures none { IfNone result (IfSome (octets_of ends text.now) (λ octets. 16 < length octets)) }
{
    let mut octets = ArrayVec::new();
    let mut rest = text;
    loop {
        let (piece, after) = first_piece(rest, b':');
        let Some(after) = after else {
            push_last(&mut octets, piece, ends)?;
            return Some(octets);
        };
        push_group(&mut octets, piece)?;
        rest = after;
    }
}

/// Puts the two octets of a group at the end, or answers `None` where the text is no group or there is no room.
fn push_group(octets: &mut AddressPart, text: &[u8]) -> Option<()>
    ensures some { OnSome result (option_map (λ more. octets.old.items ++ more) (group_of text.now) ≡ Some octets.new.items) }
    ensures none { IfNone result (IfSome (group_of text.now) (λ more. 16 < length octets.old.items + length more)) }
{
    let group = read_group(text)?;
    push_all(octets, &[(group / 256) as u8, (group % 256) as u8])
}

/// Puts the octets of the last piece at the end: those of a group, or of an IPv4 address where the piece ends the
/// text. `None` stands for another text and for want of room.
fn push_last(octets: &mut AddressPart, text: &[u8], ends: bool) -> Option<()>
    ensures some { OnSome result (option_map (λ more. octets.old.items ++ more) (last_of ends text.now) ≡ Some octets.new.items) }
    ensures none { IfNone result (IfSome (last_of ends text.now) (λ more. 16 < length octets.old.items + length more)) }
{
    if !ends || read_group(text).is_some() {
        return push_group(octets, text);
    }
    push_all(octets, &read_ipv4(text)?)
}

/// The value of one to four hexadecimal digits, or `None` where the text is none.
fn read_group(text: &[u8]) -> Option<u16>
    ensures { SomeIff result (IsTrue (is_group text.now)) (hex_after 0 text.now) }
{
    if text.is_empty() || text.len() > 4 {
        return None;
    }
    let mut value: u32 = 0;
    for octet in text {
        value = value * 16 + u32::from(hex_value(*octet)?);
    }
    Some(value as u16)
}

/// The value of a hexadecimal digit in either case, or `None` where the octet is none.
pub(crate) fn hex_value(octet: u8) -> Option<u8>
    ensures { SomeIff result (IsTrue (is_hex octet)) (hex_digit octet) }
{
    match octet {
        b'0'..=b'9' => Some(octet - b'0'),
        b'a'..=b'f' => Some(octet - b'a' + 10),
        b'A'..=b'F' => Some(octet - b'A' + 10),
        _ => None,
    }
}
