//! What single octets mean.

ghost use Rattle.std.specs.Prelude.{◌≡◌, ◌<◌, true, false};
ghost use Rattle.master_lex.specs.Octets.{kind, is_space, is_blank, is_feed, ends_word, stands};
ghost use Rattle.master_lex.specs.Pieces.{is_code};

/// What an octet of a master file means outside quotes and escapes (RFC 1035 section 5.1).
#[derive(Clone, Copy, Debug, PartialEq, Eq)]
pub enum OctetKind {
    Plain,
    Blank,
    LineFeed,
    Semicolon,
    Open,
    Close,
    Quote,
    Backslash,
}

/// What the octet means outside quotes and escapes.
#[inline(always)]
#[tactic(auto, unfolding(crate::specs::Octets::kind))]
pub(crate) fn kind_of(octet: u8) -> OctetKind
    ensures { result ≡ kind octet }
{
    match octet {
        b' ' | b'\t' | b'\r' => OctetKind::Blank,
        b'\n' => OctetKind::LineFeed,
        b';' => OctetKind::Semicolon,
        b'(' => OctetKind::Open,
        b')' => OctetKind::Close,
        b'"' => OctetKind::Quote,
        b'\\' => OctetKind::Backslash,
        _ => OctetKind::Plain,
    }
}

/// Whether the octet stands for itself in a token without quotes.
#[tactic(auto, unfolding(crate::specs::Octets::kind))]
pub(crate) fn is_plain_in_word(octet: u8) -> bool
    ensures { result ≡ stands false (kind octet) }
{
    // Nearly all octets of a text are letters, digits, dots and hyphens, for which two tests do.
    if octet > b';' {
        octet != b'\\'
    } else if octet >= b'*' {
        octet != b';'
    } else {
        !matches!(octet, b' ' | b'\t' | b'\r' | b'\n' | b'(' | b')' | b'"')
    }
}

/// Whether the octet stands for itself in a token in quotes.
#[tactic(auto, unfolding(crate::specs::Octets::kind))]
pub(crate) fn is_plain_in_quotes(octet: u8) -> bool
    ensures { result ≡ stands true (kind octet) }
{
    !matches!(octet, b'"' | b'\n' | b'\\')
}

/// Whether the octet is white space outside quotes and escapes.
#[tactic(auto, unfolding(crate::specs::Octets::kind))]
pub(crate) fn is_blank_octet(octet: u8) -> bool
    ensures { result ≡ is_blank (kind octet) }
{
    matches!(octet, b' ' | b'\t' | b'\r')
}

/// Whether the octet is white space outside quotes and escapes, or a line feed.
#[tactic(auto, unfolding(crate::specs::Octets::kind))]
pub(crate) fn ends_word(octet: u8) -> bool
    ensures { result ≡ ends_word (kind octet) }
{
    matches!(octet, b' ' | b'\t' | b'\r' | b'\n')
}

/// Whether the octet is a line feed.
#[tactic(auto, unfolding(crate::specs::Octets::kind))]
pub(crate) fn is_feed_octet(octet: u8) -> bool
    ensures { result ≡ is_feed (kind octet) }
{
    octet == b'\n'
}

/// Whether the octet is a space or a tab.
pub(crate) fn is_space_octet(octet: u8) -> bool
    ensures { result ≡ is_space octet }
{
    octet == b' ' || octet == b'\t'
}

/// Whether the octets are three digits of a value up to 255.
pub(crate) fn is_code(first: u8, second: u8, third: u8) -> bool
    ensures { result ≡ is_code first second third }
{
    if !(first.is_ascii_digit() && second.is_ascii_digit() && third.is_ascii_digit()) {
        return false;
    }
    let hundreds = u16::from(first - b'0') * 100;
    let tens = u16::from(second - b'0') * 10;
    hundreds + tens + u16::from(third - b'0') <= 255
}
