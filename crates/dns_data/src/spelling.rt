//! The names that texts spell.

ghost use Rattle.std.specs.Prelude.{◌≡◌, ◌++◌, ◌+◌, ◌<◌, ◌≤◌, ℕ, List, ◌∷◌, [], length, map, drop, true, false, Ok, Err, Some, None, ◌&&◌, nat_le, IsTrue, SomeIff, MatchOption, IfOk, IfErr, IfSome, if◌then◌else◌};
ghost use Rattle.std.specs.List.{prefix_len};
ghost use Rattle.dns_data.specs.Answers.{AnswersOr};
ghost use Rattle.dns_data.specs.Encoding.{labels_of, EncodesName};
ghost use Rattle.dns_data.specs.Label.{IsLabel};
ghost use Rattle.dns_data.specs.Octet.{is_digit, folded, three_digit_value};
ghost use Rattle.dns_data.specs.Put.{IsPut, IsSpelled, PutsFirst, BeginsWith, is_plain};
ghost use Rattle.dns_data.specs.Spelling.{Sign, signs, escaped, escape_octets, spelled, after_label, placed, name_of_text};

use crate::fault::NameFault;
use crate::name::Name;
use arrayvec::ArrayVec;
use std::alloc::Global;

impl Name {
    /// The name that the text stands for, in one pass over it: `.` is the root, `@` the origin, and a text
    /// without a final dot stands below the origin. Of several faults it is the first from the left:
    /// `BadEscape` at a backslash that spells no octet, `EmptyLabel` at a dot that ends an empty label or for the
    /// empty text, `LabelTooLong` at a label's 64th octet. Where there is none, it is `NameTooLong` if the name
    /// with the origin has more than 255 octets (RFC 1035 section 5.1).
    pub fn from_text(alloc: Global, text: &[u8], origin: &Name) -> Result<Name, NameFault>
        ensures { AnswersOr NameFault.NoMemory result (name_of_text text.now origin.now) }
    {
        if text.is_empty() {
            return Err(NameFault::EmptyLabel);
        }
        if text == b".".as_slice() {
            return Ok(Name::root());
        }
        if text == b"@".as_slice() {
            return Ok(origin.copy(alloc)?);
        }
        Name::from_spelling(alloc, text, origin)
    }

    /// The name that the text's signs spell.
    fn from_spelling(alloc: Global, text: &[u8], origin: &Name) -> Result<Name, NameFault>
        ensures { AnswersOr NameFault.NoMemory result (placed origin.now (spelled [] (signs text.now))) }
    {
        if text.len() >= 30 {
            return Name::from_long_spelling(alloc, text, origin);
        }
        let mut out = [0; 30];
        match spell(&mut out, text) {
            Ok((start, absolute)) => {
                Name::placed(alloc, labels_above(origin, absolute), &out[start..])
            }
            Err(_) => Name::from_long_spelling(alloc, text, origin),
        }
    }

    /// The name that the text's signs spell, which may be as many as a name has room for.
    fn from_long_spelling(alloc: Global, text: &[u8], origin: &Name) -> Result<Name, NameFault>
        ensures { AnswersOr NameFault.NoMemory result (placed origin.now (spelled [] (signs text.now))) }
    {
        let mut out = [0; 254];
        let (start, absolute) = spell(&mut out, text)?;
        Name::placed(alloc, labels_above(origin, absolute), &out[start..])
    }
}

/// The labels above those of a text: the origin's unless a dot ends the last label.
#[tactic(auto, using(crate::proofs::Encodings::flat_root))]
fn labels_above(origin: &Name, absolute: bool) -> &[u8]
    ensures flat { EncodesName result.now }
    ensures labels { labels_of result.now ≡ (if absolute then [] else origin.now) }
{
    if absolute { &[] } else { origin.encoding() }
}

/// Puts what the text spells at the end of the octets, the last label first: from where on, and whether a dot ends
/// the last label. It is `NameTooLong` where the octets have no room.
fn spell(out: &mut [u8], text: &[u8]) -> Result<(usize, bool), NameFault>
    ensures ok { IfOk result (λ said. IsSpelled text.now out.new said.0 said.1) }
    ensures fault { length out.old ≡ 254
        → IfErr result (λ fault. (origin : List (List ℕ)) → placed origin (spelled [] (signs text.now)) ≡ Err fault) }
{
    let mut start = Some(out.len());
    let mut rest = text;
    while !rest.is_empty() {
        let (above, after) = put_first(out, start, rest)?;
        start = above;
        match after {
            Some(after) => rest = after,
            None => return finished(start, false),
        }
    }
    finished(start, true)
}

/// Puts the first label of a text that isn't empty above those that stand from there on: from where on they stand
/// then, or `None` where there is no room, and what follows the dot that ends the label, or `None` where no dot does.
fn put_first<'a>(
    out: &mut [u8],
    start: Option<usize>,
    text: &'a [u8],
) -> Result<(Option<usize>, Option<&'a [u8]>), NameFault>
    requires { 0 < length text.now }
    ensures ok { IfOk result (λ put. PutsFirst text.now out.old start out.new put.0 put.1) }
    ensures shorter { IfOk result (λ put. IfSome put.1 (λ after. length after.now < length text.now)) }
    ensures fault { IfErr result (λ fault. spelled [] (signs text.now) ≡ Err fault) }
{
    if let Some((label, after)) = plain_label(text) {
        return Ok((put_above(out, start, label), after));
    }
    let mut label = ArrayVec::new();
    let after = first_label(&mut label, text)?;
    Ok((put_above(out, start, label.as_slice()), after))
}

/// The first label of a text, where all its octets are plain, not folded, and what follows the dot that ends it, or
/// `None` where no dot does.
fn plain_label(text: &[u8]) -> Option<(&[u8], Option<&[u8]>)>
    ensures first { IfSome result (λ first. BeginsWith text.now (map folded first.0.now) first.1) }
    ensures label { IfSome result (λ first. IsLabel (map folded first.0.now)) }
    ensures shorter { IfSome result (λ first. IfSome first.1 (λ after. length after.now < length text.now)) }
{
    let count = plain_len(text);
    if count == 0 || count > 63 {
        return None;
    }
    let (label, rest) = text.split_at(count);
    match rest {
        [] => Some((label, None)),
        [first, after @ ..] if *first == b'.' => Some((label, Some(after))),
        _ => None,
    }
}

/// How many octets in front are neither dots nor backslashes.
fn plain_len(text: &[u8]) -> usize
    ensures len { result ≡ prefix_len is_plain text.now }
    ensures within { result ≤ length text.now }
{
    text.iter()
        .take_while(|octet| **octet != b'.' && **octet != b'\\')
        .count()
}

/// Where the labels start, or that they have no room.
fn finished(start: Option<usize>, absolute: bool) -> Result<(usize, bool), NameFault>
    ensures ok { IfOk result (λ said. (start ≡ Some said.0) × (said.1 ≡ absolute)) }
    ensures fault { IfErr result (λ fault. (start ≡ None) × (fault ≡ NameFault.NameTooLong)) }
{
    match start {
        Some(start) => Ok((start, absolute)),
        None => Err(NameFault::NameTooLong),
    }
}

/// Puts a label, folded, above those that stand from there on: from where on they stand then, or `None` where there
/// is no room.
fn put_above(out: &mut [u8], start: Option<usize>, label: &[u8]) -> Option<usize>
    requires { IsLabel (map folded label.now) }
    ensures { (labels : List (List ℕ)) → IsPut out.old start labels → IsPut out.new result (labels ++ map folded label.now ∷ []) }
{
    let end = start?;
    if end > out.len() || label.len() >= end {
        return None;
    }
    let start = end - label.len() - 1;
    put_label(&mut out[start..end], label);
    Some(start)
}

/// Reads the first label of a text that isn't empty; what follows the dot that ends it, or `None` where no dot
/// does.
fn first_label<'a>(
    label: &mut ArrayVec<u8, 63>,
    text: &'a [u8],
) -> Result<Option<&'a [u8]>, NameFault>
    requires { 0 < length text.now }
    ensures ok { IfOk result (λ first. MatchOption first
        (spelled [] (signs text.now) ≡ Ok (record { labels = label.new.items ∷ []; absolute = false }))
        (λ after. spelled [] (signs text.now) ≡ after_label label.new.items (spelled [] (signs after.now)))) }
    ensures label { IfOk result (λ _. IsLabel label.new.items) }
    ensures shorter { IfOk result (λ first. IfSome first (λ after. length after.now < length text.now)) }
    ensures fault { IfErr result (λ fault. spelled [] (signs text.now) ≡ Err fault) }
{
    label.clear();
    let mut rest = text;
    while let [first, after @ ..] = rest {
        let (octet, after) = match *first {
            b'.' if label.is_empty() => return Err(NameFault::EmptyLabel),
            b'.' => return Ok(Some(after)),
            b'\\' => escaped_octet(after).ok_or(NameFault::BadEscape)?,
            octet => (octet, after),
        };
        if label.len() >= 63 {
            return Err(NameFault::LabelTooLong);
        }
        label.push(octet.to_ascii_lowercase());
        rest = after;
    }
    Ok(None)
}

/// Fills the octets with a label's length and its octets, folded.
fn put_label(out: &mut [u8], label: &[u8])
    requires room { length out.old ≡ length label.now + 1 }
    requires short { length label.now < 256 }
    ensures { out.new ≡ length label.now ∷ map folded label.now }
{
    out[0] = label.len() as u8;
    let octets = &mut out[1..];
    octets.copy_from_slice(label);
    octets.make_ascii_lowercase();
}

/// The octet for which the text after a backslash stands, and what follows, or `None` where it stands for none
/// (RFC 1035 section 5.1).
pub fn escaped_octet(text: &[u8]) -> Option<(u8, &[u8])>
    ensures signs { MatchOption result
        (escaped text.now ≡ Sign.Broken ∷ [])
        (λ first. escaped text.now ≡ Sign.Octet first.0 ∷ signs first.1.now) }
    ensures rest { IfSome result (λ first. first.1.now ≡ drop (escape_octets text.now) text.now) }
    ensures shorter { IfSome result (λ first. length first.1.now < length text.now) }
{
    match text {
        [a, b, c, after @ ..] if a.is_ascii_digit() => Some((three_digits(*a, *b, *c)?, after)),
        [octet, after @ ..] if !octet.is_ascii_digit() => Some((*octet, after)),
        _ => None,
    }
}

/// The octet whose number these three digits are.
fn three_digits(a: u8, b: u8, c: u8) -> Option<u8>
    ensures { SomeIff result (IsTrue (is_digit a && is_digit b && is_digit c && nat_le (three_digit_value a b c) 255)) (three_digit_value a b c) }
{
    if !(a.is_ascii_digit() && b.is_ascii_digit() && c.is_ascii_digit()) {
        return None;
    }
    let value = u16::from(a - b'0') * 100 + u16::from(b - b'0') * 10 + u16::from(c - b'0');
    u8::try_from(value).ok()
}
