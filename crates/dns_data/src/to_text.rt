//! The texts of names.

ghost use Rattle.std.specs.Prelude.{◌≡◌, ◌++◌, ◌<◌, ◌&&◌, ℕ, List, reverse, nat_le, true, Ok, IfOk, IfSome, IsTrue, OnOk};
ghost use Rattle.std.specs.List.{flat_map};
ghost use Rattle.std.specs.String.{string_bytes};
ghost use Rattle.dns_data.specs.Octet.{decimal_escape, escaped_as};
ghost use Rattle.dns_data.specs.Spelling.{name_of_text, is_special, octet_text, label_text, name_text};

use crate::labels::Labels;
use crate::memory::NoMemory;
use crate::name::Name;
use std::alloc::Global;
use std::str;

impl Name {
    /// The name as text, which reads back as the name under any origin (RFC 1035 section 5.1).
    pub fn to_text(&self, alloc: Global) -> Result<String, NoMemory>
        ensures text { IfOk result (λ text. string_bytes text ≡ name_text self.now) }
        ensures reads_back { IfOk result (λ text. (origin : List (List ℕ)) → name_of_text (string_bytes text) origin ≡ Ok self.now) }
    {
        // A label's text mostly has as many octets as the label, and a dot in the place of its length.
        let room = self.encoding().len() + 1;
        text_of(alloc, room, &self.labels())
    }
}

/// The text of the name with these labels, in a string that has room for so many octets.
fn text_of(alloc: Global, room: usize, labels: &Labels<'_>) -> Result<String, NoMemory>
    ensures { IfOk result (λ text. string_bytes text ≡ name_text labels.now) }
{
    let mut text = String::with_capacity(alloc, room)?;
    if labels.is_empty() {
        text.push('.')?;
    }
    push_labels(&mut text, labels)?;
    Ok(text)
}

/// Puts the texts of the labels at the end, the leaf first.
#[tactic(auto, using(crate::proofs::Spellings::texts_leaf_first))]
fn push_labels(text: &mut String, labels: &Labels<'_>) -> Result<(), NoMemory>
    ensures { OnOk result (string_bytes text.new ≡ string_bytes text.old ++ flat_map label_text (reverse labels.now)) }
{
    if let Some((label, below)) = labels.split_first() {
        push_labels(text, &below)?;
        push_label(text, label)?;
    }
    Ok(())
}

/// Puts a label's text and the dot that ends it at the end.
fn push_label(text: &mut String, label: &[u8]) -> Result<(), NoMemory>
    ensures { OnOk result (string_bytes text.new ≡ string_bytes text.old ++ label_text label.now) }
{
    match plain_text(label) {
        Some(plain) => text.push_str(plain)?,
        None => push_octets(text, label)?,
    }
    text.push('.')?;
    Ok(())
}

/// The label's text where each of its octets stands for itself, as letters, digits and hyphens do.
fn plain_text(label: &[u8]) -> Option<&str>
    ensures { IfSome result (λ text. text.now ≡ flat_map octet_text label.now) }
{
    if !stand_for_themselves(label) {
        return None;
    }
    str::from_utf8(label).ok()
}

/// Whether each octet of a label stands for itself in a text.
fn stand_for_themselves(label: &[u8]) -> bool
    ensures { IsTrue result → flat_map octet_text label.now ≡ label.now }
{
    for octet in label {
        if is_special(*octet) || !may_stand(*octet) {
            return false;
        }
    }
    true
}

/// Puts the texts of a label's octets at the end.
fn push_octets(text: &mut String, label: &[u8]) -> Result<(), NoMemory>
    ensures { OnOk result (string_bytes text.new ≡ string_bytes text.old ++ flat_map octet_text label.now) }
{
    for octet in label {
        push_label_octet(text, *octet)?;
    }
    Ok(())
}

/// Puts the text of a label's octet at the end.
fn push_label_octet(text: &mut String, octet: u8) -> Result<(), NoMemory>
    ensures { OnOk result (string_bytes text.new ≡ string_bytes text.old ++ octet_text octet) }
{
    push_octet(text, octet, is_special(octet), may_stand(octet))
}

/// Whether the octet may stand in a name's text, perhaps behind a backslash.
fn may_stand(octet: u8) -> bool
    ensures stands { result ≡ (nat_le 33 octet && nat_le octet 126) }
    ensures ascii { result ≡ true → octet < 128 }
{
    (33..=126).contains(&octet)
}

/// Whether the octet stands behind a backslash in a name's text.
fn is_special(octet: u8) -> bool
    ensures special { result ≡ is_special octet }
    ensures ascii { result ≡ true → octet < 128 }
{
    matches!(
        octet,
        b'.' | b'\\' | b'"' | b'(' | b')' | b';' | b'@' | b'$'
    )
}

/// Puts an octet at the end: behind a backslash where it has a meaning of its own in the text, as it is where it may
/// stand, or else in three digits.
pub(crate) fn push_octet(
    text: &mut String,
    octet: u8,
    has_meaning: bool,
    may_stand: bool,
) -> Result<(), NoMemory>
    requires meaning { has_meaning ≡ true → octet < 128 }
    requires stands { may_stand ≡ true → octet < 128 }
    ensures { OnOk result (string_bytes text.new ≡ string_bytes text.old ++ escaped_as has_meaning may_stand octet) }
{
    if has_meaning {
        text.push('\\')?;
        text.push(char::from(octet))?;
    } else if may_stand {
        text.push(char::from(octet))?;
    } else {
        push_decimal_escape(text, octet)?;
    }
    Ok(())
}

/// Puts a backslash and the octet's number in three digits at the end.
fn push_decimal_escape(text: &mut String, octet: u8) -> Result<(), NoMemory>
    ensures { OnOk result (string_bytes text.new ≡ string_bytes text.old ++ decimal_escape octet) }
{
    text.push('\\')?;
    text.push(char::from(b'0' + octet / 100))?;
    text.push(char::from(b'0' + octet / 10 % 10))?;
    text.push(char::from(b'0' + octet % 10))?;
    Ok(())
}
