//! How the texts of data stand to each other.

ghost use Rattle.std.specs.Prelude.{◌≡◌, ◌≤◌, ℕ, List, [], ◌∷◌, ◌++◌, true, drop, length, IfOk, IfSome};
ghost use Rattle.std.specs.Cmp.Lexicographic.{slice_cmp};
ghost use Rattle.std.specs.Ordering.{nat_cmp};
ghost use Rattle.dns_data.specs.DataText.{data_text};
ghost use Rattle.dns_data.specs.Name.{Labels};
ghost use Rattle.dns_data.specs.Spelling.{name_text, label_text, octet_text};
ghost use Rattle.net_model.specs.Zone.{data_cmp};

use crate::records::target_of;
use dns_data::{Name, NoMemory, Octets, Rdata, octets_order, rdata_text};
use std::alloc::Global;
use std::cmp::Ordering;

/// How the text of data stands to that of others. No texts are made of names whose last labels tell it.
pub(crate) fn data_order(alloc: Global, left: &Rdata, right: &Rdata) -> Result<Ordering, NoMemory>
    ensures { IfOk result (λ order. order ≡ data_cmp left.now right.now) }
{
    if let Some(order) = order_of_targets(left, right) {
        return Ok(order);
    }
    let one = text_of(alloc, left)?;
    let other = text_of(alloc, right)?;
    Ok(octets_order(one.items(), other.items()))
}

/// The octets of the text of data, or none where the data are of no type that has texts.
pub(crate) fn text_of(alloc: Global, rdata: &Rdata) -> Result<Octets, NoMemory>
    ensures { IfOk result (λ text. text ≡ data_text rdata.now) }
{
    match rdata.rtype() {
        Some(_) => {
            let text = rdata_text(alloc, rdata)?;
            Octets::from_octets(alloc, text.as_bytes())
        }
        None => Ok(Octets::new()),
    }
}

/// How the text of data with a target stands to that of others, or `None` where the last labels of the targets don't
/// tell it.
fn order_of_targets(left: &Rdata, right: &Rdata) -> Option<Ordering>
    ensures { IfSome result (λ order. order ≡ data_cmp left.now right.now) }
{
    order_of_names(target_of(left)?, target_of(right)?)
}

/// How the text of a name stands to another's, or `None` where their last labels don't tell it.
fn order_of_names(left: &Name, right: &Name) -> Option<Ordering>
    ensures { IfSome result (λ order. order ≡ slice_cmp nat_cmp (name_text left.now) (name_text right.now)) }
{
    order_of_labels(last_label(left)?, last_label(right)?)
}

/// The last label of a name, with which its text begins.
fn last_label(name: &Name) -> Option<&[u8]>
    ensures { IfSome result (λ label. (front : Labels) × (name.now ≡ front ++ label.now ∷ [])) }
{
    let mut rest = name.labels();
    let mut last = None;
    while let Some(label) = rest.next() {
        last = Some(label);
    }
    last
}

/// How the text of a label stands to another's, whatever follows them, or `None` where an octet that would tell it is
/// escaped there, or they are one.
fn order_of_labels(left: &[u8], right: &[u8]) -> Option<Ordering>
    ensures { IfSome result (λ order. (more others : List ℕ) → order ≡ slice_cmp nat_cmp (label_text left.now ++ more) (label_text right.now ++ others)) }
{
    let both = left.len().min(right.len());
    let mut place = 0;
    while place < both && left[place] == right[place] {
        place += 1;
    }
    let one = first_of_text(left, place)?;
    let other = first_of_text(right, place)?;
    if one == other {
        None
    } else {
        Some(one.cmp(&other))
    }
}

/// The first octet of the text of a label from a place on, or `None` where it is an escape's.
fn first_of_text(label: &[u8], place: usize) -> Option<u8>
    requires { place ≤ length label.now }
    ensures { IfSome result (λ first. (rest : List ℕ) × (label_text (drop place label.now) ≡ first ∷ rest)) }
{
    if place == label.len() {
        return Some(b'.');
    }
    let octet = label[place];
    if is_plain(octet) { Some(octet) } else { None }
}

/// Whether an octet is one of those of hosts' names, which stand for themselves in texts.
fn is_plain(octet: u8) -> bool
    ensures { result ≡ true → octet_text octet ≡ octet ∷ [] }
{
    matches!(octet, b'a'..=b'z' | b'0'..=b'9' | b'-' | b'_')
}
