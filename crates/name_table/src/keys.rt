//! Numbers of names that mostly tell their order.

ghost use Rattle.std.specs.Prelude.{◌≡◌, true, false, drop, slice_index, IfSome, IfNone};
ghost use Rattle.dns_data.specs.Name.{is_prefix};
ghost use Rattle.name_table.specs.Keys.{IsKey, IsKeyBelow, label_key};

use dns_data::{Labels, Name};

/// The key of a name with these labels, which another is above: a number of the first eight octets of the label below the
/// other, or 0 where it has none. Where the keys of two names below one name differ, the names stand as they do.
pub(crate) fn key_of(above: &Name, labels: &Labels<'_>) -> u64
    requires { is_prefix above.now labels.now ≡ true }
    ensures { IsKeyBelow above.now labels.now result }
{
    key_below(labels, above.len() as usize)
}

/// The key of a name with these labels, or `None` where the other isn't above it.
pub fn key_if_below(above: &Name, labels: &Labels<'_>) -> Option<u64>
    ensures some { IfSome result (IsKeyBelow above.now labels.now) }
    ensures none { IfNone result (is_prefix above.now labels.now ≡ false) }
{
    let count = above.len();
    if labels.common_len(&above.labels()) < count {
        return None;
    }
    Some(key_of(above, labels))
}

/// The key of the labels below so many.
fn key_below(labels: &Labels<'_>, above: usize) -> u64
    ensures { IsKey (drop above labels.now) result }
{
    let mut below = labels_behind(labels, above);
    match below.next() {
        Some(label) => label_key(label),
        None => 0,
    }
}

/// The labels behind the first so many.
pub(crate) fn labels_behind<'a>(labels: &Labels<'a>, count: usize) -> Labels<'a>
    ensures { result ≡ drop count labels.now }
{
    let mut behind = labels.copy();
    for _ in 0..count {
        behind.next();
    }
    behind
}

/// The number that the first eight octets of a label write, with zeros behind those of a shorter one.
fn label_key(label: &[u8]) -> u64
    ensures { result ≡ label_key label.now }
{
    u64::from_be_bytes([
        octet_at(label, 0),
        octet_at(label, 1),
        octet_at(label, 2),
        octet_at(label, 3),
        octet_at(label, 4),
        octet_at(label, 5),
        octet_at(label, 6),
        octet_at(label, 7),
    ])
}

/// The octet at a place, or 0 where there is none.
fn octet_at(label: &[u8], place: usize) -> u8
    ensures { result ≡ slice_index label.now place }
{
    if place < label.len() { label[place] } else { 0 }
}
