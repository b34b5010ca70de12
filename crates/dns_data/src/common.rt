//! How many octets two names, or two labels, both begin with, and how they stand to each other.

ghost use Rattle.std.specs.Prelude.{◌≡◌, ◌+◌, ◌<◌, ◌≤◌, length, take, drop, min, nat_eq};
ghost use Rattle.std.specs.List.{common_prefix_len};
ghost use Rattle.std.specs.Ordering.{nat_cmp};
ghost use Rattle.std.specs.Cmp.Lexicographic.{slice_cmp};
ghost use lib.Pointwise.{pointwise};
ghost use Rattle.dns_data.specs.BigEndian.{written_number};

use std::cmp::Ordering;

/// How many octets both begin with.
pub(crate) fn common_octets(left: &[u8], right: &[u8]) -> usize
    ensures { result ≡ common_prefix_len nat_eq left.now right.now }
{
    let both = left.len().min(right.len());
    if both < 8 {
        return common_of_few(left, right, both);
    }
    let last = both - 8;
    let mut passed = 0;
    while passed < last {
        let common = common_of_eight(left, right, passed);
        if common < 8 {
            return passed + common;
        }
        passed += 8;
    }
    last + common_of_eight(left, right, last)
}

/// How many octets both begin with, of which the shorter has this many.
fn common_of_few(left: &[u8], right: &[u8], both: usize) -> usize
    requires { both ≡ min (length left.now) (length right.now) }
    ensures { result ≡ common_prefix_len nat_eq left.now right.now }
{
    let mut passed = 0;
    while passed < both && left[passed] == right[passed] {
        passed += 1;
    }
    passed
}

/// How many of the eight octets from a place on are the same before the first that differs.
fn common_of_eight(left: &[u8], right: &[u8], at: usize) -> usize
    requires left { at + 8 ≤ length left.now }
    requires right { at + 8 ≤ length right.now }
    ensures { result ≡ common_prefix_len nat_eq (take 8 (drop at left.now)) (take 8 (drop at right.now)) }
{
    ((number_at(left, at) ^ number_at(right, at)).leading_zeros() / 8) as usize
}

/// The number that eight octets from a place on write, the most significant first.
fn number_at(octets: &[u8], at: usize) -> u64
    requires { at + 8 ≤ length octets.now }
    ensures { result ≡ written_number (take 8 (drop at octets.now)) }
{
    u64::from_be_bytes([
        octets[at],
        octets[at + 1],
        octets[at + 2],
        octets[at + 3],
        octets[at + 4],
        octets[at + 5],
        octets[at + 6],
        octets[at + 7],
    ])
}

/// Whether both are the same octets.
pub fn same_octets(left: &[u8], right: &[u8]) -> bool
    ensures { result ≡ pointwise nat_eq left.now right.now }
{
    if left.len() != right.len() {
        return false;
    }
    common_octets(left, right) == left.len()
}

/// How octets stand to others: octet by octet, a proper front first.
pub fn octets_order(left: &[u8], right: &[u8]) -> Ordering
    ensures { result ≡ slice_cmp nat_cmp left.now right.now }
{
    let common = common_octets(left, right);
    if common < left.len().min(right.len()) {
        left[common].cmp(&right[common])
    } else {
        left.len().cmp(&right.len())
    }
}
