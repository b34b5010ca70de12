//! The labels of a name, one after another.

ghost use Rattle.std.specs.Prelude.{◌≡◌, ◌↔◌, ◌<◌, ◌≤◌, [], ◌∷◌, length, take, IsTrue, MatchOption, IfSome, nat_eq, slice_index};
ghost use Rattle.std.specs.List.{common_prefix_len};
ghost use Rattle.dns_data.specs.Label.{IsLabel, label_eq};
ghost use Rattle.dns_data.specs.Name.{name_cmp};
ghost use Rattle.dns_data.specs.Encoding.{labels_of, EncodesName, IsPast};

use crate::common::{common_octets, octets_order};
use std::cmp::Ordering;
use std::marker::Model;

/// Labels of a name, the top one first.
#[derive(Debug, Drop)]
pub struct Labels<'a> {
    octets: &'a [u8],
}

impl<'a> Model for Labels<'a> {
    ghost use Rattle.std.specs.Prelude.{List, ℕ};
    ghost use Rattle.dns_data.specs.Encoding.{labels_of, EncodesName};

    ghost Value = { List (List ℕ) };

    ghost view = { λ labels. labels_of labels.octets.now };

    ghost invariant = { λ labels. EncodesName labels.octets.now };
}

impl<'a> Labels<'a> {
    /// The labels of these octets.
    pub(crate) fn of(octets: &'a [u8]) -> Labels<'a>
        requires { EncodesName octets.now }
        ensures { result ≡ labels_of octets.entry.now }
    {
        Labels { octets }
    }

    /// The octets of the labels.
    pub(crate) fn octets(&self) -> &'a [u8]
        ensures name { EncodesName result.now }
        ensures labels { labels_of result.now ≡ self.now }
    {
        self.octets
    }

    /// A copy of the labels. It takes no memory.
    pub fn copy(&self) -> Labels<'a>
        ensures { result ≡ self.now }
    {
        Labels {
            octets: self.octets,
        }
    }

    /// Whether there is no label.
    pub fn is_empty(&self) -> bool
        ensures { IsTrue result ↔ (self.now ≡ []) }
    {
        self.octets.is_empty()
    }

    /// How many labels there are.
    #[tactic(auto, using(crate::proofs::Encodings::few_labels))]
    pub fn len(&self) -> u32
        ensures value { result ≡ length self.now }
        ensures within { result ≤ 127 }
    {
        let mut rest = self.copy();
        let mut count = 0;
        while rest.next().is_some() {
            count += 1;
        }
        count
    }

    /// Takes the top label off and gives its octets, or `None` where there is none.
    pub fn next(&mut self) -> Option<&'a [u8]>
        ensures first { MatchOption result (self.old ≡ []) (λ label. self.old ≡ label.now ∷ self.new) }
        ensures label { IfSome result (λ label. IsLabel label.now) }
        ensures none { MatchOption result (self.new ≡ []) (λ _. length self.new < length self.old) }
    {
        let [count, rest @ ..] = self.octets else {
            return None;
        };
        let (label, after) = rest.split_at(*count as usize);
        self.octets = after;
        Some(label)
    }

    /// The top label's octets and the labels below it, or `None` where there is none.
    pub fn split_first(&self) -> Option<(&'a [u8], Labels<'a>)>
        ensures first { MatchOption result (self.now ≡ []) (λ both. self.now ≡ both.0.now ∷ both.1) }
        ensures label { IfSome result (λ both. IsLabel both.0.now) }
    {
        let mut rest = self.copy();
        let label = rest.next()?;
        Some((label, rest))
    }

    /// The first labels, as many as asked for, or all if there are fewer.
    pub fn front(&self, count: usize) -> Labels<'a>
        ensures { result ≡ take count self.now }
    {
        let octets = self.octets;
        let mut rest = self.copy();
        let mut passed = 0;
        for _ in 0..count {
            match rest.next() {
                Some(label) => passed += label.len() + 1,
                None => return self.copy(),
            }
        }
        Labels {
            octets: &octets[..passed],
        }
    }

    /// How many labels both begin with.
    pub fn common_len(&self, others: &Labels<'_>) -> u32
        ensures value { result ≡ common_prefix_len label_eq self.now others.now }
        ensures within { result ≤ length self.now }
    {
        past_common(self.octets, others.octets).0
    }

    /// How the labels stand to the others: label by label from the top, a proper front first.
    pub fn compare(&self, others: &Labels<'_>) -> Ordering
        ensures { result ≡ name_cmp self.now others.now }
    {
        let (_, left, right, common) = past_common(self.octets, others.octets);
        if common > 0 {
            left[common].cmp(&right[common])
        } else {
            first_order(left, right)
        }
    }
}

/// How many labels two names both begin with, the octets of each behind them, and how many of those octets both begin
/// with, which are fewer than the next label takes.
fn past_common<'a, 'b>(left: &'a [u8], right: &'b [u8]) -> (u32, &'a [u8], &'b [u8], usize)
    requires left { EncodesName left.now }
    requires right { EncodesName right.now }
    ensures past { IsPast (labels_of left.now) (labels_of right.now) result.0 result.1.now result.2.now result.3 }
    ensures none { common_prefix_len label_eq (labels_of result.1.now) (labels_of result.2.now) ≡ 0 }
    ensures within { 0 < result.3 → result.3 ≤ slice_index result.1.now 0 }
{
    let (mut left, mut right) = (left, right);
    let mut common = common_octets(left, right);
    let mut count = 0;
    while common > 0 && (left[0] as usize) < common {
        let size = left[0] as usize + 1;
        left = left.split_at(size).1;
        right = right.split_at(size).1;
        common -= size;
        count += 1;
    }
    (count, left, right, common)
}

/// How names stand to each other that don't begin with the same octet: by their first labels.
fn first_order(left: &[u8], right: &[u8]) -> Ordering
    requires left { EncodesName left.now }
    requires right { EncodesName right.now }
    requires apart { common_prefix_len nat_eq left.now right.now ≡ 0 }
    ensures { result ≡ name_cmp (labels_of left.now) (labels_of right.now) }
{
    let (left, right) = (Labels::of(left), Labels::of(right));
    let Some((label, _)) = left.split_first() else {
        return if right.is_empty() {
            Ordering::Equal
        } else {
            Ordering::Less
        };
    };
    let Some((other, _)) = right.split_first() else {
        return Ordering::Greater;
    };
    octets_order(label, other)
}
