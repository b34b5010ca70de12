//! Labels.

ghost use Rattle.std.specs.Prelude.{◌≡◌, ◌+◌, length, IfOk};
ghost use Rattle.dns_data.specs.Answers.{AnswersOr};
ghost use Rattle.dns_data.specs.Label.{IsLabel, label_of, label_eq, label_cmp};

use crate::common::{octets_order, same_octets};
use crate::fault::NameFault;
use crate::memory::NoMemory;
use crate::octets::Octets;
use std::alloc::Global;
use std::cmp::Ordering;
use std::marker::Model;

/// A label of 1 to 63 octets without A to Z. Labels are ordered by their octets. One of at most 30 octets takes
/// no memory of its own (RFC 1035 section 2.3.4).
#[derive(Debug, Drop)]
pub struct Label {
    octets: Octets,
}

impl Model for Label {
    ghost use Rattle.std.specs.Prelude.{List, ℕ};
    ghost use Rattle.dns_data.specs.Label.{IsLabel};

    ghost Value = { List ℕ };

    ghost view = { λ label. label.octets };

    ghost invariant = { λ label. IsLabel label.octets };
}

impl Label {
    /// The label with these octets, A to Z folded to a to z. It is `EmptyLabel` where there is no octet and
    /// `LabelTooLong` where there are more than 63.
    pub fn from_octets(alloc: Global, octets: &[u8]) -> Result<Label, NameFault>
        ensures { AnswersOr NameFault.NoMemory result (label_of octets.now) }
    {
        if octets.is_empty() {
            return Err(NameFault::EmptyLabel);
        }
        if octets.len() > 63 {
            return Err(NameFault::LabelTooLong);
        }
        let mut label = Octets::with_capacity(alloc, octets.len())?;
        for octet in octets {
            label.push(alloc, octet.to_ascii_lowercase())?;
        }
        Ok(Label { octets: label })
    }

    /// The label with these octets, which are a label's: none is folded.
    pub fn with_octets(alloc: Global, octets: &[u8]) -> Result<Label, NoMemory>
        requires { IsLabel octets.now }
        ensures { IfOk result (λ label. label ≡ octets.now) }
    {
        Ok(Label {
            octets: Octets::from_octets(alloc, octets)?,
        })
    }

    /// The octets of the label.
    pub fn items(&self) -> &[u8]
        ensures same { result.now ≡ self.now }
        ensures label { IsLabel self.now }
    {
        self.octets.items()
    }

    /// How many octets the label takes in a name: its length and one (RFC 1035 section 3.1).
    pub fn octets(&self) -> u32
        ensures value { result ≡ length self.now + 1 }
        ensures label { IsLabel self.now }
    {
        self.items().len() as u32 + 1
    }

    /// An equal label.
    pub fn copy(&self, alloc: Global) -> Result<Label, NoMemory>
        ensures { IfOk result (λ label. label ≡ self.now) }
    {
        Ok(Label {
            octets: self.octets.copy(alloc)?,
        })
    }
}

impl PartialEq for Label {
    ghost use Rattle.std.specs.Cmp.Lexicographic.{nat_list_eq_equiv};
    ghost use Rattle.std.specs.Cmp.{partial_equiv_from_equiv};

    ghost eq = { label_eq };

    ghost laws = { partial_equiv_from_equiv nat_list_eq_equiv };

    fn eq(&self, other: &Label) -> bool {
        same_octets(self.items(), other.items())
    }
}

impl Eq for Label {
    ghost use Rattle.std.specs.Cmp.Lexicographic.{nat_list_eq_equiv};

    ghost laws = { nat_list_eq_equiv };
}

impl PartialOrd for Label {
    ghost use Rattle.std.specs.Prelude.{Some};
    ghost use Rattle.std.specs.Cmp.Lexicographic.{texts_po};

    ghost partial_cmp = { λ a b. Some (label_cmp a b) };

    ghost laws = { texts_po };

    fn partial_cmp(&self, other: &Label) -> Option<Ordering> {
        Some(self.cmp(other))
    }
}

impl Ord for Label {
    ghost use Rattle.std.specs.Prelude.{refl};
    ghost use Rattle.std.specs.Cmp.Lexicographic.{nat_list_cmp_total, texts_ties};

    ghost cmp = { label_cmp };

    ghost total = { nat_list_cmp_total };

    ghost matches_partial_cmp = { λ _ _. refl };

    ghost matches_eq = { texts_ties };

    fn cmp(&self, other: &Label) -> Ordering {
        octets_order(self.items(), other.items())
    }
}
