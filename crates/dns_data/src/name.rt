//! Names.

ghost use Rattle.std.specs.Prelude.{◌≡◌, ◌↔◌, ◌++◌, ◌+◌, ◌<◌, ◌≤◌, List, ℕ, [], ◌∷◌, length, take, sum_by, IsTrue, IfOk, OnOk, OnErr, IsErrOf};
ghost use Rattle.dns_data.specs.Answers.{AnswersOr};
ghost use Rattle.dns_data.specs.Label.{label_cmp};
ghost use Rattle.dns_data.specs.Spelling.{if_short};
ghost use Rattle.dns_data.specs.Name.{IsName, wire_octets, is_prefix, name_cmp, name_eq};
ghost use Rattle.dns_data.specs.Encoding.{encoded, labels_of, EncodesName};

use crate::common::same_octets;
use crate::fault::{JoinFault, NameFault};
use crate::label::Label;
use crate::labels::Labels;
use crate::memory::NoMemory;
use crate::octets::Octets;
use std::alloc::Global;
use std::cmp::Ordering;
use std::marker::Model;

/// A name of at most 255 octets (RFC 1035 section 2.3.4), the top label first. Names are ordered by their
/// labels from the root, a proper prefix first. One whose labels have at most 30 octets, with one for each, takes
/// no memory of its own.
#[derive(Debug, Drop)]
pub struct Name {
    octets: Octets,
}

impl Model for Name {
    ghost use Rattle.std.specs.Prelude.{List, ℕ};
    ghost use Rattle.dns_data.specs.Encoding.{labels_of, EncodesName};

    ghost Value = { List (List ℕ) };

    ghost view = { λ name. labels_of name.octets };

    ghost invariant = { λ name. EncodesName name.octets };
}

impl Name {
    /// The root. It takes no memory.
    #[tactic(auto, using(crate::proofs::Encodings::flat_root))]
    pub fn root() -> Name
        ensures { result ≡ [] }
    {
        Name {
            octets: Octets::new(),
        }
    }

    /// The labels, the top one first.
    pub fn labels(&self) -> Labels<'_>
        ensures same { result ≡ self.now }
        ensures name { IsName self.now }
    {
        Labels::of(self.octets.items())
    }

    /// The first labels, as many as asked for, or all if there are fewer.
    pub fn front(&self, count: usize) -> Labels<'_>
        ensures { result ≡ take count self.now }
    {
        self.labels().front(count)
    }

    /// The octets of the labels, the top one first, each its length and its octets.
    pub fn encoding(&self) -> &[u8]
        ensures same { result.now ≡ encoded self.now }
        ensures name { IsName self.now }
    {
        self.octets.items()
    }

    /// How many labels the name has.
    pub fn len(&self) -> u32
        ensures value { result ≡ length self.now }
        ensures within { result ≤ 127 }
    {
        self.labels().len()
    }

    /// How many octets the name has on the wire (RFC 1035 section 3.1).
    #[tactic(auto, using(crate::proofs::Encodings::flat_length))]
    pub fn octets(&self) -> u32
        ensures value { result ≡ wire_octets self.now }
        ensures within { result ≤ 255 }
    {
        self.octets.len() as u32 + 1
    }

    /// Whether the other name is this one or lies below it.
    #[tactic(auto, using(crate::proofs::Encodings::octets_begin))]
    pub fn is_prefix_of(&self, other: &Name) -> bool
        ensures value { result ≡ is_prefix self.now other.now }
        ensures prefix { IsTrue result ↔ ((below : List (List ℕ)) × (self.now ++ below ≡ other.now)) }
    {
        other.octets.items().starts_with(self.octets.items())
    }

    /// How the name stands to the other: by their labels from the root, a proper prefix first.
    pub fn compare(&self, other: &Name) -> Ordering
        ensures value { result ≡ name_cmp self.now other.now }
        ensures equal { (result ≡ Ordering.Equal) ↔ (self.now ≡ other.now) }
    {
        self.labels().compare(&other.labels())
    }

    /// An equal name.
    pub fn copy(&self, alloc: Global) -> Result<Name, NoMemory>
        ensures { IfOk result (λ name. name ≡ self.now) }
    {
        Ok(Name {
            octets: self.octets.copy(alloc)?,
        })
    }

    /// The name of the first labels, as many as asked for, or an equal name if there are fewer.
    pub fn copy_front(&self, alloc: Global, count: usize) -> Result<Name, NoMemory>
        ensures { IfOk result (λ name. name ≡ take count self.now) }
    {
        match Name::root().join_labels(alloc, &self.labels().front(count)) {
            Ok(front) => Ok(front),
            Err(JoinFault::NoMemory) => Err(NoMemory),
            Err(JoinFault::TooLong) => unreachable!(),
        }
    }

    /// Puts a label below the name. After an error the name is as it was.
    #[tactic(auto, using(crate::proofs::Encodings::flat_length, crate::proofs::Encodings::flat_push))]
    pub fn push(&mut self, alloc: Global, label: &Label) -> Result<(), JoinFault>
        ensures ok { OnOk result (self.new ≡ self.old ++ label.now ∷ []) }
        ensures too_long { IsErrOf result JoinFault.TooLong ↔ (255 < wire_octets (self.old ++ label.now ∷ [])) }
        ensures err { OnErr result (self.new ≡ self.old) }
    {
        let label = label.items();
        if self.octets.items().len() + label.len() + 1 > 254 {
            return Err(JoinFault::TooLong);
        }
        self.octets.append(alloc, &[label.len() as u8], label)?;
        Ok(())
    }

    /// The name with these labels below it, the top one first. It is `TooLong` where it would have more than
    /// 255 octets.
    pub fn join(&self, alloc: Global, below: &[Label]) -> Result<Name, JoinFault>
        ensures ok { IfOk result (λ name. name ≡ self.now ++ below.now) }
        ensures too_long { IsErrOf result JoinFault.TooLong ↔ (255 < wire_octets (self.now ++ below.now)) }
    {
        if !fit_in(255 - self.octets(), below) {
            return Err(JoinFault::TooLong);
        }
        let mut name = self.copy(alloc)?;
        for label in below {
            name.push(alloc, label)?;
        }
        Ok(name)
    }

    /// The name with these labels of a name below it. It is `TooLong` where it would have more than 255 octets.
    #[tactic(auto, using(crate::proofs::Encodings::flat_length, crate::proofs::Encodings::flat_join, crate::proofs::Encodings::join_size))]
    pub fn join_labels(&self, alloc: Global, below: &Labels<'_>) -> Result<Name, JoinFault>
        ensures ok { IfOk result (λ name. name ≡ self.now ++ below.now) }
        ensures too_long { IsErrOf result JoinFault.TooLong ↔ (255 < wire_octets (self.now ++ below.now)) }
    {
        let above = self.octets.items();
        let below = below.octets();
        if above.len() + below.len() > 254 {
            return Err(JoinFault::TooLong);
        }
        Ok(Name {
            octets: Octets::joined(alloc, above, below)?,
        })
    }

    /// The name with these labels, the top one first. It is `NameTooLong` where it would have more than 255 octets.
    pub fn from_labels(alloc: Global, labels: &[Label]) -> Result<Name, NameFault>
        ensures { AnswersOr NameFault.NoMemory result (if_short labels.now) }
    {
        let mut name = Name::root();
        for label in labels {
            match name.push(alloc, label) {
                Ok(()) => {}
                Err(JoinFault::TooLong) => return Err(NameFault::NameTooLong),
                Err(JoinFault::NoMemory) => return Err(NameFault::NoMemory),
            }
        }
        // The octets are read, so that it is known here that the name has at most 255.
        let _ = name.octets();
        Ok(name)
    }

    /// The name of the labels above and below. It is `NameTooLong` where it would have more than 255 octets.
    #[tactic(auto, using(crate::proofs::Encodings::flat_length, crate::proofs::Encodings::flat_join, crate::proofs::Encodings::join_size))]
    pub(crate) fn placed(alloc: Global, above: &[u8], below: &[u8]) -> Result<Name, NameFault>
        requires above { EncodesName above.now }
        requires below { EncodesName below.now }
        ensures { AnswersOr NameFault.NoMemory result (if_short (labels_of above.now ++ labels_of below.now)) }
    {
        if above.len() + below.len() > 254 {
            return Err(NameFault::NameTooLong);
        }
        Ok(Name {
            octets: Octets::joined(alloc, above, below)?,
        })
    }
}

/// Whether the labels take at most this many octets, each its length and one.
fn fit_in(mut room: u32, labels: &[Label]) -> bool
    ensures { IsTrue result ↔ (sum_by (λ label. length label + 1) labels.now ≤ room) }
{
    for label in labels {
        match room.checked_sub(label.octets()) {
            Some(left) => room = left,
            None => return false,
        }
    }
    true
}

impl PartialEq for Name {
    ghost use Rattle.std.specs.Cmp.Lexicographic.{nat_list_eq_equiv, lists_equiv};
    ghost use Rattle.std.specs.Cmp.{partial_equiv_from_equiv};

    ghost eq = { name_eq };

    ghost laws = { partial_equiv_from_equiv (lists_equiv nat_list_eq_equiv) };

    #[tactic(auto, using(crate::proofs::Encodings::octets_same))]
    fn eq(&self, other: &Name) -> bool {
        same_octets(self.octets.items(), other.octets.items())
    }
}

impl Eq for Name {
    ghost use Rattle.std.specs.Cmp.Lexicographic.{nat_list_eq_equiv, lists_equiv};

    ghost laws = { lists_equiv nat_list_eq_equiv };
}

impl PartialOrd for Name {
    ghost use Rattle.std.specs.Prelude.{Some};
    ghost use Rattle.dns_data.specs.NameOrder.{names_po};

    ghost partial_cmp = { λ a b. Some (name_cmp a b) };

    ghost laws = { names_po };

    fn partial_cmp(&self, other: &Name) -> Option<Ordering> {
        Some(self.cmp(other))
    }
}

impl Ord for Name {
    ghost use Rattle.std.specs.Prelude.{refl};
    ghost use Rattle.std.specs.Cmp.Lexicographic.{nat_list_cmp_total, lists_total, texts_ties, lists_ties};

    ghost cmp = { name_cmp };

    ghost total = { lists_total nat_list_cmp_total };

    ghost matches_partial_cmp = { λ _ _. refl };

    ghost matches_eq = { lists_ties label_cmp texts_ties };

    fn cmp(&self, other: &Name) -> Ordering {
        self.compare(other)
    }
}
