//! Octets that contracts see as a list.

ghost use Rattle.std.specs.Prelude.{◌≡◌, ◌+◌, ◌≤◌, [], ◌∷◌, ◌++◌, length, take, ◌↔◌, IsTrue, IfOk, OnOk, OnErr};

use crate::common::{octets_order, same_octets};
use crate::memory::NoMemory;
use crate::short::Short;
use std::alloc::Global;
use std::cmp::Ordering;
use std::marker::Model;

/// The most octets that stand in place.
const MOST_INLINE: usize = 30;

/// How many octets a vector has room for at least where octets grow out of their place, so that those that come one
/// by one don't make it grow at once.
const LEAST_ROOM: usize = 64;

/// Where octets are kept: up to 30 in the value, more in a vector.
#[derive(Debug, Drop)]
enum Storage {
    Inline(Short),
    Heap(Vec<u8>),
}

/// Octets in order. Up to 30 take no memory of their own.
#[derive(Debug, Drop)]
pub struct Octets {
    storage: Storage,
}

impl Model for Octets {
    ghost use Rattle.std.specs.Prelude.{List, ℕ};
    ghost use Rattle.dns_data.specs.Storage.{octets_in};

    ghost Value = { List ℕ };

    ghost view = { λ octets. octets_in octets.storage };
}

impl Octets {
    /// No octets. It takes no memory.
    pub fn new() -> Octets
        ensures { result ≡ [] }
    {
        Octets {
            storage: Storage::Inline(Short::new()),
        }
    }

    /// No octets, with room for at least this many.
    pub fn with_capacity(alloc: Global, capacity: usize) -> Result<Octets, NoMemory>
        ensures { IfOk result (λ octets. octets ≡ []) }
    {
        if capacity <= MOST_INLINE {
            return Ok(Octets::new());
        }
        Ok(Octets {
            storage: Storage::Heap(Vec::with_capacity(alloc, capacity)?),
        })
    }

    /// A copy of the octets.
    pub fn from_octets(alloc: Global, octets: &[u8]) -> Result<Octets, NoMemory>
        ensures { IfOk result (λ copy. copy ≡ octets.now) }
    {
        if octets.len() <= MOST_INLINE {
            return Ok(Octets {
                storage: Storage::Inline(Short::of(octets)),
            });
        }
        let mut copy = Vec::with_capacity(alloc, octets.len())?;
        copy.extend_from_slice(octets)?;
        Ok(Octets {
            storage: Storage::Heap(copy),
        })
    }

    /// The octets of a vector.
    pub fn from_vec(octets: Vec<u8>) -> Octets
        ensures { result ≡ octets.items }
    {
        if octets.len() > MOST_INLINE {
            return Octets {
                storage: Storage::Heap(octets),
            };
        }
        Octets {
            storage: Storage::Inline(Short::of(octets.as_slice())),
        }
    }

    /// The octets, in order.
    pub fn items(&self) -> &[u8]
        ensures { result.now ≡ self.now }
    {
        match &self.storage {
            Storage::Inline(short) => short.items(),
            Storage::Heap(octets) => octets.as_slice(),
        }
    }

    /// How many octets there are.
    pub fn len(&self) -> usize
        ensures { result ≡ length self.now }
    {
        self.items().len()
    }

    /// Whether there are no octets.
    pub fn is_empty(&self) -> bool
        ensures { IsTrue result ↔ (self.now ≡ []) }
    {
        self.items().is_empty()
    }

    /// Equal octets.
    pub fn copy(&self, alloc: Global) -> Result<Octets, NoMemory>
        ensures { IfOk result (λ copy. copy ≡ self.now) }
    {
        match &self.storage {
            Storage::Inline(short) => Ok(Octets {
                storage: Storage::Inline(short.copy()),
            }),
            Storage::Heap(octets) => Octets::from_octets(alloc, octets.as_slice()),
        }
    }

    /// Puts an octet at the end. After an error the octets are as they were.
    pub fn push(&mut self, alloc: Global, octet: u8) -> Result<(), NoMemory>
        ensures ok { OnOk result (self.new ≡ self.old ++ octet ∷ []) }
        ensures err { OnErr result (self.new ≡ self.old) }
    {
        self.extend_from_slice(alloc, &[octet])
    }

    /// Puts octets at the end. After an error the octets are as they were.
    pub fn extend_from_slice(&mut self, alloc: Global, more: &[u8]) -> Result<(), NoMemory>
        ensures ok { OnOk result (self.new ≡ self.old ++ more.now) }
        ensures err { OnErr result (self.new ≡ self.old) }
    {
        match &mut self.storage {
            Storage::Inline(short) => {
                if more.len() <= MOST_INLINE - short.items().len() {
                    short.append(more);
                    return Ok(());
                }
                let octets = grown(alloc, short.items(), more)?;
                self.storage = Storage::Heap(octets);
                Ok(())
            }
            Storage::Heap(octets) => {
                octets.extend_from_slice(more)?;
                Ok(())
            }
        }
    }

    /// Puts octets and others behind them at the end. After an error the octets are as they were.
    pub(crate) fn append(
        &mut self,
        alloc: Global,
        first: &[u8],
        second: &[u8],
    ) -> Result<(), NoMemory>
        ensures ok { OnOk result (self.new ≡ self.old ++ (first.now ++ second.now)) }
        ensures err { OnErr result (self.new ≡ self.old) }
    {
        let before = self.len();
        self.extend_from_slice(alloc, first)?;
        if self.extend_from_slice(alloc, second).is_err() {
            self.truncate(before);
            return Err(NoMemory);
        }
        Ok(())
    }

    /// Octets, and others behind them, together at most 255.
    pub(crate) fn joined(alloc: Global, front: &[u8], back: &[u8]) -> Result<Octets, NoMemory>
        requires { length front.now + length back.now ≤ 255 }
        ensures { IfOk result (λ both. both ≡ front.now ++ back.now) }
    {
        let count = front.len() + back.len();
        if count <= MOST_INLINE {
            let mut short = Short::of(front);
            short.append(back);
            return Ok(Octets {
                storage: Storage::Inline(short),
            });
        }
        let mut both = Vec::with_capacity(alloc, count)?;
        both.extend_from_slice(front)?;
        both.extend_from_slice(back)?;
        Ok(Octets {
            storage: Storage::Heap(both),
        })
    }

    /// Keeps the first octets, at most this many.
    pub fn truncate(&mut self, len: usize)
        ensures { self.new ≡ take len self.old }
    {
        match &mut self.storage {
            Storage::Inline(short) => short.truncate(len),
            Storage::Heap(octets) => octets.truncate(len),
        }
    }

    /// Takes all octets off.
    pub fn clear(&mut self)
        ensures { self.new ≡ [] }
    {
        self.truncate(0);
    }
}

/// A vector of the octets of both, with some room.
fn grown(alloc: Global, front: &[u8], back: &[u8]) -> Result<Vec<u8>, NoMemory>
    requires { length front.now ≤ 30 }
    ensures { IfOk result (λ both. both.items ≡ front.now ++ back.now) }
{
    let mut both = Vec::with_capacity(alloc, LEAST_ROOM.max(front.len() + back.len()))?;
    both.extend_from_slice(front)?;
    both.extend_from_slice(back)?;
    Ok(both)
}

impl PartialEq for Octets {
    ghost use Rattle.std.specs.Prelude.{nat_eq};
    ghost use lib.Pointwise.{pointwise};
    ghost use Rattle.std.specs.Cmp.Lexicographic.{nat_list_eq_equiv};
    ghost use Rattle.std.specs.Cmp.{partial_equiv_from_equiv};

    ghost eq = { pointwise nat_eq };

    ghost laws = { partial_equiv_from_equiv nat_list_eq_equiv };

    fn eq(&self, other: &Octets) -> bool {
        same_octets(self.items(), other.items())
    }
}

impl Eq for Octets {
    ghost use Rattle.std.specs.Cmp.Lexicographic.{nat_list_eq_equiv};

    ghost laws = { nat_list_eq_equiv };
}

impl PartialOrd for Octets {
    ghost use Rattle.std.specs.Prelude.{Some};
    ghost use Rattle.std.specs.Ordering.{nat_cmp};
    ghost use Rattle.std.specs.Cmp.Lexicographic.{slice_cmp, texts_po};

    ghost partial_cmp = { λ a b. Some (slice_cmp nat_cmp a b) };

    ghost laws = { texts_po };

    fn partial_cmp(&self, other: &Octets) -> Option<Ordering> {
        Some(self.cmp(other))
    }
}

impl Ord for Octets {
    ghost use Rattle.std.specs.Prelude.{refl};
    ghost use Rattle.std.specs.Ordering.{nat_cmp};
    ghost use Rattle.std.specs.Cmp.Lexicographic.{slice_cmp, nat_list_cmp_total, texts_ties};

    ghost cmp = { slice_cmp nat_cmp };

    ghost total = { nat_list_cmp_total };

    ghost matches_partial_cmp = { λ _ _. refl };

    ghost matches_eq = { texts_ties };

    fn cmp(&self, other: &Octets) -> Ordering {
        octets_order(self.items(), other.items())
    }
}
