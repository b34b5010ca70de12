//! A few octets that stand in the value itself.

ghost use Rattle.std.specs.Prelude.{◌≡◌, ◌+◌, ◌≤◌, [], ◌++◌, length, take};

use std::marker::Model;

/// At most 30 octets.
#[derive(Debug, Drop)]
pub(crate) struct Short {
    count: u8,
    octets: [u8; 30],
}

impl Model for Short {
    ghost use Rattle.std.specs.Prelude.{List, ℕ, ◌≤◌, take};

    ghost Value = { List ℕ };

    ghost view = { λ short. take short.count short.octets };

    ghost invariant = { λ short. short.count ≤ 30 };
}

impl Short {
    /// No octets.
    pub(crate) fn new() -> Short
        ensures { result ≡ [] }
    {
        Short {
            count: 0,
            octets: [0; 30],
        }
    }

    /// These octets.
    pub(crate) fn of(octets: &[u8]) -> Short
        requires { length octets.now ≤ 30 }
        ensures { result ≡ octets.now }
    {
        let mut short = Short::new();
        short.append(octets);
        short
    }

    /// The octets.
    pub(crate) fn items(&self) -> &[u8]
        ensures same { result.now ≡ self.now }
        ensures short { length self.now ≤ 30 }
    {
        &self.octets[..self.count as usize]
    }

    /// Equal octets.
    pub(crate) fn copy(&self) -> Short
        ensures { result ≡ self.now }
    {
        Short {
            count: self.count,
            octets: self.octets,
        }
    }

    /// Puts octets at the end.
    pub(crate) fn append(&mut self, more: &[u8])
        requires { length self.old + length more.now ≤ 30 }
        ensures { self.new ≡ self.old ++ more.now }
    {
        let start = self.count as usize;
        let end = start + more.len();
        self.octets[start..end].copy_from_slice(more);
        self.count = end as u8;
    }

    /// Keeps the first octets, at most this many.
    pub(crate) fn truncate(&mut self, len: usize)
        ensures { self.new ≡ take len self.old }
    {
        if len < self.count as usize {
            self.count = len as u8;
        }
    }
}
