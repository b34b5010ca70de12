//! The twelve record types.

ghost use Rattle.std.specs.Prelude.{◌≡◌, true, Some};
ghost use Rattle.dns_data.specs.Octet.{is_word};
ghost use Rattle.dns_data.specs.RrType.{number_of, word_of, type_of_word, type_eq};

use crate::words::is_word;

/// A record type that lookups speak of, in the order of their numbers (RFC 1035 section 3.2.2, RFC 3596
/// section 2.1, RFC 2782, RFC 6672 section 2.1, RFC 8659 section 4.1).
#[derive(Clone, Copy, Debug, PartialEq, Eq, PartialOrd, Ord)]
pub enum RrType {
    A,
    Ns,
    Cname,
    Soa,
    Ptr,
    Hinfo,
    Mx,
    Txt,
    Aaaa,
    Srv,
    Dname,
    Caa,
}

impl RrType {
    /// How many types there are.
    pub const COUNT: usize = 12;

    /// The twelve types in the order of their numbers.
    pub const ALL: [RrType; RrType::COUNT] = [
        RrType::A,
        RrType::Ns,
        RrType::Cname,
        RrType::Soa,
        RrType::Ptr,
        RrType::Hinfo,
        RrType::Mx,
        RrType::Txt,
        RrType::Aaaa,
        RrType::Srv,
        RrType::Dname,
        RrType::Caa,
    ];

    /// The type's number. No other type has it.
    pub fn number(&self) -> u16
        ensures number { result ≡ number_of self.now }
        ensures its_own { (other : RrType) → type_eq self.now other ≡ true → self.now ≡ other }
    {
        match self {
            RrType::A => 1,
            RrType::Ns => 2,
            RrType::Cname => 5,
            RrType::Soa => 6,
            RrType::Ptr => 12,
            RrType::Hinfo => 13,
            RrType::Mx => 15,
            RrType::Txt => 16,
            RrType::Aaaa => 28,
            RrType::Srv => 33,
            RrType::Dname => 39,
            RrType::Caa => 257,
        }
    }

    /// The type's word, in upper case. The type is read back from it.
    pub fn word(&self) -> &'static str
        ensures word { result.now ≡ word_of self.now }
        ensures read_back { type_of_word result.now ≡ Some self.now }
    {
        match self {
            RrType::A => "A",
            RrType::Ns => "NS",
            RrType::Cname => "CNAME",
            RrType::Soa => "SOA",
            RrType::Ptr => "PTR",
            RrType::Hinfo => "HINFO",
            RrType::Mx => "MX",
            RrType::Txt => "TXT",
            RrType::Aaaa => "AAAA",
            RrType::Srv => "SRV",
            RrType::Dname => "DNAME",
            RrType::Caa => "CAA",
        }
    }

    /// The type with this word, in any case, or `None` where the octets are none of the twelve words.
    pub fn from_word(word: &[u8]) -> Option<RrType>
        ensures { result ≡ type_of_word word.now }
    {
        RrType::ALL
            .iter()
            .copied()
            .find(|rr_type| is_word(rr_type.word(), word))
    }
}
