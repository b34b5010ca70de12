//! What the definitions say of the texts of addresses and times.

ghost use Rattle.std.specs.Prelude.{◌≡◌, ◌↔◌, ℕ, List, Some};
ghost use Rattle.rdata_forms.specs.AddressTexts.{IsIpv4Text, IsIpv6Text};
ghost use Rattle.rdata_forms.specs.Addresses.{ipv4_of, ipv6_of};
ghost use Rattle.rdata_forms.specs.TimeTexts.{IsTimeText};
ghost use Rattle.rdata_forms.specs.Times.{time_of};

/// An address is worked out of a text exactly where the text stands for it, and a text stands for at most one
/// address, of IPv4 (RFC 1035 section 3.4.1) and of IPv6 (RFC 4291 section 2.2).
pub fn one_address()
    ensures ipv4 { (text address : List ℕ) → (ipv4_of text ≡ Some address) ↔ IsIpv4Text text address }
    ensures one_ipv4 { (text a b : List ℕ) → IsIpv4Text text a → IsIpv4Text text b → a ≡ b }
    ensures ipv6 { (text address : List ℕ) → (ipv6_of text ≡ Some address) ↔ IsIpv6Text text address }
    ensures one_ipv6 { (text a b : List ℕ) → IsIpv6Text text a → IsIpv6Text text b → a ≡ b }
{}

/// A time is worked out of a text exactly where the text stands for it, and a text stands for at most one time.
pub fn one_time()
    ensures time { (text : List ℕ) (seconds : ℕ) → (time_of text ≡ Some seconds) ↔ IsTimeText text seconds }
    ensures one_time { (text : List ℕ) (a b : ℕ) → IsTimeText text a → IsTimeText text b → a ≡ b }
{}
