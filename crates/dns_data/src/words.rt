//! Words in any case.

ghost use Rattle.std.specs.Prelude.{◌≡◌};
ghost use Rattle.dns_data.specs.Octet.{is_word};

/// Whether the octets are this word, in any case (RFC 4343 section 3).
#[inline]
#[tactic(auto, using(crate::proofs::WordLengths::other_length))]
pub fn is_word(word: &str, octets: &[u8]) -> bool
    ensures { result ≡ is_word word.now octets.now }
{
    // Most words differ in their lengths, which are compared where the call stands.
    word.len() == octets.len() && word.as_bytes().eq_ignore_ascii_case(octets)
}
