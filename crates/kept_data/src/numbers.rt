//! The numbers of types and of algorithms by their words.

ghost use Rattle.std.specs.Prelude.{◌≡◌, map, find};
ghost use Rattle.std.specs.Option.{option_map};
ghost use Rattle.dns_data.specs.Octet.{is_word};
ghost use Rattle.kept_data.specs.Numbers.{algorithm_in, kept_number, number_behind_type, number_of_word};

use dns_data::{is_word, read_number};

/// The types beyond the twelve that have a word, with their numbers.
const TYPES: [(&str, u16); 29] = [
    ("AFSDB", 18),
    ("APL", 42),
    ("CDNSKEY", 60),
    ("CDS", 59),
    ("CERT", 37),
    ("CSYNC", 62),
    ("DHCID", 49),
    ("DLV", 32769),
    ("DNSKEY", 48),
    ("DS", 43),
    ("EUI48", 108),
    ("EUI64", 109),
    ("HIP", 55),
    ("HTTPS", 65),
    ("IPSECKEY", 45),
    ("KEY", 25),
    ("KX", 36),
    ("LOC", 29),
    ("NAPTR", 35),
    ("NSEC3PARAM", 51),
    ("OPENPGPKEY", 61),
    ("RP", 17),
    ("SMIMEA", 53),
    ("SPF", 99),
    ("SSHFP", 44),
    ("SVCB", 64),
    ("TLSA", 52),
    ("URI", 256),
    ("ZONEMD", 63),
];

/// The algorithms of keys and signatures, with their numbers.
const ALGORITHMS: [(&str, u8); 19] = [
    ("DELETE", 0),
    ("RSAMD5", 1),
    ("DH", 2),
    ("DSA", 3),
    ("RSASHA1", 5),
    ("DSA-NSEC3-SHA1", 6),
    ("RSASHA1-NSEC3-SHA1", 7),
    ("RSASHA256", 8),
    ("RSASHA512", 10),
    ("ECC-GOST", 12),
    ("ECDSAP256SHA256", 13),
    ("ECDSAP384SHA384", 14),
    ("ED25519", 15),
    ("ED448", 16),
    ("SM2SM3", 17),
    ("ECC-GOST12", 23),
    ("INDIRECT", 252),
    ("PRIVATEDNS", 253),
    ("PRIVATEOID", 254),
];

/// The number beside a word in a table, in any case.
fn number_of_word<N: Copy>(table: &[(&str, N)], octets: &[u8]) -> Option<N>
    ensures { result ≡ number_of_word (map (λ one. (one.0.now, one.1)) table.now) octets.now }
{
    match entry_of(table, octets) {
        Some(one) => Some(one.1),
        None => None,
    }
}

/// The entry of a word in a table, in any case.
fn entry_of<'t, 's, N>(table: &'t [(&'s str, N)], octets: &[u8]) -> Option<&'t (&'s str, N)>
    ensures { option_map (λ one. one.now) result ≡ find (λ one. is_word one.0.now octets.now) table.now }
{
    table.iter().find(|one| is_word(one.0, octets))
}

/// The number of the type with this word, or `None` where the word is none of a type (RFC 3597 section 5).
#[tactic(auto, unfolding(crate::specs::Numbers::kept_number))]
pub fn kept_number(word: &[u8]) -> Option<u16>
    ensures { result ≡ kept_number word.now }
{
    match number_of_word(&TYPES, word) {
        Some(number) => Some(number),
        None => number_behind_type(word),
    }
}

/// The number of one to five digits, up to 65,535, behind `TYPE`.
fn number_behind_type(word: &[u8]) -> Option<u16>
    ensures { result ≡ number_behind_type word.now }
{
    if word.len() < 4 {
        return None;
    }
    let (front, digits) = word.split_at(4);
    if !is_word("TYPE", front) {
        return None;
    }
    Some(read_number(digits, 5, 65535)? as u16)
}

/// The algorithm that a field names, in decimal digits or by its word (RFC 4034 section 2.2).
#[tactic(auto, unfolding(crate::specs::Numbers::algorithm_in))]
pub(crate) fn algorithm_in(text: &[u8]) -> Option<u8>
    ensures { result ≡ algorithm_in text.now }
{
    match read_number(text, 10, 255) {
        Some(number) => Some(number as u8),
        None => number_of_word(&ALGORITHMS, text),
    }
}
