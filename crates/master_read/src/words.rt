//! The words of types, classes and directives.

ghost use Rattle.std.specs.Prelude.{◌≡◌, map};
ghost use Rattle.dns_data.specs.Octet.{is_word};
ghost use Rattle.master_read.specs.Words.{is_some_word, type_word, other_type_word, type_with, type_numbered, class_word, number_behind};

use dns_data::{RrType, is_word, read_number};

/// What a type's word says.
#[derive(Clone, Copy, Debug, PartialEq, Eq)]
pub enum TypeWord {
    /// One of the twelve types.
    Known(RrType),
    /// A type whose records are dropped.
    Dropped,
    /// A type whose records are kept under its word.
    Other,
}

/// What a class's word says.
#[derive(Clone, Copy, Debug, PartialEq, Eq)]
pub enum ClassWord {
    /// The class IN.
    In,
    /// Another class.
    NotIn,
}

/// The words of the types whose records are dropped.
const DROPPED: [&str; 3] = ["RRSIG", "NSEC", "NSEC3"];

/// The words of the other types whose records are kept.
const OTHERS: [&str; 29] = [
    "AFSDB",
    "APL",
    "CDNSKEY",
    "CDS",
    "CERT",
    "CSYNC",
    "DHCID",
    "DLV",
    "DNSKEY",
    "DS",
    "EUI48",
    "EUI64",
    "HIP",
    "HTTPS",
    "IPSECKEY",
    "KEY",
    "KX",
    "LOC",
    "NAPTR",
    "NSEC3PARAM",
    "OPENPGPKEY",
    "RP",
    "SMIMEA",
    "SPF",
    "SSHFP",
    "SVCB",
    "TLSA",
    "URI",
    "ZONEMD",
];

/// Whether the octets are one of these words.
#[tactic(auto, unfolding(crate::specs::Words::is_some_word))]
fn is_some_word(words: &[&str], octets: &[u8]) -> bool
    ensures { result ≡ is_some_word (map (λ word. word.now) words.now) octets.now }
{
    words.iter().any(|word| is_word(word, octets))
}

/// What the word of a type says, or `None` where the octets are none.
#[tactic(auto, unfolding(crate::specs::Words::type_word))]
pub(crate) fn type_word(octets: &[u8]) -> Option<TypeWord>
    ensures { result ≡ type_word octets.now }
{
    match RrType::from_word(octets) {
        Some(rtype) => Some(TypeWord::Known(rtype)),
        None => other_type_word(octets),
    }
}

/// What the word of a type says that isn't one of the twelve, or `None` where the octets are none.
fn other_type_word(octets: &[u8]) -> Option<TypeWord>
    ensures { result ≡ other_type_word octets.now }
{
    if is_some_word(&DROPPED, octets) {
        return Some(TypeWord::Dropped);
    }
    if is_some_word(&OTHERS, octets) {
        return Some(TypeWord::Other);
    }
    Some(type_with(number_behind("TYPE", octets)?))
}

/// What the number of a type says.
fn type_with(number: u16) -> TypeWord
    ensures { result ≡ type_with number }
{
    match number {
        46 | 47 | 50 => TypeWord::Dropped,
        _ => type_numbered(number).map_or(TypeWord::Other, TypeWord::Known),
    }
}

/// The type of the twelve that has this number, or `None` where none has.
#[tactic(auto, unfolding(crate::specs::Words::type_numbered))]
fn type_numbered(number: u16) -> Option<RrType>
    ensures { result ≡ type_numbered number }
{
    RrType::ALL
        .iter()
        .copied()
        .find(|rtype| rtype.number() == number)
}

/// What the word of a class says, or `None` where the octets are none.
#[tactic(auto, unfolding(crate::specs::Words::class_word))]
pub(crate) fn class_word(octets: &[u8]) -> Option<ClassWord>
    ensures { result ≡ class_word octets.now }
{
    if is_some_word(&["IN", "CLASS1"], octets) {
        return Some(ClassWord::In);
    }
    if is_some_word(&["CS", "CH", "HS"], octets) {
        return Some(ClassWord::NotIn);
    }
    number_behind("CLASS", octets)?;
    Some(ClassWord::NotIn)
}

/// The number of one to five digits, up to 65,535, behind a word, or `None` where the octets are none such.
fn number_behind(word: &str, octets: &[u8]) -> Option<u16>
    ensures { result ≡ number_behind word.now octets.now }
{
    if octets.len() < word.len() {
        return None;
    }
    let (front, digits) = octets.split_at(word.len());
    if !is_word(word, front) {
        return None;
    }
    Some(read_number(digits, 5, 65535)? as u16)
}
