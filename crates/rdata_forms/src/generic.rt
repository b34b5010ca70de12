//! The generic form of data (RFC 3597 section 5).

ghost use Rattle.std.specs.Prelude.{◌≡◌, ◌&&◌, ◌==◌, length};
ghost use Rattle.rdata_forms.specs.Forms.{written, is_generic as begins_generic, is_generic_form as has_generic_form};
ghost use Rattle.rdata_forms.specs.Addresses.{is_hex};
ghost use Rattle.std.specs.List.{list_all, concat};

use crate::ipv6::hex_value;
use dns_data::read_number;
use master_lex::TextToken;

/// Whether the first token isn't quoted and reads `\#`.
pub(crate) fn is_generic(tokens: &[TextToken<'_>]) -> bool
    ensures { result ≡ begins_generic tokens.now }
{
    match tokens {
        [first, ..] => !first.is_quoted() && first.raw() == b"\\#".as_slice(),
        [] => false,
    }
}

/// Whether behind the first token a length of up to 65,535 and exactly this many octets in hexadecimal stand, however
/// the digits are cut into tokens.
pub(crate) fn is_generic_form(tokens: &[TextToken<'_>]) -> bool
    ensures { result ≡ has_generic_form (written tokens.now) }
{
    let [_, octets, digits @ ..] = tokens else {
        return false;
    };
    match read_number(octets.raw(), 5, 65535) {
        Some(octets) => are_digits(digits, 2 * octets as usize),
        None => false,
    }
}

/// Whether the tokens have this many hexadecimal digits together, and nothing else.
fn are_digits(tokens: &[TextToken<'_>], count: usize) -> bool
    ensures { result ≡ (list_all is_hex (concat (written tokens.now)) && (length (concat (written tokens.now)) == count)) }
{
    let mut left = count;
    for token in tokens {
        let digits = token.raw();
        if digits.len() > left || !are_hex(digits) {
            return false;
        }
        left -= digits.len();
    }
    left == 0
}

/// Whether all octets are hexadecimal digits.
fn are_hex(text: &[u8]) -> bool
    ensures { result ≡ list_all is_hex text.now }
{
    text.iter().all(|octet| hex_value(*octet).is_some())
}
