//! Numbers in decimal digits.

ghost use Rattle.std.specs.Prelude.{◌≡◌, ◌&&◌, ◌+◌, ◌-◌, ◌*◌, nat_le, SomeIff, IsTrue};
ghost use Rattle.dns_data.specs.Number.{number_up_to};
ghost use Rattle.dns_data.specs.Octet.{is_digit};

/// The number that the text writes, in one pass: one to `digits` decimal digits, leading zeros among them, and
/// nothing else. It is `None` where the text is no such number or the number is above `most`. It takes no memory
/// (RFC 1035 section 5.1).
pub fn read_number(text: &[u8], digits: usize, most: u32) -> Option<u32>
    ensures { result ≡ number_up_to digits most text.now }
{
    if text.is_empty() || text.len() > digits {
        return None;
    }
    let mut value = 0;
    for octet in text {
        value = with_digit(value, *octet, most)?;
    }
    Some(value)
}

/// The value with one digit more, or `None` where the octet is no digit or the value is above `most`.
pub fn with_digit(value: u32, octet: u8, most: u32) -> Option<u32>
    ensures { SomeIff result (IsTrue (is_digit octet && nat_le (value * 10 + (octet - 48)) most)) (value * 10 + (octet - 48)) }
{
    if !octet.is_ascii_digit() {
        return None;
    }
    let value = u64::from(value) * 10 + u64::from(octet - b'0');
    if value > u64::from(most) {
        return None;
    }
    Some(value as u32)
}
