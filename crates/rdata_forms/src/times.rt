//! Times.

ghost use Rattle.std.specs.Prelude.{◌≡◌, ◌+◌, ◌≤◌, Some, option_map, option_and_then, IfSome};
ghost use Rattle.rdata_forms.specs.Times.{time_of, unit_of, time_group_of, if_ttl};

use dns_data::with_digit;

/// The most seconds of a TTL (RFC 2181 section 8).
const MOST: u32 = 2147483647;

/// The seconds of a time, in one pass: digits alone, or groups of digits with a letter w, d, h, m or s in either
/// case behind each, which are added; the letters are an extension that name servers share. It is `None` where the
/// text is no time or has more than 2,147,483,647 seconds (RFC 2181 section 8). It takes no memory.
pub fn read_ttl(text: &[u8]) -> Option<u32>
    ensures value { result ≡ time_of text.now }
    ensures within { IfSome result (λ seconds. seconds ≤ 2147483647) }
{
    let mut seconds = 0;
    let mut value = None;
    let mut grouped = false;
    for octet in text {
        if octet.is_ascii_digit() {
            value = Some(with_digit(value.unwrap_or(0), *octet, MOST)?);
        } else {
            seconds = with_group(seconds, value?, *octet)?;
            value = None;
            grouped = true;
        }
    }
    match value {
        Some(alone) if !grouped => Some(alone),
        None if grouped => Some(seconds),
        _ => None,
    }
}

/// The seconds with those of a group more, or `None` where the letter is no unit or they are too many.
fn with_group(seconds: u32, value: u32, letter: u8) -> Option<u32>
    ensures { result ≡ option_and_then if_ttl (option_map (λ group. seconds + group) (time_group_of (Some value) letter)) }
{
    let group = u64::from(value) * unit(letter)?;
    let seconds = u64::from(seconds) + group;
    if seconds > u64::from(MOST) {
        return None;
    }
    Some(seconds as u32)
}

/// How many seconds a letter stands for.
fn unit(letter: u8) -> Option<u64>
    ensures { result ≡ unit_of letter }
{
    match letter.to_ascii_lowercase() {
        b'w' => Some(604800),
        b'd' => Some(86400),
        b'h' => Some(3600),
        b'm' => Some(60),
        b's' => Some(1),
        _ => None,
    }
}
