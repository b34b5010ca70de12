//! Members of objects.

ghost use Rattle.std.specs.Prelude.{◌≡◌, map};
ghost use Rattle.std.specs.Option.{option_map};
ghost use Rattle.serde_json.specs.View.{view};
ghost use Rattle.meta_read.specs.Members.{list_in, list_at, text_at};

use serde_json::Value;

/// The items of the list at a key, or `None` where no list stands there (RFC 8259 section 5).
pub fn list_at<'a>(value: &'a Value, key: &str) -> Option<&'a [Value]>
    ensures { option_map (λ values. map view values.now) result ≡ list_at key.now (view value.now) }
{
    list_in(value.get(key))
}

/// The items of a member that is a list, or `None` where it is none (RFC 8259 section 5).
pub(crate) fn list_in(member: Option<&Value>) -> Option<&[Value]>
    ensures { option_map (λ values. map view values.now) result ≡ list_in (option_map (λ value. view value.now) member.entry) }
{
    Some(member?.as_array()?.as_slice())
}

/// The string at a key, or `None` where no string stands there (RFC 8259 section 7).
pub fn text_at<'a>(value: &'a Value, key: &str) -> Option<&'a str>
    ensures { option_map (λ text. text.now) result ≡ text_at key.now (view value.now) }
{
    value.get(key)?.as_str()
}
