//! What is written as JSON (RFC 8259): lists of it, and its text.

ghost use Rattle.std.specs.Prelude.{◌≡◌, ◌++◌, codes, false, map, IfOk, OnOk};
ghost use Rattle.std.specs.Str.{IsUtf8};
ghost use Rattle.serde_json.specs.Data.{Data};
ghost use Rattle.serde_json.specs.Events.{SendsValue};
ghost use Rattle.serde_json.specs.Written.{compact_text, has_float};
ghost use Rattle.report_json.specs.Json.{array_of};

use dns_data::{NoMemory, Octets};
use serde::{Described, Serialize, Serializer};
use std::alloc::Global;

/// What is written as a value of JSON. The texts of its names and data take memory on the way.
pub(crate) trait Written {
    /// The value as which it is written.
    ghost value: { Self → Data };

    /// Writes it.
    fn send<S: Serializer>(&self, alloc: Global, out: &mut S) -> Result<(), S::Error>
        ensures { OnOk result (SendsValue (value self.now) (S.written out.old) (S.written out.new)) };
}

/// Something to be written, and where memory for the texts in it comes from.
#[derive(Drop)]
struct WithMemory<'a, T> {
    alloc: Global,
    written: &'a T,
}

impl<T: Written> Described for WithMemory<'_, T> {
    ghost writes = { λ both. SendsValue (T.value both.written.now) };
}

impl<T: Written> Serialize for WithMemory<'_, T> {
    fn serialize<S: Serializer>(&self, out: &mut S) -> Result<(), S::Error> {
        self.written.send(self.alloc, out)
    }
}

/// The text of a value without a float, with no white space in it.
pub(crate) fn compact_text<T: Written>(alloc: Global, written: &T) -> Result<Vec<u8>, NoMemory>
    requires { has_float (T.value written.now) ≡ false }
    ensures { IfOk result (λ text. text.items ≡ compact_text (T.value written.now)) }
{
    let both = WithMemory { alloc, written };
    let Ok(text) = serde_json::to_vec(alloc, &both) else {
        return Err(NoMemory);
    };
    Ok(text)
}

/// The text of a value without a float, with no white space in it, and a line feed behind it.
pub(crate) fn line_of<T: Written>(alloc: Global, written: &T) -> Result<Octets, NoMemory>
    requires { has_float (T.value written.now) ≡ false }
    ensures text { IfOk result (λ text. text ≡ compact_text (T.value written.now) ++ codes "\n") }
    ensures utf8 { IfOk result (λ text. IsUtf8 text) }
{
    let both = WithMemory { alloc, written };
    let Ok(mut text) = serde_json::to_string(alloc, &both) else {
        return Err(NoMemory);
    };
    text.push('\n')?;
    Ok(Octets::from_vec(text.into_bytes()))
}

/// Writes a list.
pub(crate) fn send_list<T: Written, S: Serializer>(
    alloc: Global,
    list: &[T],
    out: &mut S,
) -> Result<(), S::Error>
    ensures { OnOk result (SendsValue (array_of (map T.value list.now)) (S.written out.old) (S.written out.new)) }
{
    out.begin_seq(Some(list.len()))?;
    for one in list {
        one.send(alloc, out)?;
    }
    out.end_seq()
}
