//! The text of the report of a part, from the texts of its entries.

ghost use Rattle.std.specs.Prelude.{◌≡◌, ◌++◌, codes, decimal, false, option_map, IfOk, OnOk};
ghost use Rattle.std.specs.Str.{IsUtf8};
ghost use Rattle.std.specs.String.{string_bytes};
ghost use Rattle.net_model.specs.Class.{class_name};
ghost use Rattle.report_json.specs.Faults.{class_kind};
ghost use Rattle.report_json.specs.Json.{name_value};
ghost use Rattle.serde_json.specs.Data.{string};
ghost use Rattle.serde_json.specs.Events.{SendsValue};
ghost use Rattle.serde_json.specs.Written.{compact_text};
ghost use Rattle.part_form.specs.PartText.{WrittenPart, part_text};
ghost use Rattle.part_texts.specs.Writing.{AreOfPart, bound_text, comma_before, entry_words, listed};

use dns_data::{Name, NoMemory, Octets, Text};
use itoa::Buffer;
use net_model::Class;
use serde::{Described, Serialize, Serializer};
use std::alloc::Global;

/// The numbers of the report of a part: how many own classes and own names it has, and how many rewrites a query may use.
#[derive(Clone, Copy, Debug)]
pub struct PartNumbers {
    pub classes: u64,
    pub names: u64,
    pub rewrites: u32,
}

/// An entry of the report of a part: its class, and its text in a report.
#[derive(Debug, Drop)]
pub struct ClassedText {
    pub class: Class,
    pub text: Text,
}

/// The text of the report of a part, in UTF-8: where its own names begin, and which is the first name behind them, if there
/// are such names; its numbers; and its entries, in order.
pub fn part_text(
    alloc: Global,
    from: Option<&Name>,
    to: Option<&Name>,
    numbers: PartNumbers,
    entries: &[ClassedText],
) -> Result<Octets, NoMemory>
    ensures text { IfOk result (λ text. (part : WrittenPart)
        → AreOfPart (option_map (λ name. name.now) from.entry) (option_map (λ name. name.now) to.entry) numbers entries.now part → text ≡ part_text part) }
    ensures utf8 { IfOk result (λ text. IsUtf8 text) }
{
    let mut text = String::new(alloc);
    put_number(&mut text, "{\"classes\":", numbers.classes)?;
    put_entries(alloc, &mut text, entries)?;
    put_bound(alloc, &mut text, "],\"from\":", from)?;
    put_number(&mut text, ",\"names\":", numbers.names)?;
    put_number(&mut text, ",\"rewrites\":", u64::from(numbers.rewrites))?;
    put_bound(alloc, &mut text, ",\"to\":", to)?;
    text.push_str("}\n")?;
    Ok(Octets::from_vec(text.into_bytes()))
}

/// Puts a front and a number at the end.
fn put_number(text: &mut String, front: &str, number: u64) -> Result<(), NoMemory>
    ensures { OnOk result (string_bytes text.new ≡ string_bytes text.old ++ (front.now ++ decimal number)) }
{
    let mut digits = Buffer::new();
    text.push_str(front)?;
    text.push_str(digits.format(number))?;
    Ok(())
}

/// Puts a front and a bound at the end: a name as JSON, or null where there is none.
fn put_bound(
    alloc: Global,
    text: &mut String,
    front: &str,
    bound: Option<&Name>,
) -> Result<(), NoMemory>
    ensures { OnOk result (string_bytes text.new ≡ string_bytes text.old ++ (front.now ++ bound_text (option_map (λ name. name.now) bound.entry))) }
{
    text.push_str(front)?;
    match bound {
        Some(name) => put_name(alloc, text, name),
        None => put_null(text),
    }
}

/// Puts null at the end.
fn put_null(text: &mut String) -> Result<(), NoMemory>
    ensures { OnOk result (string_bytes text.new ≡ string_bytes text.old ++ codes "null") }
{
    text.push_str("null")?;
    Ok(())
}

/// Puts a name at the end, as JSON.
fn put_name(alloc: Global, text: &mut String, name: &Name) -> Result<(), NoMemory>
    ensures { OnOk result (string_bytes text.new ≡ string_bytes text.old ++ compact_text (name_value name.now)) }
{
    let name = quoted_name(alloc, name)?;
    text.push_str(name.as_str())?;
    Ok(())
}

/// A name as JSON.
fn quoted_name(alloc: Global, name: &Name) -> Result<String, NoMemory>
    ensures { IfOk result (λ text. string_bytes text ≡ compact_text (name_value name.now)) }
{
    let name = NameToWrite {
        text: Text::from_string(name.to_text(alloc)?),
    };
    let Ok(text) = serde_json::to_string(alloc, &name) else {
        return Err(NoMemory);
    };
    Ok(text)
}

/// A name that is written as its text.
#[derive(Drop)]
struct NameToWrite {
    text: Text,
}

impl Described for NameToWrite {
    ghost writes = { λ name. SendsValue (string name.text) };
}

impl Serialize for NameToWrite {
    fn serialize<S: Serializer>(&self, out: &mut S) -> Result<(), S::Error> {
        out.str(self.text.as_str())
    }
}

/// Puts entries at the end, with what stands in front of them.
fn put_entries(alloc: Global, text: &mut String, entries: &[ClassedText]) -> Result<(), NoMemory>
    ensures { OnOk result (string_bytes text.new ≡ string_bytes text.old ++ (codes ",\"faults\":[" ++ listed false entries.now)) }
{
    text.push_str(",\"faults\":[")?;
    for (i, entry) in entries.iter().enumerate() {
        text.push_str(comma_before(i))?;
        put_entry(alloc, text, entry)?;
    }
    Ok(())
}

/// What stands before the entry of this place, counted from 0: a comma, but before the first nothing.
fn comma_before(place: usize) -> &'static str
    ensures { result.now ≡ comma_before place }
{
    if place == 0 { "" } else { "," }
}

/// Puts an entry at the end, with its class.
fn put_entry(alloc: Global, text: &mut String, entry: &ClassedText) -> Result<(), NoMemory>
    ensures { OnOk result (string_bytes text.new ≡ string_bytes text.old ++ entry_words entry.now) }
{
    text.push_str("{\"class\":\"")?;
    text.push_str(class_kind(&entry.class))?;
    text.push_str("\",\"entry\":")?;
    text.push_str(entry.text.as_str())?;
    text.push_str(",\"name\":")?;
    put_name(alloc, text, class_name(&entry.class))?;
    text.push_str("}")?;
    Ok(())
}

/// The word for what a class has: one name, or the unnamed names below one.
fn class_kind(class: &Class) -> &'static str
    ensures { result.now ≡ class_kind class.now }
{
    match class {
        Class::Exact(_) => "exact",
        Class::Below(_) => "below",
    }
}

/// The name by which a class goes.
fn class_name(class: &Class) -> &Name
    ensures { result.now ≡ class_name class.now }
{
    match class {
        Class::Exact(alone) => alone,
        Class::Below(above) => above,
    }
}
