//! Objects of JSON whose members are words, names and texts of data.

ghost use Rattle.std.specs.Prelude.{◌≡◌, ◌≤◌, ◌++◌, length, map, IfOk, OnOk};
ghost use Rattle.std.specs.Option.{option_map};
ghost use Rattle.std.specs.String.{string_bytes};
ghost use Rattle.dns_data.specs.DataText.{data_text};
ghost use Rattle.serde_json.specs.Data.{string};
ghost use Rattle.serde_json.specs.Events.{SendsValue, SendsMembers};
ghost use Rattle.report_json.specs.Json.{json_members, object_of, name_value, data_value, texts_value};
ghost use Rattle.report_json.specs.Members.{part_value, member_of};
ghost use Rattle.report_json.specs.Walks.{zone_member};

use crate::written::Written;
use dns_data::{Name, NoMemory, Rdata, rdata_text};
use serde::Serializer;
use std::alloc::Global;

impl Written for Name {
    ghost value = { name_value };

    fn send<S: Serializer>(&self, alloc: Global, out: &mut S) -> Result<(), S::Error> {
        send_name(alloc, self, out)
    }
}

/// A member of an object.
#[derive(Clone, Copy)]
pub(crate) struct Member<'a> {
    pub key: &'static str,
    pub value: Part<'a>,
}

/// What a member may hold.
#[derive(Clone, Copy)]
pub(crate) enum Part<'a> {
    Word(&'static str),
    Name(&'a Name),
    Texts(&'a [Rdata]),
}

/// A member that holds a word.
pub(crate) fn word<'a>(key: &'static str, word: &'static str) -> Member<'a>
    ensures { member_of result ≡ (key.entry.now, string word.entry.now) }
{
    Member {
        key,
        value: Part::Word(word),
    }
}

/// A member that holds a name.
pub(crate) fn name<'a>(key: &'static str, name: &'a Name) -> Member<'a>
    ensures { member_of result ≡ (key.entry.now, name_value name.entry.now) }
{
    Member {
        key,
        value: Part::Name(name),
    }
}

/// A member that holds texts of data.
pub(crate) fn texts<'a>(key: &'static str, rdata: &'a [Rdata]) -> Member<'a>
    ensures { member_of result ≡ (key.entry.now, texts_value rdata.entry.now) }
{
    Member {
        key,
        value: Part::Texts(rdata),
    }
}

/// Writes an object of these members, and of the zone where there is one.
pub(crate) fn send_object<S: Serializer>(
    alloc: Global,
    members: &[Member<'_>],
    zone: Option<&Name>,
    out: &mut S,
) -> Result<(), S::Error>
    ensures { OnOk result (SendsValue (object_of (map member_of members.now ++ zone_member (option_map (λ zone. zone.now) zone.entry)))
        (S.written out.old) (S.written out.new)) }
{
    out.begin_map(Some(members.len() + zone_count(zone)))?;
    for member in members {
        out.key(member.key)?;
        send_part(alloc, &member.value, out)?;
    }
    send_last(alloc, zone, out)
}

/// How many members the zone makes.
fn zone_count(zone: Option<&Name>) -> usize
    ensures value { result ≡ length (zone_member (option_map (λ zone. zone.now) zone.entry)) }
    ensures within { result ≤ 1 }
{
    match zone {
        Some(_) => 1,
        None => 0,
    }
}

/// Writes the zone, where there is one, as the last member of an object.
fn send_last<S: Serializer>(alloc: Global, zone: Option<&Name>, out: &mut S) -> Result<(), S::Error>
    ensures { OnOk result (SendsMembers (json_members (zone_member (option_map (λ zone. zone.now) zone.entry)))
        (S.written out.old) (S.written out.new)) }
{
    match zone {
        Some(zone) => {
            out.key("zone")?;
            send_name(alloc, zone, out)?;
            out.end_map()
        }
        None => out.end_map(),
    }
}

/// Writes what a member holds.
fn send_part<S: Serializer>(alloc: Global, part: &Part<'_>, out: &mut S) -> Result<(), S::Error>
    ensures { OnOk result (SendsValue (part_value part.now) (S.written out.old) (S.written out.new)) }
{
    match part {
        Part::Word(word) => out.str(word),
        Part::Name(name) => send_name(alloc, name, out),
        Part::Texts(rdata) => send_texts(alloc, rdata, out),
    }
}

/// Writes the text of a name.
pub(crate) fn send_name<S: Serializer>(
    alloc: Global,
    name: &Name,
    out: &mut S,
) -> Result<(), S::Error>
    ensures { OnOk result (SendsValue (name_value name.now) (S.written out.old) (S.written out.new)) }
{
    match name.to_text(alloc) {
        Ok(text) => out.str(text.as_str()),
        Err(NoMemory) => Err(out.custom("no memory")),
    }
}

/// Writes the list of the texts of data.
fn send_texts<S: Serializer>(alloc: Global, rdata: &[Rdata], out: &mut S) -> Result<(), S::Error>
    ensures { OnOk result (SendsValue (texts_value rdata.now) (S.written out.old) (S.written out.new)) }
{
    out.begin_seq(Some(rdata.len()))?;
    for one in rdata {
        send_data(alloc, one, out)?;
    }
    out.end_seq()
}

/// Writes the text of data.
fn send_data<S: Serializer>(alloc: Global, rdata: &Rdata, out: &mut S) -> Result<(), S::Error>
    ensures { OnOk result (SendsValue (data_value rdata.now) (S.written out.old) (S.written out.new)) }
{
    match text_of(alloc, rdata) {
        Ok(printed) => out.str(printed.as_str()),
        Err(NoMemory) => Err(out.custom("no memory")),
    }
}

/// The text of data: without an octet where they are of none of the twelve types.
fn text_of(alloc: Global, rdata: &Rdata) -> Result<String, NoMemory>
    ensures { IfOk result (λ text. string_bytes text ≡ data_text rdata.now) }
{
    if let Rdata::Other { .. } = rdata {
        return Ok(String::new(alloc));
    }
    rdata_text(alloc, rdata)
}
