//! Names, classes and faults, from values of JSON.

ghost use Rattle.std.specs.Prelude.{◌≡◌, IfOk, Some, option_and_then};
ghost use Rattle.serde_json.specs.View.{view};
ghost use Rattle.part_form.specs.Places.{answers_fault, answers_in, class_in, class_of, cut_fault, cut_in, fault_at, fault_in, name_at, name_of, place_fault, place_in, type_in};

use dns_data::{Name, NameFault, NoMemory, RrType};
use meta_read::text_at;
use net_model::{Class, Cut, Fault, Place};
use serde_json::Value;
use std::alloc::Global;

/// The name for which a text stands.
pub(crate) fn name_of(alloc: Global, text: &str) -> Result<Option<Name>, NoMemory>
    ensures { IfOk result (λ found. found ≡ name_of text.now) }
{
    match Name::from_text(alloc, text.as_bytes(), &Name::root()) {
        Ok(name) => Ok(Some(name)),
        Err(NameFault::NoMemory) => Err(NoMemory),
        Err(_) => Ok(None),
    }
}

/// The name at a key, by its text.
fn name_at(alloc: Global, value: &Value, key: &str) -> Result<Option<Name>, NoMemory>
    ensures { IfOk result (λ found. found ≡ name_at key.now (view value.now)) }
{
    match text_at(value, key) {
        Some(text) => name_of(alloc, text),
        None => Ok(None),
    }
}

/// The class of a word and a name.
fn class_of(word: &[u8], name: Name) -> Option<Class>
    ensures { result ≡ class_of word.now name }
{
    if word == b"exact".as_slice() {
        return Some(Class::Exact(name));
    }
    if word == b"below".as_slice() {
        return Some(Class::Below(name));
    }
    None
}

/// The class of an object: its word at `class`, its name at `name`.
pub(crate) fn class_in(alloc: Global, value: &Value) -> Result<Option<Class>, NoMemory>
    ensures { IfOk result (λ found. found ≡ class_in (view value.now)) }
{
    let Some(word) = text_at(value, "class") else {
        return Ok(None);
    };
    match name_at(alloc, value, "name")? {
        Some(name) => Ok(class_of(word.as_bytes(), name)),
        None => Ok(None),
    }
}

/// The name server of a delegation that an object tells.
fn cut_in(alloc: Global, value: &Value) -> Result<Option<Cut>, NoMemory>
    ensures { IfOk result (λ found. found ≡ cut_in (view value.now)) }
{
    let Some(server) = name_at(alloc, value, "server")? else {
        return Ok(None);
    };
    let Some(zone) = name_at(alloc, value, "zone")? else {
        return Ok(None);
    };
    let Some(cut) = name_at(alloc, value, "cut")? else {
        return Ok(None);
    };
    let Some(ns) = name_at(alloc, value, "ns")? else {
        return Ok(None);
    };
    Ok(Some(Cut {
        server,
        zone,
        cut,
        ns,
    }))
}

/// The place of a rewrite that an object tells.
fn place_in(alloc: Global, value: &Value) -> Result<Option<Place>, NoMemory>
    ensures { IfOk result (λ found. found ≡ place_in (view value.now)) }
{
    let Some(server) = name_at(alloc, value, "server")? else {
        return Ok(None);
    };
    let Some(zone) = name_at(alloc, value, "zone")? else {
        return Ok(None);
    };
    let Some(owner) = name_at(alloc, value, "owner")? else {
        return Ok(None);
    };
    Ok(Some(Place {
        server,
        zone,
        owner,
    }))
}

/// The fault of a delegation whose kind has this word.
fn cut_fault(word: &[u8], cut: Cut) -> Option<Fault>
    ensures { result ≡ cut_fault word.now cut }
{
    if word == b"lame-delegation".as_slice() {
        return Some(Fault::Lame(cut));
    }
    if word == b"delegation-differs".as_slice() {
        return Some(Fault::Differs(cut));
    }
    if word == b"missing-glue".as_slice() {
        return Some(Fault::NoGlue(cut));
    }
    if word == b"glue-differs".as_slice() {
        return Some(Fault::GlueDiffers(cut));
    }
    if word == b"cyclic-dependency".as_slice() {
        return Some(Fault::Cyclic(cut));
    }
    if word == b"no-address".as_slice() {
        return Some(Fault::NoAddress(cut));
    }
    None
}

/// The fault of a rewrite whose kind has this word.
fn place_fault(word: &[u8], place: Place) -> Option<Fault>
    ensures { result ≡ place_fault word.now place }
{
    if word == b"rewrite-limit".as_slice() {
        return Some(Fault::Limit(place));
    }
    if word == b"blackhole".as_slice() {
        return Some(Fault::Blackhole(place));
    }
    if word == b"overlong".as_slice() {
        return Some(Fault::Overlong(place));
    }
    None
}

/// That answers differ, if the word says so.
fn answers_fault(word: &[u8], class: Class, rtype: RrType) -> Option<Fault>
    ensures { result ≡ answers_fault word.now class rtype }
{
    if word == b"answers-differ".as_slice() {
        return Some(Fault::Answers(class, rtype));
    }
    None
}

/// The type at `type`.
fn type_in(value: &Value) -> Option<RrType>
    ensures { result ≡ type_in (view value.now) }
{
    RrType::from_word(text_at(value, "type")?.as_bytes())
}

/// The fault of a delegation with this word and this place.
fn cut_fault_in(alloc: Global, word: &[u8], place: &Value) -> Result<Option<Fault>, NoMemory>
    ensures { IfOk result (λ found. found ≡ option_and_then (cut_fault word.now) (cut_in (view place.now))) }
{
    match cut_in(alloc, place)? {
        Some(cut) => Ok(cut_fault(word, cut)),
        None => Ok(None),
    }
}

/// The fault of a rewrite with this word and this place.
fn place_fault_in(alloc: Global, word: &[u8], place: &Value) -> Result<Option<Fault>, NoMemory>
    ensures { IfOk result (λ found. found ≡ option_and_then (place_fault word.now) (place_in (view place.now))) }
{
    match place_in(alloc, place)? {
        Some(at) => Ok(place_fault(word, at)),
        None => Ok(None),
    }
}

/// That answers differ, of the class and the type that an object tells.
fn answers_in(alloc: Global, word: &[u8], place: &Value) -> Result<Option<Fault>, NoMemory>
    ensures { IfOk result (λ found. found ≡ answers_in word.now (view place.now)) }
{
    let Some(rtype) = type_in(place) else {
        return Ok(None);
    };
    match class_in(alloc, place)? {
        Some(class) => Ok(answers_fault(word, class, rtype)),
        None => Ok(None),
    }
}

/// The fault of a kind with this word and of a place that an object tells.
fn fault_at(alloc: Global, word: &[u8], place: &Value) -> Result<Option<Fault>, NoMemory>
    ensures { IfOk result (λ found. found ≡ fault_at word.now (view place.now)) }
{
    if let Some(fault) = cut_fault_in(alloc, word, place)? {
        return Ok(Some(fault));
    }
    if let Some(fault) = place_fault_in(alloc, word, place)? {
        return Ok(Some(fault));
    }
    answers_in(alloc, word, place)
}

/// The fault of an entry: the word of its kind at `kind`, its place at `place`.
pub(crate) fn fault_in(alloc: Global, entry: &Value) -> Result<Option<Fault>, NoMemory>
    ensures { IfOk result (λ found. found ≡ fault_in (view entry.now)) }
{
    let Some(word) = text_at(entry, "kind") else {
        return Ok(None);
    };
    match entry.get("place") {
        Some(place) => fault_at(alloc, word.as_bytes(), place),
        None => Ok(None),
    }
}
