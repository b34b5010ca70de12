//! Faults: the word of their kind, and their place.

ghost use Rattle.std.specs.Prelude.{◌≡◌, OnOk};
ghost use Rattle.serde_json.specs.Events.{SendsValue};
ghost use Rattle.net_model.specs.Class.{class_name};
ghost use Rattle.report_json.specs.Faults.{kind_word, cut_value, place_value, class_kind, class_value, fault_value};

use crate::object::{name, send_object, word};
use dns_data::{Name, RrType};
use net_model::{Class, Cut, Fault, Place};
use serde::Serializer;
use std::alloc::Global;

/// The word of a kind of fault.
pub(crate) fn kind_word(fault: &Fault) -> &'static str
    ensures { result.now ≡ kind_word fault.now }
{
    match fault {
        Fault::Lame(_) => "lame-delegation",
        Fault::Differs(_) => "delegation-differs",
        Fault::NoGlue(_) => "missing-glue",
        Fault::GlueDiffers(_) => "glue-differs",
        Fault::Cyclic(_) => "cyclic-dependency",
        Fault::Limit(_) => "rewrite-limit",
        Fault::Blackhole(_) => "blackhole",
        Fault::Answers(_, _) => "answers-differ",
        Fault::Overlong(_) => "overlong",
        Fault::NoAddress(_) => "no-address",
    }
}

/// Writes the place of a fault.
pub(crate) fn send_fault<S: Serializer>(
    alloc: Global,
    fault: &Fault,
    out: &mut S,
) -> Result<(), S::Error>
    ensures { OnOk result (SendsValue (fault_value fault.now) (S.written out.old) (S.written out.new)) }
{
    match fault {
        Fault::Lame(cut) => send_cut(alloc, cut, out),
        Fault::Differs(cut) => send_cut(alloc, cut, out),
        Fault::NoGlue(cut) => send_cut(alloc, cut, out),
        Fault::GlueDiffers(cut) => send_cut(alloc, cut, out),
        Fault::Cyclic(cut) => send_cut(alloc, cut, out),
        Fault::Limit(place) => send_place(alloc, place, out),
        Fault::Blackhole(place) => send_place(alloc, place, out),
        Fault::Answers(class, rtype) => send_class(alloc, class, *rtype, out),
        Fault::Overlong(place) => send_place(alloc, place, out),
        Fault::NoAddress(cut) => send_cut(alloc, cut, out),
    }
}

/// Writes the place of a fault of a delegation.
fn send_cut<S: Serializer>(alloc: Global, cut: &Cut, out: &mut S) -> Result<(), S::Error>
    ensures { OnOk result (SendsValue (cut_value cut.now) (S.written out.old) (S.written out.new)) }
{
    let members = [
        name("cut", &cut.cut),
        name("ns", &cut.ns),
        name("server", &cut.server),
    ];
    send_object(alloc, members.as_slice(), Some(&cut.zone), out)
}

/// Writes the place of a rewrite.
fn send_place<S: Serializer>(alloc: Global, place: &Place, out: &mut S) -> Result<(), S::Error>
    ensures { OnOk result (SendsValue (place_value place.now) (S.written out.old) (S.written out.new)) }
{
    let members = [name("owner", &place.owner), name("server", &place.server)];
    send_object(alloc, members.as_slice(), Some(&place.zone), out)
}

/// Writes a class and a type.
fn send_class<S: Serializer>(
    alloc: Global,
    class: &Class,
    rtype: RrType,
    out: &mut S,
) -> Result<(), S::Error>
    ensures { OnOk result (SendsValue (class_value class.now rtype) (S.written out.old) (S.written out.new)) }
{
    let members = [
        word("class", class_kind(class)),
        name("name", class_name(class)),
        word("type", rtype.word()),
    ];
    send_object(alloc, members.as_slice(), None, out)
}

/// What a class is of.
fn class_kind(class: &Class) -> &'static str
    ensures { result.now ≡ class_kind class.now }
{
    match class {
        Class::Exact(_) => "exact",
        Class::Below(_) => "below",
    }
}

/// The name of a class.
fn class_name(class: &Class) -> &Name
    ensures { result.now ≡ class_name class.now }
{
    match class {
        Class::Exact(name) => name,
        Class::Below(name) => name,
    }
}
