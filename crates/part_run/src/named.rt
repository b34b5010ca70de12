//! The names of places and bounds, of which contracts then know that they are names.

ghost use Rattle.net_model.specs.Class.{class_name};
ghost use Rattle.dns_data.specs.Name.{IsName};
ghost use Rattle.part_form.specs.Written.{IsNamedBound, IsNamedCut, IsNamedFault, IsNamedPlace};

use dns_data::Name;
use net_model::{Class, Cut, Fault, Place};

/// The names of a fault's place are names.
pub(crate) fn fault_is_named(fault: &Fault)
    ensures { IsNamedFault fault.now }
{
    match fault {
        Fault::Lame(cut) => cut_is_named(cut),
        Fault::Differs(cut) => cut_is_named(cut),
        Fault::NoGlue(cut) => cut_is_named(cut),
        Fault::GlueDiffers(cut) => cut_is_named(cut),
        Fault::Cyclic(cut) => cut_is_named(cut),
        Fault::Limit(place) => place_is_named(place),
        Fault::Blackhole(place) => place_is_named(place),
        Fault::Answers(class, _) => class_is_named(class),
        Fault::Overlong(place) => place_is_named(place),
        Fault::NoAddress(cut) => cut_is_named(cut),
    }
}

/// The four names of a name server of a delegation are names.
fn cut_is_named(cut: &Cut)
    ensures { IsNamedCut cut.now }
{
    let _ = cut.server.labels();
    let _ = cut.zone.labels();
    let _ = cut.cut.labels();
    let _ = cut.ns.labels();
}

/// The three names of the place of a rewrite are names.
fn place_is_named(place: &Place)
    ensures { IsNamedPlace place.now }
{
    let _ = place.server.labels();
    let _ = place.zone.labels();
    let _ = place.owner.labels();
}

/// The name by which a class goes is a name.
pub(crate) fn class_is_named(class: &Class)
    ensures { IsName (class_name class.now) }
{
    match class {
        Class::Exact(alone) => name_is_named(alone),
        Class::Below(above) => name_is_named(above),
    }
}

/// A bound is a name, if there is one.
pub(crate) fn bound_is_named(bound: &Option<Name>)
    ensures { IsNamedBound bound.now }
{
    match bound {
        Some(name) => name_is_named(name),
        None => (),
    }
}

/// A name is one: its labels are read.
fn name_is_named(name: &Name)
    ensures { IsName name.now }
{
    let _ = name.labels();
}
