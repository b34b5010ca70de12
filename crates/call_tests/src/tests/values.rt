//! Names and records.

use super::configs::{alone, first_zone, spells};
use dns_data::{Label, Name, NameFault, Rr};
use net_model::Config;
use std::alloc::Global;
use std::test::Fail;

// A to Z are folded (RFC 4343 section 3).
#[test]
fn labels_make_a_name_and_are_put_below_it(rt: HostRuntime) -> Result<(), Fail> {
    let label = Label::from_octets(rt.alloc(), b"A")?;
    assert!(rt; make_twice(rt.alloc(), &[label], "a.a.")?);
    Ok(())
}

/// Whether the name of the labels with the labels below it again is the one that the text spells.
fn make_twice(alloc: Global, labels: &[Label], text: &str) -> Result<bool, NameFault> {
    let above = Name::from_labels(alloc, labels)?;
    match above.join(alloc, labels) {
        Ok(below) => Ok(spells(alloc, text, &below)),
        Err(_) => Ok(false),
    }
}

#[test]
fn a_record_has_a_copy(rt: HostRuntime) -> Result<(), Fail> {
    let config = alone(rt.alloc(), "t. 60 SOA ns.t. h.t. 1 2 3 4 5\n")?;
    assert!(rt; first_record_has_copy(rt.alloc(), &config));
    Ok(())
}

/// Whether the first record of the first zone has a copy, which `t.` owns.
fn first_record_has_copy(alloc: Global, config: &Config) -> bool {
    match first_zone(config) {
        Some(zone) => match zone.rrs.items().first() {
            Some(rr) => has_copy(alloc, rr),
            None => false,
        },
        None => false,
    }
}

/// Whether the record has a copy, which `t.` owns.
fn has_copy(alloc: Global, rr: &Rr) -> bool {
    match rr.copy(alloc) {
        Ok(copy) => spells(alloc, "t.", &copy.owner),
        Err(_) => false,
    }
}
