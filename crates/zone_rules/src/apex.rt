//! The origin of a zone.

ghost use Rattle.std.specs.Prelude.{◌≡◌, map, IfOk};
ghost use Rattle.std.specs.List.{filter};
ghost use Rattle.std.specs.Option.{option_map};
ghost use Rattle.dns_data.specs.Answers.{AnswersOr};
ghost use Rattle.zone_rules.specs.Apex.{apex_of, apex_of_soas, is_type, is_wildcard};

use crate::fault::{RuleCause, RuleFault};
use crate::types::is_soa;
use dns_data::{Name, NoMemory, Rr, RrType};
use std::alloc::Global;

/// The origin of a zone, with the file and the line of the SOA record that states it, or 0 and 0.
#[derive(Drop)]
pub(crate) struct Apex {
    pub name: Name,
    pub file: u32,
    pub line: u32,
}

/// The origin that is given, or else the owner of the only SOA record.
pub(crate) fn apex_of(alloc: Global, origin: Option<&Name>, rrs: &[Rr]) -> Result<Apex, RuleFault>
    ensures { AnswersOr RuleFault.NoMemory result (apex_of (option_map (λ origin. origin.now) origin.entry) rrs.now) }
{
    match origin {
        Some(origin) => Ok(Apex {
            name: origin.copy(alloc)?,
            file: 0,
            line: 0,
        }),
        None => apex_of_soas(alloc, soas_of(alloc, rrs)?.as_slice()),
    }
}

/// The SOA records, in file order.
fn soas_of<'a>(alloc: Global, rrs: &'a [Rr]) -> Result<Vec<&'a Rr>, NoMemory>
    ensures { IfOk result (λ soas. map (λ rr. rr.now) soas.items ≡ filter (is_type RrType.Soa) rrs.now) }
{
    let mut soas = Vec::new(alloc);
    for rr in rrs {
        if is_soa(rr) {
            soas.push(rr)?;
        }
    }
    Ok(soas)
}

/// The owner of the only SOA record of these.
fn apex_of_soas(alloc: Global, soas: &[&Rr]) -> Result<Apex, RuleFault>
    ensures { AnswersOr RuleFault.NoMemory result (apex_of_soas (map (λ rr. rr.now) soas.now)) }
{
    match soas {
        [] => Err(RuleFault::At {
            file: 0,
            line: 0,
            cause: RuleCause::NoSoa,
        }),
        [soa] => Ok(Apex {
            name: soa.owner.copy(alloc)?,
            file: soa.file,
            line: soa.line,
        }),
        [_, second, ..] => Err(RuleFault::At {
            file: second.file,
            line: second.line,
            cause: RuleCause::TwoSoas,
        }),
    }
}

/// Whether the name's leftmost label is the asterisk label (RFC 4592 section 2.1.1).
#[tactic(auto, using(crate::proofs::Wildcards::said_first, crate::proofs::Wildcards::said_next))]
pub(crate) fn is_wildcard(name: &Name) -> bool
    ensures { result ≡ is_wildcard name.now }
{
    let mut labels = name.labels();
    let mut is_asterisk = false;
    while let Some(label) = labels.next() {
        is_asterisk = label == b"*".as_slice();
    }
    is_asterisk
}
