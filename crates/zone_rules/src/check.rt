//! Zones of records.

ghost use Rattle.std.specs.Prelude.{◌≡◌};
ghost use Rattle.std.specs.Option.{option_map};
ghost use Rattle.dns_data.specs.Answers.{AnswersOr};
ghost use Rattle.dns_data.specs.Name.{is_prefix};
ghost use Rattle.zone_rules.specs.ZoneOf.{zone_of, within, checked};

use crate::apex::{apex_of, is_wildcard};
use crate::fault::{RuleCause, RuleFault};
use crate::identical::first_of_identical;
use crate::rules::check_rules;
use dns_data::{List, Name, Rr};
use net_model::Zone;
use std::alloc::Global;

/// The zone of records in file order, or its first fault: of identical records the first is kept; without an origin,
/// `NoSoa` where no SOA record is there and `TwoSoas` at a second one, else its owner is the origin; `StarOrigin`;
/// records outside are dropped; the others are gone through in file order, and the first rule that one breaks is the
/// fault, with the file and the line of the record; `NoSoa` where no SOA record was among them. A fault that is at no
/// record has file 0 and line 0.
pub fn check_zone(alloc: Global, origin: Option<&Name>, rrs: List<Rr>) -> Result<Zone, RuleFault>
    ensures { AnswersOr RuleFault.NoMemory result (zone_of (option_map (λ name. name.now) origin.entry) rrs) }
{
    let rrs = first_of_identical(alloc, rrs)?;
    let apex = apex_of(alloc, origin, rrs.items())?;
    if is_wildcard(&apex.name) {
        return Err(RuleFault::At {
            file: apex.file,
            line: apex.line,
            cause: RuleCause::StarOrigin,
        });
    }
    let rrs = within(&apex.name, rrs);
    checked(alloc, apex.name, rrs)
}

/// The records at or below an origin, with no more room than they take.
fn within(origin: &Name, rrs: List<Rr>) -> List<Rr>
    ensures { result ≡ within origin.now rrs }
{
    let mut rrs = rrs.into_vec();
    rrs.retain(
        |rr: &Rr| -> bool
            ensures { result ≡ is_prefix origin.entry.now rr.now.owner }
        { origin.is_prefix_of(&rr.owner) },
    );
    rrs.shrink_to_fit();
    List::from_vec(rrs)
}

/// The zone of records that lie at or below the origin.
fn checked(alloc: Global, origin: Name, rrs: List<Rr>) -> Result<Zone, RuleFault>
    ensures { AnswersOr RuleFault.NoMemory result (checked origin rrs) }
{
    check_rules(alloc, &origin, rrs.items())?;
    Ok(Zone { origin, rrs })
}
