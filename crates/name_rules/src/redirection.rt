//! What a DNAME record answers (RFC 6672 section 2.2).

ghost use Rattle.std.specs.Prelude.{◌≡◌, ◌↔◌, ◌<◌, Some, true, IfOk, IsErrOf};
ghost use Rattle.std.specs.Option.{option_map};
ghost use Rattle.dns_data.specs.Name.{Labels, is_prefix, swap, wire_octets};
ghost use Rattle.net_model.specs.Lookup.{redirected};
ghost use Rattle.name_rules.specs.SymName.{whole};

use crate::substitution::{substitute, substitute_whole};
use crate::sym_name::SymName;
use dns_data::{JoinFault, Name, NoMemory};
use net_model::Found;
use std::alloc::Global;

/// What an owner whose DNAME record has this target answers for a name below it (RFC 6672 section 2.2).
pub fn redirected(
    alloc: Global,
    name: &Name,
    owner: &Name,
    target: Option<&Name>,
) -> Result<Found, NoMemory>
    ensures { IfOk result (λ answer. answer ≡ redirected name.now owner.now (option_map (λ target. target.now) target.entry)) }
{
    match target {
        Some(target) => answer_with(alloc, owner, substitute(alloc, name, owner, target)),
        None => Ok(Found::NxDomain),
    }
}

/// What an owner whose DNAME record has this target answers for a name with its tail. The owner may be the known name
/// itself, which lies above a name with a tail (RFC 6672 section 2.2).
pub fn redirected_whole(
    alloc: Global,
    name: &SymName,
    owner: &Name,
    target: Option<&Name>,
) -> Result<Found, NoMemory>
    requires { is_prefix owner.now name.now.known ≡ true }
    ensures { IfOk result (λ answer. answer ≡ redirected (whole name.now) owner.now (option_map (λ target. target.now) target.entry)) }
{
    match target {
        Some(target) => answer_with(alloc, owner, substitute_whole(alloc, name, owner, target)),
        None => Ok(Found::NxDomain),
    }
}

/// What an owner answers by the name that the substitution made, or that it would have made.
fn answer_with(
    alloc: Global,
    owner: &Name,
    made: Result<Name, JoinFault>,
) -> Result<Found, NoMemory>
    ensures { (name target : Labels) → IfOk made (λ to. to ≡ swap name owner.now target) → (IsErrOf made JoinFault.TooLong ↔ (255 < wire_octets (swap name owner.now target)))
        → IfOk result (λ answer. answer ≡ redirected name owner.now (Some target)) }
{
    match made {
        Ok(to) => Ok(Found::Rewrite {
            by_dname: true,
            owner: owner.copy(alloc)?,
            to,
        }),
        Err(JoinFault::TooLong) => Ok(Found::TooLong {
            owner: owner.copy(alloc)?,
        }),
        Err(JoinFault::NoMemory) => Err(NoMemory),
    }
}
