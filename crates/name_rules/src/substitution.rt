//! Substitution by DNAME records (RFC 6672 section 2.2).

ghost use Rattle.std.specs.Prelude.{◌≡◌, ◌↔◌, ◌+◌, ◌<◌, ◌≤◌, true, length, drop, IsTrue, IfOk, IsErrOf};
ghost use Rattle.dns_data.specs.Name.{is_prefix, wire_octets, swap};
ghost use Rattle.name_rules.specs.SymName.{whole, tail_labels, swap_sym};

use crate::sym_name::SymName;
use dns_data::{JoinFault, Label, Labels, Name, NoMemory};
use std::alloc::Global;

/// Whether the name with the target's labels in the owner's place has at most 255 octets. It takes no memory.
pub fn fits(name: &Name, owner: &Name, target: &Name) -> bool
    requires { is_prefix owner.now name.now ≡ true }
    ensures { IsTrue result ↔ (wire_octets (swap name.now owner.now target.now) ≤ 255) }
{
    swapped_octets(name, owner, target) <= 255
}

/// The name with the target's labels in the owner's place. It is `TooLong` where that name would have more than 255
/// octets.
pub fn substitute(
    alloc: Global,
    name: &Name,
    owner: &Name,
    target: &Name,
) -> Result<Name, JoinFault>
    ensures ok { IfOk result (λ made. made ≡ swap name.now owner.now target.now) }
    ensures too_long { IsErrOf result JoinFault.TooLong ↔ (255 < wire_octets (swap name.now owner.now target.now)) }
{
    target.join_labels(alloc, &labels_below(name, owner))
}

/// The name with an open tail with the target's labels in the owner's place, and with its tail. It is `TooLong` where
/// the name that it makes would have more than 255 octets with the tail. The owner may be the known name itself, which
/// lies above a name with a tail.
pub fn substitute_sym(
    alloc: Global,
    name: &SymName,
    owner: &Name,
    target: &Name,
) -> Result<SymName, JoinFault>
    requires { is_prefix owner.now name.now.known ≡ true }
    ensures ok { IfOk result (λ made. made ≡ swap_sym name.now owner.now target.now) }
    ensures too_long { IsErrOf result JoinFault.TooLong ↔ (255 < wire_octets (whole (swap_sym name.now owner.now target.now))) }
{
    if !fits_with_tail(name, owner, target) {
        return Err(JoinFault::TooLong);
    }
    let known = substitute(alloc, &name.known, owner, target)?;
    let tail = copy_tail(alloc, &name.tail)?;
    Ok(SymName { known, tail })
}

/// The name with its tail, the target's labels in the owner's place. It is `TooLong` where that name would have more than
/// 255 octets. The owner may be the known name itself, which lies above a name with a tail.
pub(crate) fn substitute_whole(
    alloc: Global,
    name: &SymName,
    owner: &Name,
    target: &Name,
) -> Result<Name, JoinFault>
    requires { is_prefix owner.now name.now.known ≡ true }
    ensures ok { IfOk result (λ made. made ≡ swap (whole name.now) owner.now target.now) }
    ensures too_long { IsErrOf result JoinFault.TooLong ↔ (255 < wire_octets (swap (whole name.now) owner.now target.now)) }
{
    if !fits_with_tail(name, owner, target) {
        return Err(JoinFault::TooLong);
    }
    let mut made = substitute(alloc, &name.known, owner, target)?;
    if let Some(label) = &name.tail {
        made.push(alloc, label)?;
    }
    Ok(made)
}

/// Whether the name with its tail, the target's labels in the owner's place, has at most 255 octets.
fn fits_with_tail(name: &SymName, owner: &Name, target: &Name) -> bool
    requires { is_prefix owner.now name.now.known ≡ true }
    ensures { IsTrue result ↔ (wire_octets (whole (swap_sym name.now owner.now target.now)) ≤ 255) }
{
    swapped_octets(&name.known, owner, target) + tail_octets(&name.tail) <= 255
}

/// How many octets the name with the target's labels in the owner's place has.
fn swapped_octets(name: &Name, owner: &Name, target: &Name) -> u32
    requires { is_prefix owner.now name.now ≡ true }
    ensures value { result ≡ wire_octets (swap name.now owner.now target.now) }
    ensures within { result ≤ 510 }
{
    target.octets() + (name.octets() - owner.octets())
}

/// The labels of a name behind as many as the owner has.
fn labels_below<'a>(name: &'a Name, owner: &Name) -> Labels<'a>
    ensures { result ≡ drop (length owner.now) name.now }
{
    let mut below = name.labels();
    for _ in 0..owner.len() {
        below.next();
    }
    below
}

/// How many octets a tail takes in a name.
fn tail_octets(tail: &Option<Label>) -> u32
    ensures value { result + 1 ≡ wire_octets (tail_labels tail.now) }
    ensures within { result ≤ 64 }
{
    match tail {
        Some(label) => label.octets(),
        None => 0,
    }
}

/// An equal tail.
fn copy_tail(alloc: Global, tail: &Option<Label>) -> Result<Option<Label>, NoMemory>
    ensures { IfOk result (λ copy. copy ≡ tail.now) }
{
    match tail {
        Some(label) => Ok(Some(label.copy(alloc)?)),
        None => Ok(None),
    }
}
