//! What is asked of the names outside of a part: that they are long, and apart from redirections.

ghost use Rattle.std.specs.Prelude.{◌≡◌, false, All, Contains, IfErr, OnOk};
ghost use Rattle.dns_data.specs.Name.{Labels};
ghost use Rattle.label_graph.specs.Pairs.{redirection};
ghost use Rattle.net_model.specs.Reading.{IsNamed, ground_of};
ghost use Rattle.base_names.specs.Base.{zone_redirections};
ghost use Rattle.part_checks.specs.Outside.{parent, IsApart};
ghost use Rattle.part_checks.specs.Claims.{last_octets};
ghost use Rattle.part_checks.specs.Rules.{Refutes};
ghost use Rattle.part_checks.specs.Short.{HasShorter, is_shorter};
ghost use Rattle.part_laws.specs.Part.{HasShorterUnnamed};

use crate::fault::{PartFault, PartRule};
use crate::lasting::parent_of;
use base_names::base_graph;
use dns_data::Name;
use label_graph::{LabelGraph, Pair, put_pairs};
use net_model::{Class, Config, Zone};
use query_classes::representative;
use std::alloc::Global;
use zone_lookup::Hosts;

/// Checks that each of these names is longer than the representative of the class right below the name above it, which is
/// a base name of the configuration.
pub(crate) fn check_short(alloc: Global, config: &Config, outside: &[Name]) -> Result<(), PartFault>
    requires { (name : Labels) → Contains outside.now name → Contains (ground_of config.now).names (parent name) }
    ensures longer { OnOk result (All (HasShorter (ground_of config.now)) outside.now) }
    ensures refused { IfErr result (Refutes (λ rule. All (λ name. PartRule.Short ≡ rule → HasShorterUnnamed (ground_of config.now) (parent name) (last_octets name)) outside.now)) }
{
    let hosts = Hosts::build(alloc, config)?;
    let graph = base_graph(alloc, &hosts)?;
    check_longer_all(alloc, &graph, outside)
}

/// Checks that each of these names is longer than the representative of the class right below the name above it, in this
/// graph.
fn check_longer_all(alloc: Global, graph: &LabelGraph, outside: &[Name]) -> Result<(), PartFault>
    requires { (name : Labels) → Contains outside.now name → IsNamed graph.now (parent name) }
    ensures longer { OnOk result (All (HasShorter graph.now) outside.now) }
    ensures refused { IfErr result (Refutes (λ rule. All (λ name. PartRule.Short ≡ rule → HasShorterUnnamed graph.now (parent name) (last_octets name)) outside.now)) }
{
    for name in outside {
        check_longer(alloc, graph, name)?;
    }
    Ok(())
}

/// Checks that a name is longer than the representative of the class right below the name above it.
fn check_longer(alloc: Global, graph: &LabelGraph, name: &Name) -> Result<(), PartFault>
    requires { IsNamed graph.now (parent name.now) }
    ensures longer { OnOk result (HasShorter graph.now name.now) }
    ensures refused { IfErr result (Refutes (λ rule. PartRule.Short ≡ rule → HasShorterUnnamed graph.now (parent name.now) (last_octets name.now))) }
{
    // The labels are read, so that it is known here that they are those of a name.
    let _ = name.labels();
    let below = Class::Below(parent_of(alloc, name)?);
    let first = representative(alloc, graph, &below)?;
    if is_shorter(&first, name) {
        return Ok(());
    }
    Err(PartFault::Breaks(PartRule::Short, name.copy(alloc)?))
}

/// Whether there is a first name, with fewer octets than another.
fn is_shorter(first: &Option<Name>, name: &Name) -> bool
    ensures { result ≡ is_shorter first.now name.now }
{
    match first {
        Some(one) => one.octets() < name.octets(),
        None => false,
    }
}

/// Checks that no name right above one of these is at or below the owner or the target of a redirection of these zones.
pub(crate) fn check_apart(alloc: Global, zones: &[&Zone], outside: &[Name]) -> Result<(), PartFault>
    ensures apart { OnOk result (All (λ zone. All (λ one. All (IsApart one) outside.now) (zone_redirections zone.now)) zones.now) }
    ensures refused { IfErr result (Refutes (λ rule. All (λ zone. All (λ one. All (λ name. PartRule.Apart ≡ rule → IsApart one name) outside.now) (zone_redirections zone.now)) zones.now)) }
{
    for zone in zones {
        zone_apart(alloc, *zone, outside)?;
    }
    Ok(())
}

/// Checks it of the redirections of a zone.
fn zone_apart(alloc: Global, zone: &Zone, outside: &[Name]) -> Result<(), PartFault>
    ensures apart { OnOk result (All (λ one. All (IsApart one) outside.now) (zone_redirections zone.now)) }
    ensures refused { IfErr result (Refutes (λ rule. All (λ one. All (λ name. PartRule.Apart ≡ rule → IsApart one name) outside.now) (zone_redirections zone.now))) }
{
    let mut pairs = Vec::new(alloc);
    put_pairs(alloc, zone.rrs.items(), &mut pairs)?;
    pairs_apart(alloc, pairs.as_slice(), outside)
}

/// Checks it of pairs of DNAME records.
fn pairs_apart(alloc: Global, pairs: &[Pair], outside: &[Name]) -> Result<(), PartFault>
    ensures apart { OnOk result (All (λ pair. All (IsApart (redirection pair)) outside.now) pairs.now) }
    ensures refused { IfErr result (Refutes (λ rule. All (λ pair. All (λ name. PartRule.Apart ≡ rule → IsApart (redirection pair) name) outside.now) pairs.now)) }
{
    for pair in pairs {
        pair_apart(alloc, pair, outside)?;
    }
    Ok(())
}

/// Checks it of a pair of a DNAME record.
fn pair_apart(alloc: Global, pair: &Pair, outside: &[Name]) -> Result<(), PartFault>
    ensures apart { OnOk result (All (IsApart (redirection pair.now)) outside.now) }
    ensures refused { IfErr result (Refutes (λ rule. All (λ name. PartRule.Apart ≡ rule → IsApart (redirection pair.now) name) outside.now)) }
{
    for name in outside {
        name_apart(alloc, pair, name)?;
    }
    Ok(())
}

/// Checks that the name right above this one isn't at or below the owner or the target of a DNAME record.
fn name_apart(alloc: Global, pair: &Pair, name: &Name) -> Result<(), PartFault>
    ensures apart { OnOk result (IsApart (redirection pair.now) name.now) }
    ensures refused { IfErr result (Refutes (λ rule. PartRule.Apart ≡ rule → IsApart (redirection pair.now) name.now)) }
{
    let above = parent_of(alloc, name)?;
    if pair.from.is_prefix_of(&above) || pair.to.is_prefix_of(&above) {
        return Err(PartFault::Breaks(PartRule::Apart, above));
    }
    Ok(())
}
