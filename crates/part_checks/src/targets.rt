//! Whether what the records lead to is held, or told as away.

ghost use Rattle.std.specs.Prelude.{◌≡◌, ◌&&◌, ◌||◌, not, All, IfOk, IfErr, OnOk};
ghost use Rattle.net_model.specs.Nearest.{is_configured, is_top, server_names};
ghost use Rattle.part_checks.specs.Outside.{IsHeldOrAtAway};
ghost use Rattle.part_checks.specs.Claims.{rule_of};
ghost use Rattle.part_checks.specs.Rules.{Refutes};
ghost use Rattle.part_checks.specs.Targets.{IsLed, may_matter};

use crate::fault::{PartFault, PartRule};
use crate::sets::NameSets;
use dns_data::{List, Name, NoMemory, Rdata, Rr};
use net_model::{Config, Zone};
use std::alloc::Global;
use std::collections::BTreeSet;
use std::marker::Model;
use zone_lookup::set_of;

/// The names of the servers of a configuration, and those of the top ones, in which one is found without a pass over the
/// others. Contracts see the configuration.
#[derive(Debug, Drop)]
struct ServerSets<'a> {
    config: &'a Config,
    servers: BTreeSet<Name>,
    tops: BTreeSet<Name>,
}

impl<'a> Model for ServerSets<'a> {
    ghost use Rattle.net_model.specs.declared.config.Config.{Config};
    ghost use Rattle.net_model.specs.Nearest.{is_configured};
    ghost use Rattle.dns_data.specs.Name.{Labels, name_cmp};
    ghost use Rattle.std.specs.Prelude.{◌≡◌};
    ghost use Rattle.std.specs.BTreeSet as tree;
    ghost use Rattle.zone_lookup.specs.LearntSets.{IsSetOf};

    ghost Value = { Config };

    ghost view = { λ sets. sets.config.now };

    ghost invariant = { λ sets. ((name : Labels) → tree.contains name_cmp sets.servers name ≡ is_configured sets.config.now name)
        × IsSetOf sets.config.now.tops sets.tops };
}

impl<'a> ServerSets<'a> {
    /// The sets of a configuration.
    fn build(alloc: Global, config: &'a Config) -> Result<ServerSets<'a>, NoMemory>
        ensures { IfOk result (λ sets. sets ≡ config.now) }
    {
        let names = names_of_servers(alloc, config)?;
        let servers = set_of(alloc, names.items())?;
        let tops = set_of(alloc, config.tops())?;
        Ok(ServerSets {
            config,
            servers,
            tops,
        })
    }

    /// Whether the address of a name may have to be learnt: it is that of a server that is no top one.
    fn may_be_learnt(&self, name: &Name) -> bool
        ensures { result ≡ (is_configured self.now name.now && not (is_top self.now name.now)) }
    {
        self.is_server(name) && !self.is_top(name)
    }

    /// Whether the name is that of a server.
    fn is_server(&self, name: &Name) -> bool
        ensures { result ≡ is_configured self.now name.now }
    {
        self.servers.contains(name)
    }

    /// Whether the name is that of a top server.
    fn is_top(&self, name: &Name) -> bool
        ensures { result ≡ is_top self.now name.now }
    {
        self.tops.contains(name)
    }
}

/// The names of the servers.
fn names_of_servers(alloc: Global, config: &Config) -> Result<List<Name>, NoMemory>
    ensures { IfOk result (λ names. names ≡ server_names config.now) }
{
    let mut names = List::new(alloc);
    for server in config.servers() {
        names.push(server.name.copy(alloc)?)?;
    }
    Ok(names)
}

/// Checks that what the records of zones lead to is held, or leaves the held names at what is told as away: the targets of
/// aliases and of redirections, and the name servers of delegations that may have glue there, or whose addresses may have
/// to be learnt in the configuration.
pub(crate) fn check_targets(
    alloc: Global,
    sets: &NameSets<'_>,
    config: &Config,
    zones: &[&Zone],
) -> Result<(), PartFault>
    ensures led { OnOk result (All (λ zone. All (IsLed sets.now config.now zone.now) zone.now.rrs) zones.now) }
    ensures refused { IfErr result (Refutes (λ rule. All (λ zone. All (λ rr. rule_of rr.rdata ≡ rule → IsLed sets.now config.now zone.now rr) zone.now.rrs) zones.now)) }
{
    let servers = ServerSets::build(alloc, config)?;
    for zone in zones {
        zone_leads(alloc, sets, &servers, *zone)?;
    }
    Ok(())
}

/// Checks it of the records of a zone.
fn zone_leads(
    alloc: Global,
    sets: &NameSets<'_>,
    servers: &ServerSets<'_>,
    zone: &Zone,
) -> Result<(), PartFault>
    ensures led { OnOk result (All (IsLed sets.now servers.now zone.now) zone.now.rrs) }
    ensures refused { IfErr result (Refutes (λ rule. All (λ rr. rule_of rr.rdata ≡ rule → IsLed sets.now servers.now zone.now rr) zone.now.rrs)) }
{
    for rr in zone.rrs.items() {
        rr_leads(alloc, sets, servers, zone, rr)?;
    }
    Ok(())
}

/// Checks it of a record.
fn rr_leads(
    alloc: Global,
    sets: &NameSets<'_>,
    servers: &ServerSets<'_>,
    zone: &Zone,
    rr: &Rr,
) -> Result<(), PartFault>
    ensures led { OnOk result (IsLed sets.now servers.now zone.now rr.now) }
    ensures refused { IfErr result (Refutes (λ rule. rule_of rr.now.rdata ≡ rule → IsLed sets.now servers.now zone.now rr.now)) }
{
    match &rr.rdata {
        Rdata::Cname(target) => check_at_away(alloc, sets, PartRule::Alias, target),
        Rdata::Dname(target) => check_at_away(alloc, sets, PartRule::Redirects, target),
        Rdata::Ns(target) => {
            if may_matter(servers, zone, &rr.owner, target) {
                check_at_away(alloc, sets, PartRule::Referral, target)
            } else {
                Ok(())
            }
        }
        _ => Ok(()),
    }
}

/// Whether an NS record is of a delegation whose name server may have glue there, or an address that may have to be learnt.
fn may_matter(servers: &ServerSets<'_>, zone: &Zone, owner: &Name, target: &Name) -> bool
    ensures { result ≡ may_matter servers.now zone.now owner.now target.now }
{
    *owner != zone.origin && (owner.is_prefix_of(target) || servers.may_be_learnt(target))
}

/// Checks that a name is held, or leaves the held names at what is told as away.
fn check_at_away(
    alloc: Global,
    sets: &NameSets<'_>,
    rule: PartRule,
    name: &Name,
) -> Result<(), PartFault>
    ensures told { OnOk result (IsHeldOrAtAway sets.now name.now) }
    ensures refused { IfErr result (Refutes (λ other. rule ≡ other → IsHeldOrAtAway sets.now name.now)) }
{
    match sets.first_outside(alloc, name)? {
        Some(front) => {
            if sets.is_away(&front) {
                Ok(())
            } else {
                Err(PartFault::Breaks(rule, front))
            }
        }
        None => Ok(()),
    }
}
