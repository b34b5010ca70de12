//! Which name servers may be followed.

ghost use Rattle.std.specs.Prelude.{◌≡◌};
ghost use Rattle.std.specs.Option.{option_map};
ghost use Rattle.dns_data.specs.Name.{is_among};
ghost use Rattle.net_model.specs.Nearest.{server_named, zone_with_origin, held_zone, is_top};
ghost use Rattle.net_model.specs.Step.{has_glue, may_follow};
ghost use Rattle.net_model.specs.Zone.{is_of, owns, has_address};

use crate::config::{Config, Server, Zone};
use crate::place::Cut;
use dns_data::{Name, Rr, RrType};

/// Whether the address of the cut's name server is known: it is a top server, it has glue in that referral, or it is
/// among the followed ones. It passes once over the top servers, the servers, the zones and the records of one zone,
/// and over the followed ones (RFC 1034 section 4.2.1).
pub fn may_follow(config: &Config, cut: &Cut, followed: &[Name]) -> bool
    ensures { result ≡ may_follow config.now cut.now followed.now }
{
    is_top(config, &cut.ns) || has_glue(config, cut) || is_among(followed, &cut.ns)
}

/// Whether the name is among these. It passes over them once.
pub fn is_among(names: &[Name], name: &Name) -> bool
    ensures { result ≡ is_among names.now name.now }
{
    names.iter().any(|other| *name == *other)
}

/// Whether a query may begin at the server.
fn is_top(config: &Config, name: &Name) -> bool
    ensures { result ≡ is_top config.now name.now }
{
    is_among(config.tops(), name)
}

/// Whether the name server has glue in the referral: it is at or below the zone cut, and the referring zone holds an
/// address of it.
fn has_glue(config: &Config, cut: &Cut) -> bool
    ensures { result ≡ has_glue config.now cut.now }
{
    cut.cut.is_prefix_of(&cut.ns)
        && match held_zone(config, &cut.server, &cut.zone) {
            Some(zone) => has_address(zone, &cut.ns),
            None => false,
        }
}

/// The zone with this origin that the server of this name holds, or `None` where there is no such server or zone. It
/// passes once over the servers and over the zones of one (RFC 1034 section 4.3.2, step 2).
pub fn held_zone<'a>(config: &'a Config, server: &Name, origin: &Name) -> Option<&'a Zone>
    ensures { option_map (λ zone. zone.now) result ≡ held_zone config.now server.now origin.now }
{
    zone_with_origin(server_named(config, server)?, origin)
}

/// The configured server of this name.
fn server_named<'a>(config: &'a Config, name: &Name) -> Option<&'a Server>
    ensures { option_map (λ server. server.now) result ≡ server_named config.now name.now }
{
    config.servers().iter().find(|server| server.name == *name)
}

/// The server's zone with this origin.
fn zone_with_origin<'a>(server: &'a Server, origin: &Name) -> Option<&'a Zone>
    ensures { option_map (λ zone. zone.now) result ≡ zone_with_origin server.now origin.now }
{
    server
        .zones
        .items()
        .iter()
        .find(|zone| zone.origin == *origin)
}

/// Whether the name owns an address record.
fn has_address(zone: &Zone, name: &Name) -> bool
    ensures { result ≡ has_address zone.now name.now }
{
    owns(zone, name, RrType::A) || owns(zone, name, RrType::Aaaa)
}

/// Whether the name owns a record of the type.
fn owns(zone: &Zone, name: &Name, rtype: RrType) -> bool
    ensures { result ≡ owns zone.now name.now rtype }
{
    zone.rrs.items().iter().any(|rr| is_of(rr, name, rtype))
}

/// Whether the record is of this owner and type.
fn is_of(rr: &Rr, owner: &Name, rtype: RrType) -> bool
    ensures { result ≡ is_of owner.now rtype rr.now }
{
    rr.owner == *owner
        && match rr.rtype() {
            Some(own) => rtype.number() == own.number(),
            None => false,
        }
}
