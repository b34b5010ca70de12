//! What is configured: zones on servers.

ghost use Rattle.std.specs.Prelude.{◌≡◌};
ghost use Rattle.net_model.specs.Configured.{AreConsistent};

use dns_data::{List, Name, Rr};
use std::marker::Model;

/// A zone: its origin and its records in file order (RFC 1034 section 4.2).
#[derive(Debug, Drop)]
pub struct Zone {
    pub origin: Name,
    pub rrs: List<Rr>,
}

/// A name server and the zones that it holds, in the order of the metadata's rows.
#[derive(Debug, Drop)]
pub struct Server {
    pub name: Name,
    pub zones: List<Zone>,
}

/// A configuration: the servers at which a query begins, and all servers in the order of their first rows. No two servers
/// have one name, no two zones of a server one origin, and each record of a zone lies at or below its origin. Contracts see
/// both lists.
#[derive(Debug, Drop)]
pub struct Config {
    pub tops: List<Name>,
    pub servers: List<Server>,
}

impl Model for Config {
    ghost use Rattle.net_model.specs.Configured.{Configuration, AreConsistent};

    ghost Value = { Configuration };

    ghost view = { λ config. record { tops = config.tops; servers = config.servers } };

    ghost invariant = { λ config. AreConsistent config.servers };
}

impl Config {
    /// The servers at which a query begins, in the order of the metadata.
    pub fn tops(&self) -> &[Name]
        ensures { result.now ≡ self.now.tops }
    {
        self.tops.items()
    }

    /// All servers, in the order of their first rows.
    pub fn servers(&self) -> &[Server]
        ensures servers { result.now ≡ self.now.servers }
        ensures consistent { AreConsistent self.now.servers }
    {
        self.servers.items()
    }
}
