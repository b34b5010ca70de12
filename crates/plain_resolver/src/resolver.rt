//! What is asked of which servers.

ghost use Rattle.std.specs.Prelude.{◌≡◌, IfOk, None, option_map};
ghost use Rattle.net_model.specs.Step.{following};
ghost use Rattle.plain_resolver.specs.Asked.{begins};

use crate::first_state::asked_at;
use dns_data::{Boxed, List, Name, NoMemory, RrType};
use net_model::State;
use std::alloc::Global;
use std::marker::Model;
use zone_lookup::{Hosts, Walker, starts};

/// What the steps of a walk depend on, the name and type of the query, and the server that is asked, or none where the
/// top servers are.
#[derive(Debug, Drop)]
pub(crate) struct Resolver<'h, 'a> {
    walker: Walker<'h, 'a>,
    query: &'h Name,
    rtype: RrType,
    server: Option<&'h Name>,
}

impl<'h, 'a> Model for Resolver<'h, 'a> {
    ghost use Rattle.std.specs.Prelude.{option_map};
    ghost use Rattle.plain_resolver.specs.Asked.{Asked};

    ghost Value = { Asked };

    ghost view = { λ resolver. record { setting = resolver.walker; query = resolver.query.now; rtype = resolver.rtype; server = option_map (λ server. server.now) resolver.server } };
}

impl<'h, 'a> Resolver<'h, 'a> {
    /// The resolver of a query, while the servers of these names are followed.
    pub(crate) fn new(
        hosts: &'h Hosts<'a>,
        rewrites: u32,
        followed: &'h [Name],
        query: &'h Name,
        rtype: RrType,
    ) -> Resolver<'h, 'a>
        ensures { result ≡ record { setting = following hosts.entry.now rewrites followed.entry.now; query = query.entry.now; rtype = rtype; server = None } }
    {
        Resolver::of(
            Walker::following(hosts, rewrites, followed),
            None,
            query,
            rtype,
        )
    }

    /// The resolver of a name that a server is asked for, or the top servers where no server is named.
    pub(crate) fn of(
        walker: Walker<'h, 'a>,
        server: Option<&'h Name>,
        query: &'h Name,
        rtype: RrType,
    ) -> Resolver<'h, 'a>
        ensures { result ≡ record { setting = walker.entry; query = query.entry.now; rtype = rtype; server = option_map (λ one. one.now) server.entry } }
    {
        Resolver {
            walker,
            query,
            rtype,
            server,
        }
    }

    /// What the steps of a walk depend on.
    pub(crate) fn walker(&self) -> &Walker<'h, 'a>
        ensures { result.now ≡ self.now.setting }
    {
        &self.walker
    }

    /// The name of the query.
    pub(crate) fn query(&self) -> &'h Name
        ensures { result.now ≡ self.now.query }
    {
        self.query
    }

    /// The type of the query.
    pub(crate) fn rtype(&self) -> RrType
        ensures { result ≡ self.now.rtype }
    {
        self.rtype
    }

    /// The states in which walks begin: at the server that is asked, or at each top server.
    pub(crate) fn begins(&self, alloc: Global) -> Result<List<Boxed<State>>, NoMemory>
        ensures { IfOk result (λ states. states ≡ begins self.now.setting self.now.query self.now.server) }
    {
        match self.server {
            Some(server) => asked_at(alloc, self.walker.hosts(), server, self.query),
            None => starts(alloc, self.walker.hosts(), self.query),
        }
    }
}
