//! What the steps of a walk depend on.

ghost use Rattle.std.specs.Prelude.{◌≡◌, true};
ghost use Rattle.dns_data.specs.Name.{is_prefix};
ghost use Rattle.net_model.specs.Nearest.{is_configured, server_names};
ghost use Rattle.net_model.specs.Step.{following, may_follow};
ghost use Rattle.zone_lookup.specs.LentCut.{cut_of};

use crate::hosts::Hosts;
use crate::learnt_sets::LearntSets;
use crate::lent_cut::LentCut;
use dns_data::Name;
use net_model::is_among;
use std::marker::Model;

/// The name servers that may be followed though neither a top server nor glue gives their address.
#[derive(Clone, Copy, Debug)]
enum Followed<'h> {
    Configured,
    Named(&'h [Name]),
    Least(&'h LearntSets),
}

/// The servers of a configuration, how many rewrites a walk may use, and the name servers that may be followed though
/// neither a top server nor glue gives their address. Contracts see what walks are read in.
#[derive(Debug, Drop)]
pub struct Walker<'h, 'a> {
    hosts: &'h Hosts<'a>,
    rewrites: u32,
    followed: Followed<'h>,
}

impl<'h, 'a> Model for Walker<'h, 'a> {
    ghost use Rattle.net_model.specs.Step.{Setting, following};
    ghost use Rattle.zone_lookup.specs.Walker.{names_followed};

    ghost Value = { Setting };

    ghost view = { λ walker. following walker.hosts.now walker.rewrites (names_followed walker.hosts.now walker.followed) };
}

impl<'h, 'a> Walker<'h, 'a> {
    /// What walks depend on while every configured server is followed.
    pub fn following_all(hosts: &'h Hosts<'a>, rewrites: u32) -> Walker<'h, 'a>
        ensures { result ≡ following hosts.entry.now rewrites (server_names hosts.entry.now) }
    {
        Walker {
            hosts,
            rewrites,
            followed: Followed::Configured,
        }
    }

    /// What walks depend on while the servers of these names are followed.
    pub fn following(hosts: &'h Hosts<'a>, rewrites: u32, names: &'h [Name]) -> Walker<'h, 'a>
        ensures { result ≡ following hosts.entry.now rewrites names.entry.now }
    {
        Walker {
            hosts,
            rewrites,
            followed: Followed::Named(names),
        }
    }

    /// What walks depend on while the servers of the least set are followed.
    pub fn following_least(
        hosts: &'h Hosts<'a>,
        rewrites: u32,
        sets: &'h LearntSets,
    ) -> Walker<'h, 'a>
        ensures { result ≡ following hosts.entry.now rewrites sets.entry.now.least }
    {
        Walker {
            hosts,
            rewrites,
            followed: Followed::Least(sets),
        }
    }

    /// The servers of the configuration.
    pub fn hosts(&self) -> &'h Hosts<'a>
        ensures { result.now ≡ self.now.config }
    {
        self.hosts
    }

    /// How many rewrites a walk may use.
    pub fn rewrites(&self) -> u32
        ensures { result ≡ self.now.rewrites }
    {
        self.rewrites
    }

    /// Whether the address of the cut's name server, which is a configured server, is known.
    pub(crate) fn may_follow(&self, cut: LentCut<'_>) -> bool
        requires configured { is_configured self.now.config cut.ns.now ≡ true }
        requires inside { is_prefix cut.zone.now cut.cut.now ≡ true }
        ensures { result ≡ may_follow self.now.config (cut_of cut.entry) self.now.followed }
    {
        match self.followed {
            Followed::Configured => true,
            Followed::Named(names) => self.hosts.is_known(cut) || is_among(names, cut.ns),
            Followed::Least(sets) => self.hosts.is_known(cut) || sets.has_least(cut.ns),
        }
    }
}
