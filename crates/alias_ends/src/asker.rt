//! Aliases whose walks are asked for.

ghost use Rattle.std.specs.Prelude.{◌≡◌, None, IfOk};
ghost use Rattle.dns_data.specs.declared.rr_type.RrType.TheVariants as rr_types;
ghost use Rattle.net_model.specs.Step.{following, Setting};
ghost use Rattle.alias_ends.specs.Known.{Knows, end_cmp, ends_in, word_there, walks_in};
ghost use Rattle.alias_ends.specs.Aliases.{is_found, target_word};

use crate::known::{KnownEnds, ends_of, some_at};
use crate::words::{TargetWord, word_by_ends};
use dns_data::{List, Name, NoMemory, RrType};
use plain_resolver::ZoneEnd;
use std::alloc::Global;
use std::collections::BTreeMap;
use std::marker::Model;
use zone_lookup::Hosts;

/// The servers with the trees of their zones, those that are followed, what the walks of aliases and of targets ask last,
/// and the words for targets at servers, as far as they were asked for before. Contracts see what walks are read in.
#[derive(Drop)]
pub struct AliasAsker<'h, 'a> {
    hosts: &'h Hosts<'a>,
    rewrites: u32,
    followed: &'h [Name],
    records: KnownEnds<'h, 'a>,
    targets: KnownEnds<'h, 'a>,
    known: BTreeMap<ZoneEnd, Option<TargetWord>>,
}

impl<'h, 'a> Model for AliasAsker<'h, 'a> {
    ghost use Rattle.std.specs.Prelude.{◌≡◌};
    ghost use Rattle.dns_data.specs.declared.rr_type.RrType.TheVariants as rr_types;
    ghost use Rattle.net_model.specs.Step.{Setting, following};
    ghost use Rattle.alias_ends.specs.Known.{Knows, end_cmp, word_there};

    ghost Value = { Setting };

    ghost view = { λ asker. following asker.hosts.now asker.rewrites asker.followed.now };

    ghost invariant = { λ asker. (asker.records ≡ record { setting = following asker.hosts.now asker.rewrites asker.followed.now; rtype = rr_types.Cname })
        × (asker.targets ≡ record { setting = following asker.hosts.now asker.rewrites asker.followed.now; rtype = rr_types.A })
        × Knows end_cmp (word_there (following asker.hosts.now asker.rewrites asker.followed.now)) asker.known };
}

impl<'h, 'a> AliasAsker<'h, 'a> {
    /// What aliases are asked by, while these servers are followed. None was asked for yet.
    pub fn new(
        alloc: Global,
        hosts: &'h Hosts<'a>,
        rewrites: u32,
        followed: &'h [Name],
    ) -> AliasAsker<'h, 'a>
        ensures { result ≡ following hosts.entry.now rewrites followed.entry.now }
    {
        AliasAsker {
            hosts,
            rewrites,
            followed,
            records: KnownEnds::new(alloc, hosts, rewrites, followed, RrType::Cname),
            targets: KnownEnds::new(alloc, hosts, rewrites, followed, RrType::A),
            known: BTreeMap::new(alloc),
        }
    }

    /// The servers with the trees of their zones.
    pub fn hosts(&self) -> &'h Hosts<'a>
        ensures { result.now ≡ self.now.config }
    {
        self.hosts
    }

    /// Whether a query for the alias of a name finds it at the server. Each name is asked for once.
    pub fn is_found(&mut self, alloc: Global, server: &Name, name: &Name) -> Result<bool, NoMemory>
        ensures found { IfOk result (λ found. found ≡ is_found (walks_in self.old) server.now name.now) }
        ensures kept { self.new ≡ self.old }
    {
        let ends = self.records.ends(alloc, name)?;
        Ok(some_at(&ends, server, name))
    }

    /// The word for a target at a server. Each target is asked for once at the top servers, and once at each server that
    /// isn't asked last for it from there: one that is answers as is found from the top servers.
    pub fn word(
        &mut self,
        alloc: Global,
        server: &Name,
        target: &Name,
    ) -> Result<Option<TargetWord>, NoMemory>
        ensures word { IfOk result (λ word. word ≡ target_word (walks_in self.old) server.now target.now) }
        ensures kept { self.new ≡ self.old }
    {
        let tops = self.targets.ends(alloc, target)?;
        if some_at(&tops, server, target) {
            return Ok(None);
        }
        let at = target_at(alloc, server, target)?;
        match self.known.get(&at).copied() {
            Some(word) => Ok(word),
            None => {
                let word = word_at_server(
                    alloc,
                    self.hosts,
                    self.rewrites,
                    self.followed,
                    &at,
                    &tops,
                )?;
                keep(&mut self.known, at, word)?;
                Ok(word)
            }
        }
    }
}

/// The target at the server.
fn target_at(alloc: Global, server: &Name, target: &Name) -> Result<ZoneEnd, NoMemory>
    ensures { IfOk result (λ at. at ≡ record { server = server.now; name = target.now }) }
{
    Ok(ZoneEnd {
        server: server.copy(alloc)?,
        name: target.copy(alloc)?,
    })
}

/// The word for a target at a server, beside what its walks from the top servers ask last.
fn word_at_server(
    alloc: Global,
    hosts: &Hosts<'_>,
    rewrites: u32,
    followed: &[Name],
    at: &ZoneEnd,
    tops: &Option<List<ZoneEnd>>,
) -> Result<Option<TargetWord>, NoMemory>
    ensures { tops.now ≡ ends_in (following hosts.now rewrites followed.now) rr_types.A None at.now.name → IfOk result (λ word. word ≡ word_there (following hosts.now rewrites followed.now) at.now) }
{
    let here = ends_of(
        alloc,
        hosts,
        rewrites,
        followed,
        RrType::A,
        Some(&at.server),
        &at.name,
    )?;
    word_by_ends(alloc, hosts, &here, tops)
}

/// Keeps the word for a target at a server.
fn keep(
    known: &mut BTreeMap<ZoneEnd, Option<TargetWord>>,
    at: ZoneEnd,
    word: Option<TargetWord>,
) -> Result<(), NoMemory>
    ensures { (setting : Setting) → Knows end_cmp (word_there setting) known.old → word ≡ word_there setting at → Knows end_cmp (word_there setting) known.new }
{
    known.insert(at, word)?;
    Ok(())
}
