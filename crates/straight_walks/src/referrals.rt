//! The referrals of a zone cut.

ghost use Rattle.std.specs.Prelude.{◌≡◌, true, Some, IfOk, OnOk};
ghost use Rattle.std.specs.Option.{option_map};
ghost use Rattle.dns_data.specs.Name.{is_prefix};
ghost use Rattle.net_model.specs.Nearest.{held_zone};
ghost use Rattle.net_model.specs.Zone.{ns_names};
ghost use Rattle.zone_tree.specs.Tree.{IsNode, name_of};
ghost use Rattle.zone_lookup.specs.CutTable.{IsTableOf};
ghost use Rattle.straight_walks.specs.Faulty.{flags_at};
ghost use Rattle.straight_walks.specs.Searching.{AllEndOutside, AreReferrals, IsFaultyPut};

use crate::asked::Asked;
use crate::faulty::{Faulty, ReferralFlags};
use crate::name_server::{Referral, referral_to};
use crate::queue::Queue;
use dns_data::{Name, NoMemory};
use zone_lookup::{CutFlags, LentCut, Near};
use zone_tree::{NodeId, Tree};

/// A server that refers a name, with the zone cut by which it does, and a place near which the zone is looked for.
#[derive(Clone, Copy)]
pub(crate) struct Referring<'h, 'a> {
    pub server: &'a Name,
    pub near: Near,
    pub tree: &'h Tree<'a>,
    pub cut: NodeId,
}

/// Whether none of the name servers of a zone cut is configured, so that walks end at all of them, and the table tells that
/// the referrals show no fault. It takes no memory.
pub(crate) fn all_end_outside(asked: Asked<'_, '_, '_>, from: Referring<'_, '_>) -> bool
    requires table { IsTableOf asked.hosts.now asked.sets.now asked.table.now }
    requires node { IsNode from.tree.now from.cut }
    requires held { held_zone asked.hosts.now from.server.now from.tree.now.zone.origin ≡ Some from.tree.now.zone }
    ensures { result ≡ true → AllEndOutside asked.entry.hosts.now from.entry.tree.now from.entry.cut }
{
    let Referring {
        server,
        near,
        tree,
        cut,
    } = from;
    let flags = asked.table.flags(near, server, tree, cut);
    if flags.is_some() {
        return false;
    }
    let servers = tree.name_servers(cut);
    for ns in servers {
        if asked.hosts.host(ns).is_some() {
            return false;
        }
    }
    !servers.is_empty()
}

/// Whether walks are seen to go straight by the referrals of a zone cut from a server. The states at its name servers to
/// which walks go on are queued then; walks fail that end at one; and the referrals that show faults are put to the others.
pub(crate) fn queue_referrals<'a>(
    asked: Asked<'_, '_, 'a>,
    from: Referring<'_, 'a>,
    queue: &mut Queue<'a>,
    fails: &mut bool,
    faulty: &mut Vec<Faulty<'a>>,
) -> Result<bool, NoMemory>
    requires table { IsTableOf asked.hosts.now asked.sets.now asked.table.now }
    requires node { IsNode from.tree.now from.cut }
    requires inside { is_prefix from.tree.now.zone.origin (name_of from.tree.now from.cut) ≡ true }
    requires above { is_prefix (name_of from.tree.now from.cut) asked.name.now ≡ true }
    requires held { held_zone asked.hosts.now from.server.now from.tree.now.zone.origin ≡ Some from.tree.now.zone }
    ensures { IfOk result (λ straight. straight ≡ true → AreReferrals asked.entry.hosts.now asked.entry.sets.now asked.entry.name.now
        from.entry.server.now from.entry.tree.now.zone (name_of from.entry.tree.now from.entry.cut) (ns_names from.entry.tree.now.zone (name_of from.entry.tree.now from.entry.cut))
        (record { queue = queue.old; fails = fails.old; faulty = faulty.old.items }) (record { queue = queue.new; fails = fails.new; faulty = faulty.new.items })) }
{
    let Referring {
        server,
        near,
        tree,
        cut,
    } = from;
    let owner = tree.name(cut);
    let shown = asked.table.flags(near, server, tree, cut);
    let servers = tree.name_servers(cut);
    for (number, ns) in servers.iter().enumerate() {
        let to = LentCut {
            server,
            zone: &tree.zone().origin,
            cut: owner,
            ns,
        };
        match referral_to(asked, to, flags_at(shown, number)) {
            Referral::Ends(flags) => {
                *fails = true;
                put_faulty(server, tree, owner, ns, flags, faulty)?;
            }
            Referral::GoesOn(flags) => {
                queue.put(asked.hosts, asked.name, ns, owner.len())?;
                put_faulty(server, tree, owner, ns, flags, faulty)?;
            }
            Referral::Unclear => return Ok(false),
        }
    }
    Ok(true)
}

/// The flags of the referral to the name server of this number, among those of its zone cut; where there are none, it shows
/// nothing.
fn flags_at(of_cut: Option<&[CutFlags]>, number: usize) -> CutFlags
    ensures { result ≡ flags_at (option_map (λ flags. flags.now) of_cut.entry) number }
{
    if let Some(all) = of_cut {
        if let Some(flags) = all.get(number) {
            return *flags;
        }
    }
    CutFlags::of_glue(false)
}

/// Puts the referral to a name server behind the others that show faults, if it shows some.
fn put_faulty<'a>(
    server: &'a Name,
    tree: &Tree<'a>,
    cut: &Name,
    ns: &'a Name,
    flags: ReferralFlags,
    faulty: &mut Vec<Faulty<'a>>,
) -> Result<(), NoMemory>
    ensures { OnOk result (IsFaultyPut server.now tree.now.zone cut.now ns.now flags faulty.old.items faulty.new.items) }
{
    if flags.shows_some() {
        faulty.push(Faulty {
            server,
            zone: &tree.zone().origin,
            cut: cut.len(),
            ns,
            flags,
        })?;
    }
    Ok(())
}
