//! One step of a walk.

ghost use Rattle.std.specs.Prelude.{◌≡◌, ◌∷◌, [], true, map, List, None, Some, IfOk};
ghost use Rattle.dns_data.specs.Name.{Labels, is_prefix};
ghost use Rattle.net_model.specs.declared.found.Found.TheVariants as found_as;
ghost use Rattle.net_model.specs.declared.walk.Hop.TheVariants as hop_as;
ghost use Rattle.net_model.specs.Lookup.{at_name};
ghost use Rattle.net_model.specs.Step.{End, after_lookup, next, referred};
ghost use Rattle.net_model.specs.Zone.{ns_names};
ghost use Rattle.zone_lookup.specs.LentCut.{cut_of};
ghost use Rattle.zone_lookup.specs.Reply.{IsReply};
ghost use Rattle.zone_lookup.specs.Steps.{branch_of};
ghost use Rattle.zone_tree.specs.Tree.{IsNode, name_of};

use crate::leads::Lead;
use crate::lent_cut::LentCut;
use crate::reply::{Reply, reply_in};
use crate::rewrites::rewrites;
use crate::walker::Walker;
use dns_data::{Boxed, List, Name, NoMemory, RrType};
use name_rules::redirected;
use net_model::{Cut, Found, Hop, Leaf, Place, State};
use std::alloc::Global;
use zone_tree::{NodeId, Tree, at_name};

/// What a state leads to: a next state by a hop, or an end. Each stands in memory of its own from where it is made to where
/// it is kept, so that a step takes a few octets wherever it is moved.
#[derive(Debug, Drop)]
pub enum Step {
    Go(Boxed<Hop>, Boxed<State>),
    End(Option<Boxed<Hop>>, Boxed<Leaf>),
}

/// The steps of a state with a type, in order.
pub fn steps_of(
    alloc: Global,
    walker: &Walker<'_, '_>,
    state: &State,
    rtype: RrType,
) -> Result<List<Step>, NoMemory>
    ensures { IfOk result (λ steps. map branch_of steps ≡ next walker.now rtype state.now) }
{
    // Not by `reply_of`: a reply whose tree isn't named here has no proof.
    match walker.hosts().nearest_of(&state.server, &state.name) {
        Some(tree) => {
            let reply = reply_in(tree, &state.name);
            next_steps(alloc, walker, state, &reply, rtype)
        },
        None => ended(alloc, Leaf::Outside),
    }
}

/// The steps of a state with a type, in order, by what its server replies to its name.
#[tactic(auto, using(crate::proofs::Replying::outside_ends, crate::proofs::Replying::nothing_ends, crate::proofs::Replying::refers_on, crate::proofs::Replying::refers_inside, crate::proofs::Replying::redirects_on, crate::proofs::Replying::alias_found, crate::proofs::Replying::records_found))]
pub fn next_steps(
    alloc: Global,
    walker: &Walker<'_, '_>,
    state: &State,
    reply: &Reply<'_, '_>,
    rtype: RrType,
) -> Result<List<Step>, NoMemory>
    requires { IsReply walker.now.config state.now.server state.now.name reply.now }
    ensures { IfOk result (λ steps. map branch_of steps ≡ next walker.now rtype state.now) }
{
    match *reply {
        Reply::Outside => ended(alloc, Leaf::Outside),
        Reply::Refers(tree, cut) => referrals(alloc, walker, state, tree, cut),
        Reply::Redirects(tree, owner, target) => {
            let found = redirected(alloc, &state.name, tree.name(owner), Some(target))?;
            after_lookup(alloc, walker, state, tree, found)
        }
        Reply::Alias(tree, owner, _) => by_records(alloc, walker, state, tree, owner, rtype),
        Reply::Records(tree, owner) => by_records(alloc, walker, state, tree, owner, rtype),
        Reply::Nothing(_) => ended(alloc, Leaf::NxDomain),
    }
}

/// The steps of a state whose name these records answer, those of an alias among them (RFC 1034 section 3.6.2).
fn by_records(
    alloc: Global,
    walker: &Walker<'_, '_>,
    state: &State,
    tree: &Tree<'_>,
    owner: NodeId,
    rtype: RrType,
) -> Result<List<Step>, NoMemory>
    requires { IsNode tree.now owner }
    ensures { IfOk result (λ steps. map branch_of steps ≡ after_lookup walker.now state.now tree.now.zone.origin (at_name tree.now.zone (name_of tree.now owner) rtype)) }
{
    let found = at_name(alloc, tree, owner, rtype)?;
    after_lookup(alloc, walker, state, tree, found)
}

/// The steps of a state by what its server finds in the zone of the tree, which isn't a referral.
fn after_lookup(
    alloc: Global,
    walker: &Walker<'_, '_>,
    state: &State,
    tree: &Tree<'_>,
    found: Found,
) -> Result<List<Step>, NoMemory>
    requires { (cut : Labels) (names : List Labels) → found ≡ found_as.Referral cut names → ⊥ }
    ensures { IfOk result (λ steps. map branch_of steps ≡ after_lookup walker.now state.now tree.now.zone.origin found) }
{
    match found {
        Found::Rewrite {
            by_dname,
            owner,
            to,
        } => renamed(alloc, walker, state, tree, owner, by_dname, to),
        Found::TooLong { owner } => overlong(alloc, walker, state, tree, owner),
        Found::Answer(data) => ended(alloc, Leaf::Answer(data)),
        Found::NoData => ended(alloc, Leaf::NoData),
        Found::NxDomain => ended(alloc, Leaf::NxDomain),
        // It isn't one.
        Found::Referral { .. } => unreachable!(),
    }
}

/// The steps of a rewrite by a record of the owner, or its end where no rewrite is left.
fn renamed(
    alloc: Global,
    walker: &Walker<'_, '_>,
    state: &State,
    tree: &Tree<'_>,
    owner: Name,
    by_dname: bool,
    to: Name,
) -> Result<List<Step>, NoMemory>
    ensures { IfOk result (λ steps. map branch_of steps ≡ after_lookup walker.now state.now tree.now.zone.origin (found_as.Rewrite by_dname owner to)) }
{
    let place = place_at(alloc, state, tree, owner)?;
    if state.used < walker.rewrites() {
        rewrites(alloc, walker, state, place, by_dname, to)
    } else {
        ended(alloc, Leaf::Limit(place))
    }
}

/// The end of a rewrite that would make too long a name, or that for want of rewrites.
fn overlong(
    alloc: Global,
    walker: &Walker<'_, '_>,
    state: &State,
    tree: &Tree<'_>,
    owner: Name,
) -> Result<List<Step>, NoMemory>
    ensures { IfOk result (λ steps. map branch_of steps ≡ after_lookup walker.now state.now tree.now.zone.origin (found_as.TooLong owner)) }
{
    let place = place_at(alloc, state, tree, owner)?;
    if state.used < walker.rewrites() {
        ended(alloc, Leaf::Overlong(place))
    } else {
        ended(alloc, Leaf::Limit(place))
    }
}

/// The one step of a state in which its walks end.
fn ended(alloc: Global, leaf: Leaf) -> Result<List<Step>, NoMemory>
    ensures { IfOk result (λ steps. map branch_of steps ≡ End None leaf ∷ []) }
{
    let leaf = Boxed::new(alloc, leaf)?;
    one_step(alloc, Step::End(None, leaf))
}

/// One step. It takes the memory of one alone.
pub(crate) fn one_step(alloc: Global, step: Step) -> Result<List<Step>, NoMemory>
    ensures { IfOk result (λ steps. steps ≡ step ∷ []) }
{
    let mut steps = Vec::with_capacity(alloc, 1)?;
    steps.push_reserved(step);
    Ok(List::from_vec(steps))
}

/// The place of a rewrite by a record of the owner.
fn place_at(alloc: Global, state: &State, tree: &Tree<'_>, owner: Name) -> Result<Place, NoMemory>
    ensures { IfOk result (λ place. place ≡ record { server = state.now.server; zone = tree.now.zone.origin; owner = owner }) }
{
    Ok(Place {
        server: state.server.copy(alloc)?,
        zone: tree.zone().origin.copy(alloc)?,
        owner,
    })
}

/// The steps of a referral, one to each name server.
fn referrals(
    alloc: Global,
    walker: &Walker<'_, '_>,
    state: &State,
    tree: &Tree<'_>,
    cut: NodeId,
) -> Result<List<Step>, NoMemory>
    requires node { IsNode tree.now cut }
    requires inside { is_prefix tree.now.zone.origin (name_of tree.now cut) ≡ true }
    ensures { IfOk result (λ steps. map branch_of steps ≡ map (λ ns. referred walker.now state.now (record { server = state.now.server; zone = tree.now.zone.origin; cut = name_of tree.now cut; ns = ns })) (ns_names tree.now.zone (name_of tree.now cut))) }
{
    let names = tree.name_servers(cut);
    let mut steps = Vec::with_capacity(alloc, names.len())?;
    for ns in names {
        let cut = LentCut {
            server: &state.server,
            zone: &tree.zone().origin,
            cut: tree.name(cut),
            ns,
        };
        steps.push(referred(alloc, walker, state, cut)?)?;
    }
    Ok(List::from_vec(steps))
}

/// The step to one name server of a referral.
#[tactic(auto, using(crate::proofs::Leading::refers_by))]
fn referred(
    alloc: Global,
    walker: &Walker<'_, '_>,
    state: &State,
    cut: LentCut<'_>,
) -> Result<Step, NoMemory>
    requires { is_prefix cut.zone.now cut.cut.now ≡ true }
    ensures { IfOk result (λ step. branch_of step ≡ referred walker.now state.now (cut_of cut.entry)) }
{
    let lead = walker.leads(cut, &state.name);
    let ns = cut.ns.copy(alloc)?;
    let cut = cut.copy(alloc)?;
    match lead {
        Lead::Unhosted => ended_at(alloc, cut, Leaf::Unhosted(ns)),
        Lead::NoAddress => ended_at(alloc, cut, Leaf::NoAddress(ns)),
        Lead::Lame => ended_at(alloc, cut, Leaf::Lame(ns)),
        Lead::Goes(tree) => {
            let to = below_cut(alloc, state, ns, cut.cut.len(), &tree.zone().origin)?;
            let hop = Boxed::new(alloc, Hop::Refer(cut))?;
            Ok(Step::Go(hop, to))
        }
    }
}

/// The step that ends the walk at a name server.
fn ended_at(alloc: Global, cut: Cut, leaf: Leaf) -> Result<Step, NoMemory>
    ensures { IfOk result (λ step. branch_of step ≡ End (Some (hop_as.Refer cut)) leaf) }
{
    let leaf = Boxed::new(alloc, leaf)?;
    let hop = Boxed::new(alloc, Hop::Refer(cut))?;
    Ok(Step::End(Some(hop), leaf))
}

/// The state at the server that a zone cut of this many labels led to, in its zone with this origin.
fn below_cut(
    alloc: Global,
    state: &State,
    server: Name,
    cut: u32,
    origin: &Name,
) -> Result<Boxed<State>, NoMemory>
    ensures { IfOk result (λ to. to ≡ record state.now { server = server; cut = cut; zone = Some origin.now }) }
{
    let zone = origin.copy(alloc)?;
    let mut to = state.copy(alloc)?;
    to.server = server;
    to.cut = cut;
    to.zone = Some(zone);
    Boxed::new(alloc, to)
}
