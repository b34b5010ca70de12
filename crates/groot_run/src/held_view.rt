//! A view that is held while queries are shown that walk as one name does.

ghost use Rattle.std.specs.Prelude.{◌≡◌, true, IfOk, IfSome, MatchOption, OnOk, Some};
ghost use Rattle.groot_run.specs.HeldView.{IsHeld, IsHeldAs, IsHeldOf};
ghost use Rattle.query_verdicts.specs.Queries.{Passes, ServerPasses};

use dns_data::{Name, NoMemory};
use interp_graph::GraphFault;
use net_model::Class;
use query_verdicts::QueryGraphs;
use site_checks::{View, view};
use std::alloc::Global;

/// The name as which queries walk, and the view that was shown last of a class that one of them represents. It has the
/// ends of the walks of all of them.
#[derive(Drop)]
pub(crate) struct HeldView {
    pub like: Name,
    pub view: View,
}

/// Holds a view with the ends of the walks of a name as which queries walk, unless such a one is held; or none where the
/// name of some server reaches too many pairs of state and type.
pub(crate) fn hold(
    alloc: Global,
    graphs: &QueryGraphs<'_>,
    class: &Class,
    like: &Name,
    last: &mut Option<HeldView>,
) -> Result<(), NoMemory>
    requires few { Passes graphs.now like.now → ⊥ }
    requires last { IfSome last.old (IsHeld graphs.now) }
    ensures { OnOk result (MatchOption last.new (ServerPasses graphs.now) (IsHeldOf graphs.now like.now)) }
{
    if is_held(last, like) {
        return Ok(());
    }
    *last = view_held(alloc, graphs, class, like)?;
    Ok(())
}

/// Whether the view is held of the queries that walk as the name does.
fn is_held(last: &Option<HeldView>, like: &Name) -> bool
    ensures { result ≡ true → IsHeldAs last.now like.now }
{
    match last {
        Some(one) => one.like == *like,
        None => false,
    }
}

/// A view with the ends of the walks of the name, or `None` where the name of some server reaches too many pairs.
fn view_held(
    alloc: Global,
    graphs: &QueryGraphs<'_>,
    class: &Class,
    like: &Name,
) -> Result<Option<HeldView>, NoMemory>
    requires { Passes graphs.now like.now → ⊥ }
    ensures { IfOk result (λ found. MatchOption found (ServerPasses graphs.now) (IsHeldOf graphs.now like.now)) }
{
    match graphs.graph(like) {
        Ok(Some(graph)) => {
            let like = like.copy(alloc)?;
            let view = view(alloc, class, &like, &graph)?;
            Ok(Some(HeldView { like, view }))
        }
        Ok(None) => Ok(None),
        Err(GraphFault::StatesPassed) => unreachable!(),
        Err(GraphFault::NoMemory) => Err(NoMemory),
    }
}

/// Tells the view of another class, for which the query stands. Its ends stay.
pub(crate) fn change_class(
    alloc: Global,
    class: &Class,
    query: &Name,
    view: &mut View,
) -> Result<(), NoMemory>
    ensures class { OnOk result (view.new.class ≡ class.now) }
    ensures query { OnOk result (view.new.query ≡ query.now) }
    ensures ends { view.new.ends ≡ view.old.ends }
{
    view.class = class.copy(alloc)?;
    view.query = query.copy(alloc)?;
    Ok(())
}
