//! A check that is shown the classes of rows' origins.

ghost use Rattle.std.specs.Prelude.{◌≡◌, ◌||◌, not, ℕ, List, IfErr, IfOk, OnOk};
ghost use Rattle.dns_data.specs.Name.{Labels, name_eq};
ghost use Rattle.query_verdicts.specs.Queries.{ServerPasses};
ghost use Rattle.site_checks.specs.declared.views.View.{View as Seen};
ghost use Rattle.map_run.specs.ShownOrigins.{EndsAmongRows, EndsAt, HasSeenNew, HasSeenOrigin, HasSeenOrigins, is_shown};

use crate::name_key::NameKey;
use config_load::RowFiles;
use dns_data::{Name, NoMemory};
use interp_graph::GraphFault;
use net_model::Class;
use query_verdicts::{MOST_STATES, QueryGraphs};
use run_endings::Ending;
use site_checks::{SiteCheck, view};
use std::alloc::Global;
use std::collections::HashSet;

/// Shows a check the view of each row's origin, each origin once, in the order of rows, up to the first that reaches too
/// many pairs of state and type; then it is how the run ends.
pub(crate) fn show_origins<S: SiteCheck>(
    alloc: Global,
    graphs: &QueryGraphs<'_>,
    rows: &[RowFiles],
    check: &mut S,
) -> Result<(), Ending>
    requires clear { ServerPasses graphs.now → ⊥ }
    ensures step { (words : List (List ℕ)) (view : Seen) → S.step check.new words view ≡ S.step check.old words view }
    ensures ok { OnOk result (HasSeenOrigins (S.step check.old) graphs.now rows.now (S.held check.old) (S.held check.new)) }
    ensures err { IfErr result (EndsAmongRows graphs.now rows.now) }
{
    let mut shown = HashSet::new(alloc);
    for row in rows {
        show_new(alloc, graphs, &mut shown, &row.origin, check)?;
    }
    Ok(())
}

/// Shows a check the view of an origin, unless it was shown it, and keeps that it was.
fn show_new<S: SiteCheck>(
    alloc: Global,
    graphs: &QueryGraphs<'_>,
    shown: &mut HashSet<NameKey>,
    origin: &Name,
    check: &mut S,
) -> Result<(), Ending>
    requires clear { ServerPasses graphs.now → ⊥ }
    ensures shown { OnOk result ((other : Labels) → is_shown shown.new other ≡ (is_shown shown.old other || name_eq other origin.now)) }
    ensures step { (words : List (List ℕ)) (view : Seen) → S.step check.new words view ≡ S.step check.old words view }
    ensures ok { OnOk result (HasSeenNew (S.step check.old) graphs.now (is_shown shown.old) origin.now (S.held check.old) (S.held check.new)) }
    ensures err { IfErr result (EndsAt graphs.now origin.now) }
{
    if !put_shown(alloc, shown, origin)? {
        return Ok(());
    }
    show_origin(alloc, graphs, origin, check)
}

/// Keeps that an origin was shown, and answers whether it wasn't before.
fn put_shown(alloc: Global, shown: &mut HashSet<NameKey>, origin: &Name) -> Result<bool, NoMemory>
    ensures new { IfOk result (λ is_new. is_new ≡ not (is_shown shown.old origin.now)) }
    ensures shown { OnOk result ((other : Labels) → is_shown shown.new other ≡ (is_shown shown.old other || name_eq other origin.now)) }
{
    Ok(shown.insert(NameKey::of(alloc, origin)?)?)
}

/// Shows a check the view of an origin.
fn show_origin<S: SiteCheck>(
    alloc: Global,
    graphs: &QueryGraphs<'_>,
    origin: &Name,
    check: &mut S,
) -> Result<(), Ending>
    requires clear { ServerPasses graphs.now → ⊥ }
    ensures step { (words : List (List ℕ)) (view : Seen) → S.step check.new words view ≡ S.step check.old words view }
    ensures ok { OnOk result (HasSeenOrigin (S.step check.old) graphs.now origin.now (S.held check.old) (S.held check.new)) }
    ensures err { IfErr result (EndsAt graphs.now origin.now) }
{
    match graphs.graph(origin) {
        Ok(Some(graph)) => {
            let class = Class::Exact(origin.copy(alloc)?);
            let seen = view(alloc, &class, origin, &graph)?;
            check.see(alloc, &seen)?;
            Ok(())
        }
        // No server's name reaches too many pairs, so the query has its graph.
        Ok(None) => unreachable!(),
        Err(GraphFault::StatesPassed) => Err(Ending::too_many_states(alloc, MOST_STATES, origin)),
        Err(GraphFault::NoMemory) => Err(Ending::no_memory()),
    }
}
