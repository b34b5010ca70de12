//! What the checks that an operator brings find in a configuration.

ghost use Rattle.std.specs.Prelude.{◌≡◌, ◌⊎◌, ◌∷◌, [], map, IfOk, IfErr, IfSome, OnOk};
ghost use Rattle.net_model.specs.Reading.{ground_of};
ghost use Rattle.query_classes.specs.ClassList.{AreListed, classes_of_row, classes_of_rows};
ghost use Rattle.query_verdicts.specs.Queries.{WalksLike, limited_to, most_states};
ghost use Rattle.report_json.specs.Sites.{sites_text};
ghost use Rattle.run_endings.specs.Endings.{no_memory};
ghost use Rattle.site_checks.specs.Views.{site_findings};
ghost use Rattle.report_run.specs.Budgets.{WithinStates};
ghost use Rattle.groot_run.specs.HeldView.{IsHeld};
ghost use Rattle.groot_run.specs.Outcome.{TellsFindings, ShowsClasses, site_rewrites};
ghost use Rattle.groot_run.specs.ShownClasses.{AreShown, EndsAmongClasses, sites_of};

use crate::classes::rows_within;
use crate::held_view::{HeldView, change_class, hold};
use crate::shown::{ShownChecks, Watchers, findings, show};
use dns_data::{Name, NoMemory, Octets};
use groot_line::USUAL_REWRITES;
use interp_graph::GraphFault;
use net_model::{Class, Config};
use query_classes::ClassRow;
use query_verdicts::{MOST_STATES, QueryGraphs};
use report_json::sites_text;
use report_run::too_many_states;
use run_endings::{Ending, Status};
use site_checks::view;
use std::alloc::Global;

/// What the checks find in the classes of the configuration, unless its class tree has more than so many names or else a
/// representative reaches too many pairs of state and type. Each check is shown the view of each class, in class order.
pub(crate) fn site<W: Watchers>(
    alloc: Global,
    config: &Config,
    names: u32,
    sites: &mut ShownChecks<W>,
) -> Ending
    ensures { ShowsClasses names (sites_of (λ b. name b) (λ b. held b) (λ b. step b) (W.sites sites.old.own) sites.old.brought.items) config.now result
        ⊎ (result ≡ no_memory) }
{
    match rows_within(alloc, config, names) {
        Ok(rows) => find(alloc, config, rows.items(), sites),
        Err(ending) => ending,
    }
}

/// What the checks find in the classes of the rows, which are those of the configuration, unless a representative
/// reaches too many pairs of state and type.
fn find<W: Watchers>(
    alloc: Global,
    config: &Config,
    rows: &[ClassRow],
    sites: &mut ShownChecks<W>,
) -> Ending
    requires { AreListed (ground_of config.now) [] (classes_of_rows rows.now) }
    ensures { WithinStates config.now site_rewrites
        (TellsFindings config.now (sites_of (λ b. name b) (λ b. held b) (λ b. step b) (W.sites sites.old.own) sites.old.brought.items) result) result
        ⊎ (result ≡ no_memory) }
{
    match QueryGraphs::prepare(alloc, config, USUAL_REWRITES, MOST_STATES) {
        Ok(graphs) => find_by(alloc, &graphs, rows, sites),
        Err(NoMemory) => Ending::no_memory(),
    }
}

/// What the checks find in the classes of the rows, by the graphs of their representatives.
fn find_by<W: Watchers>(
    alloc: Global,
    graphs: &QueryGraphs<'_>,
    rows: &[ClassRow],
    sites: &mut ShownChecks<W>,
) -> Ending
    requires limits { graphs.now ≡ limited_to graphs.now.config site_rewrites most_states }
    requires listed { AreListed (ground_of graphs.now.config) [] (classes_of_rows rows.now) }
    ensures { WithinStates graphs.now.config site_rewrites
        (TellsFindings graphs.now.config (sites_of (λ b. name b) (λ b. held b) (λ b. step b) (W.sites sites.old.own) sites.old.brought.items) result) result
        ⊎ (result ≡ no_memory) }
{
    match show_rows(alloc, graphs, rows, sites) {
        Ok(()) => match graphs.sets() {
            Ok(_) => Ending::written(Status::Clean, text_of(alloc, sites)),
            // Where a server's name reaches too many pairs, so does some representative, and the run has ended for it.
            Err(_) => unreachable!(),
        },
        Err(ending) => ending,
    }
}

/// The text of what the checks tell.
fn text_of<W: Watchers>(alloc: Global, sites: &ShownChecks<W>) -> Result<Octets, NoMemory>
    ensures { IfOk result (λ text. text ≡ sites_text (map (site_findings []) (sites_of (λ b. name b) (λ b. held b) (λ b. step b) (W.sites sites.now.own) sites.now.brought.items))) }
{
    let found = findings(alloc, sites)?;
    sites_text(alloc, found.items())
}

/// Shows the views of the classes of the rows to all checks, in order, up to the first representative that reaches too many
/// pairs of state and type; then it is how the run ends.
pub(crate) fn show_rows<W: Watchers>(
    alloc: Global,
    graphs: &QueryGraphs<'_>,
    rows: &[ClassRow],
    sites: &mut ShownChecks<W>,
) -> Result<(), Ending>
    ensures ok { OnOk result (AreShown graphs.now (classes_of_rows rows.now)
        (sites_of (λ b. name b) (λ b. held b) (λ b. step b) (W.sites sites.old.own) sites.old.brought.items)
        (sites_of (λ b. name b) (λ b. held b) (λ b. step b) (W.sites sites.new.own) sites.new.brought.items)) }
    ensures err { IfErr result (EndsAmongClasses graphs.now (classes_of_rows rows.now)) }
{
    let mut last = None;
    for row in rows {
        show_row(alloc, graphs, row, &mut last, sites)?;
    }
    Ok(())
}

/// Shows the views of the classes of a row to all checks.
fn show_row<W: Watchers>(
    alloc: Global,
    graphs: &QueryGraphs<'_>,
    row: &ClassRow,
    last: &mut Option<HeldView>,
    sites: &mut ShownChecks<W>,
) -> Result<(), Ending>
    requires { IfSome last.old (IsHeld graphs.now) }
    ensures last { OnOk result (IfSome last.new (IsHeld graphs.now)) }
    ensures ok { OnOk result (AreShown graphs.now (classes_of_row row.now)
        (sites_of (λ b. name b) (λ b. held b) (λ b. step b) (W.sites sites.old.own) sites.old.brought.items)
        (sites_of (λ b. name b) (λ b. held b) (λ b. step b) (W.sites sites.new.own) sites.new.brought.items)) }
    ensures err { IfErr result (EndsAmongClasses graphs.now (classes_of_row row.now)) }
{
    let exact = Class::Exact(row.name.copy(alloc)?);
    show_class(alloc, graphs, &exact, &row.name, last, sites)?;
    match &row.below {
        Some(representative) => {
            let below = Class::Below(row.name.copy(alloc)?);
            show_class(alloc, graphs, &below, representative, last, sites)
        }
        None => Ok(()),
    }
}

/// Shows the view of a class for which the query stands to all checks. Where queries walk as one name does, one graph
/// serves for all of them that come one behind another.
fn show_class<W: Watchers>(
    alloc: Global,
    graphs: &QueryGraphs<'_>,
    class: &Class,
    query: &Name,
    last: &mut Option<HeldView>,
    sites: &mut ShownChecks<W>,
) -> Result<(), Ending>
    requires { IfSome last.old (IsHeld graphs.now) }
    ensures last { OnOk result (IfSome last.new (IsHeld graphs.now)) }
    ensures ok { OnOk result (AreShown graphs.now (record { class = class.now; representative = query.now } ∷ [])
        (sites_of (λ b. name b) (λ b. held b) (λ b. step b) (W.sites sites.old.own) sites.old.brought.items)
        (sites_of (λ b. name b) (λ b. held b) (λ b. step b) (W.sites sites.new.own) sites.new.brought.items)) }
    ensures err { IfErr result (EndsAmongClasses graphs.now (record { class = class.now; representative = query.now } ∷ [])) }
{
    match graphs.walks_as(query) {
        Some(like) => show_like(alloc, graphs, class, query, like, last, sites),
        None => show_by_graph(alloc, graphs, class, query, sites),
    }
}

/// Shows the view of a class to all checks, for which a query stands that walks as the name does.
fn show_like<W: Watchers>(
    alloc: Global,
    graphs: &QueryGraphs<'_>,
    class: &Class,
    query: &Name,
    like: &Name,
    last: &mut Option<HeldView>,
    sites: &mut ShownChecks<W>,
) -> Result<(), Ending>
    requires like { WalksLike graphs.now like.now query.now }
    requires last { IfSome last.old (IsHeld graphs.now) }
    ensures last { OnOk result (IfSome last.new (IsHeld graphs.now)) }
    ensures ok { OnOk result (AreShown graphs.now (record { class = class.now; representative = query.now } ∷ [])
        (sites_of (λ b. name b) (λ b. held b) (λ b. step b) (W.sites sites.old.own) sites.old.brought.items)
        (sites_of (λ b. name b) (λ b. held b) (λ b. step b) (W.sites sites.new.own) sites.new.brought.items)) }
    ensures err { IfErr result (EndsAmongClasses graphs.now (record { class = class.now; representative = query.now } ∷ [])) }
{
    hold(alloc, graphs, class, like, last)?;
    match last {
        Some(one) => {
            change_class(alloc, class, query, &mut one.view)?;
            show(alloc, sites, &one.view)?;
            Ok(())
        }
        None => Ok(()),
    }
}

/// Shows the view of a class to all checks, by the graph of the query that stands for it. Where the name of some server
/// reaches too many pairs of state and type, there is none to be shown: some representative reaches too many then.
fn show_by_graph<W: Watchers>(
    alloc: Global,
    graphs: &QueryGraphs<'_>,
    class: &Class,
    query: &Name,
    sites: &mut ShownChecks<W>,
) -> Result<(), Ending>
    ensures ok { OnOk result (AreShown graphs.now (record { class = class.now; representative = query.now } ∷ [])
        (sites_of (λ b. name b) (λ b. held b) (λ b. step b) (W.sites sites.old.own) sites.old.brought.items)
        (sites_of (λ b. name b) (λ b. held b) (λ b. step b) (W.sites sites.new.own) sites.new.brought.items)) }
    ensures err { IfErr result (EndsAmongClasses graphs.now (record { class = class.now; representative = query.now } ∷ [])) }
{
    match graphs.graph(query) {
        Ok(Some(graph)) => {
            let seen = view(alloc, class, query, &graph)?;
            show(alloc, sites, &seen)?;
            Ok(())
        }
        Ok(None) => Ok(()),
        Err(GraphFault::StatesPassed) => Err(too_many_states(alloc, query)),
        Err(GraphFault::NoMemory) => Err(Ending::no_memory()),
    }
}
