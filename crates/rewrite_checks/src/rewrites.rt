//! The faults of the rewrite kinds that a query shows.

ghost use Rattle.std.specs.Prelude.{◌≡◌, Contains, IfOk, map, true};
ghost use Rattle.dns_data.specs.Name.{IsName, Labels};
ghost use Rattle.dns_data.specs.declared.rr_type.RrType.{RrType};
ghost use Rattle.graph_form.specs.Verdict.{AreShownOf};
ghost use Rattle.graph_form.specs.declared.report.Seen.{Seen};
ghost use Rattle.net_model.specs.Class.{IsClassOf};
ghost use Rattle.net_model.specs.Reading.{ground_of};
ghost use Rattle.net_model.specs.Returns.{ComesBack, RewritesAt, hops_round};
ghost use Rattle.net_model.specs.Shown.{with_sets};
ghost use Rattle.net_model.specs.Step.{Setting};
ghost use Rattle.net_model.specs.Tails.{is_overlong};
ghost use Rattle.net_model.specs.Walk.{IsWalk};
ghost use Rattle.net_model.specs.declared.fault.Fault.TheVariants.{Limit, Overlong};
ghost use Rattle.net_model.specs.declared.place.Place.{Place};
ghost use Rattle.net_model.specs.declared.walk.Walk.{Walk};
ghost use Rattle.rewrite_checks.specs.Rewrites.{IsGraphFor, is_of_rewrites, is_shown};

use crate::answers::put_answers;
use dns_data::{List, NoMemory};
use graph_form::{EndFault, Graph, PicksFaults, Seen, first_types, put_end_faults, typed_branches};
use net_model::Class;
use std::alloc::Global;

/// Picks the rewrite limits, the blackholes, and the overlong rewrites if the query represents its class.
#[derive(Clone, Copy)]
struct RewriteFaults {
    represents: bool,
}

impl PicksFaults for RewriteFaults {
    ghost picked = { λ picker. is_shown picker.represents };

    fn picks(&self, fault: &EndFault<'_>) -> bool {
        match fault {
            EndFault::Limit(_) | EndFault::Blackhole(_) => true,
            EndFault::Overlong(_) => self.represents,
            EndFault::Lame(_) | EndFault::NoAddress(_) => false,
        }
    }
}

/// The rewrite limits, blackholes, differing answers and overlong rewrites that the query of a graph shows, each once and
/// with its first type, in fault order. The class is that of the query, and `represents` tells whether the query is its
/// representative. Where an overlong rewrite is told, each member of the class meets one with that type; and where a walk
/// comes back to a server and a name, the rewrite limit is told at a rewrite that it makes in between.
pub fn rewrite_faults(
    alloc: Global,
    class: &Class,
    represents: bool,
    graph: &Graph,
) -> Result<List<Seen>, NoMemory>
    ensures shown { IfOk result (λ shown. (setting : Setting) (query : Labels) → IsGraphFor setting query class.now represents graph.now
        → AreShownOf (with_sets setting) query is_of_rewrites shown) }
    ensures overlong { IfOk result (λ shown. (setting : Setting) (query : Labels) → IsGraphFor setting query class.now represents graph.now
        → (seen : Seen) (place : Place) → Contains shown seen → seen.fault ≡ Overlong place
        → (member : Labels) → IsName member → IsClassOf (ground_of setting.config) member class.now
        → (walk : Walk) × IsWalk setting member seen.rtype walk × (is_overlong walk.leaf ≡ true)) }
    ensures returns { IfOk result (λ shown. (setting : Setting) (query : Labels) → IsGraphFor setting query class.now represents graph.now
        → (rtype : RrType) (walk : Walk) → IsWalk setting query rtype walk → (back : ComesBack walk)
        → (place : Place) × RewritesAt (hops_round walk back) place × Contains (map (λ seen. seen.fault) shown) (Limit place)) }
{
    let mut seen = List::new(alloc);
    let branches = typed_branches(alloc, graph)?;
    put_end_faults(
        alloc,
        branches.as_slice(),
        &RewriteFaults { represents },
        &mut seen,
    )?;
    put_answers(alloc, class, graph, &mut seen)?;
    // Named, since the proof speaks of the list that comes where memory suffices.
    let shown = first_types(alloc, seen)?;
    Ok(shown)
}
