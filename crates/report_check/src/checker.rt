//! What entries are checked by.

ghost use Rattle.std.specs.Prelude.{◌≡◌, ◌↔◌, true, Contains, IfOk, IsErrOf, OnOk, map, ◌∷◌, []};
ghost use Rattle.dns_data.specs.Name.{Labels};
ghost use Rattle.dns_data.specs.declared.rr_type.RrType.{RrType};
ghost use Rattle.net_model.specs.Class.{IsClassOf};
ghost use Rattle.net_model.specs.Learnt.{IsInForce};
ghost use Rattle.net_model.specs.Reading.{ground_of};
ghost use Rattle.net_model.specs.Shown.{Represents, WalksShow, with_sets};
ghost use Rattle.net_model.specs.Step.{following};
ghost use Rattle.net_model.specs.Walk.{IsWalk};
ghost use Rattle.net_model.specs.declared.class.Class.{Class as ClassValue};
ghost use Rattle.net_model.specs.declared.fault.Fault.{Fault as FaultValue};
ghost use Rattle.net_model.specs.declared.walk.Walk.{Walk as WalkValue};
ghost use Rattle.plain_resolver.specs.Passed.{HasMoreWalks, most_walks_followed};
ghost use Rattle.plain_resolver.specs.Tested.{ArePassing};
ghost use Rattle.report_check.specs.Entries.{HasLearntNames};
ghost use Rattle.report_check.specs.Steps.{is_at};
ghost use Rattle.report_json.specs.Walks.{walk_value};
ghost use Rattle.serde_json.specs.View.{view};

use crate::asked::EntryQuery;
use crate::classes::Classes;
use crate::counted::{is_counted, put_counted};
use crate::faults::faults_of_walk;
use crate::steps::step_values;
use dns_data::{List, Name, NoMemory, RrType};
use net_model::{Class, Fault, Walk};
use plain_resolver::{MOST_WALKS_FOLLOWED, ResolveFault, count_walks, resolve_tested};
use serde_json::Value;
use std::alloc::Global;
use std::collections::BTreeMap;
use std::marker::Model;
use zone_lookup::{Hosts, LearntSets};

/// The servers with the trees of their zones, how many rewrites a walk may use, the sets of learnt addresses, the
/// classes of names, and the queries that have no more walks than are followed, each with the types of which that is
/// known. Contracts see what walks are read in, with the set in force.
#[derive(Drop)]
pub(crate) struct Checker<'h, 'a> {
    hosts: &'h Hosts<'a>,
    rewrites: u32,
    sets: LearntSets,
    classes: Classes<'h, 'a>,
    counted: BTreeMap<Name, List<RrType>>,
}

impl<'h, 'a> Model for Checker<'h, 'a> {
    ghost use Rattle.std.specs.Prelude.{◌≡◌};
    ghost use Rattle.net_model.specs.Step.{Setting, following};
    ghost use Rattle.report_check.specs.Counted.{AreFew};
    ghost use Rattle.report_check.specs.Entries.{HasLearntNames};

    ghost Value = { Setting };

    ghost view = { λ checker. following checker.hosts.now checker.rewrites checker.sets.least };

    ghost invariant = { λ checker. HasLearntNames checker.hosts.now checker.rewrites checker.sets × (checker.classes ≡ checker.hosts.now)
        × AreFew (following checker.hosts.now checker.rewrites checker.sets.least) checker.counted };
}

impl<'h, 'a> Checker<'h, 'a> {
    /// What entries are checked by, with these sets of learnt addresses.
    pub(crate) fn new(
        alloc: Global,
        hosts: &'h Hosts<'a>,
        rewrites: u32,
        sets: LearntSets,
    ) -> Checker<'h, 'a>
        requires { HasLearntNames hosts.now rewrites sets }
        ensures { result ≡ following hosts.entry.now rewrites sets.least }
    {
        Checker {
            hosts,
            rewrites,
            sets,
            classes: Classes::new(hosts),
            counted: BTreeMap::new(alloc),
        }
    }

    /// Counts the walks of a query with its type, unless they were counted before. It is `WalksPassed` where there are
    /// more than 10,000.
    pub(crate) fn count_walks(
        &mut self,
        alloc: Global,
        asked: &EntryQuery,
    ) -> Result<(), ResolveFault>
        ensures few { OnOk result (HasMoreWalks self.old asked.now.query asked.now.rtype most_walks_followed → ⊥) }
        ensures passed { IsErrOf result ResolveFault.WalksPassed → HasMoreWalks self.old asked.now.query asked.now.rtype most_walks_followed }
        ensures in_force { IsInForce self.old.config self.old.rewrites self.old.followed }
        ensures kept { self.new ≡ self.old }
    {
        if is_counted(&self.counted, asked) {
            return Ok(());
        }
        count_walks(
            alloc,
            self.hosts,
            self.rewrites,
            self.followed(),
            &asked.query,
            asked.rtype,
            MOST_WALKS_FOLLOWED,
        )?;
        put_counted(alloc, &mut self.counted, asked)?;
        Ok(())
    }

    /// Walks of a query with its type, among them each whose value this is. No walk is followed beyond a step that
    /// doesn't start where the step in its place does: from the same server, with the same name.
    pub(crate) fn walks_with(
        &self,
        alloc: Global,
        asked: &EntryQuery,
        value: &Value,
    ) -> Result<List<Walk>, NoMemory>
        ensures walks { IfOk result (λ walks. (walk : WalkValue) → Contains walks walk → IsWalk self.now asked.now.query asked.now.rtype walk) }
        ensures each { IfOk result (λ walks. (walk : WalkValue) → IsWalk self.now asked.now.query asked.now.rtype walk → view value.now ≡ walk_value walk → Contains walks walk) }
    {
        match value.as_array() {
            Some(steps) => self.walks_along(alloc, asked, steps.as_slice()),
            None => Ok(List::new(alloc)),
        }
    }

    /// The walks of a query with its type of which each step starts where the step in its place does.
    fn walks_along(
        &self,
        alloc: Global,
        asked: &EntryQuery,
        steps: &[Value],
    ) -> Result<List<Walk>, NoMemory>
        ensures { IfOk result (ArePassing is_at self.now asked.now.query asked.now.rtype (map view steps.now)) }
    {
        let steps = step_values(alloc, steps)?;
        resolve_tested(
            alloc,
            self.hosts,
            self.rewrites,
            self.followed(),
            &asked.query,
            asked.rtype,
            steps.as_slice(),
        )
    }

    /// The servers of the least set.
    fn followed(&self) -> &[Name]
        ensures { result.now ≡ self.now.followed }
    {
        self.sets.deps().least.items()
    }

    /// The faults that a walk of some query shows by itself.
    pub(crate) fn faults_of(&self, alloc: Global, walk: &Walk) -> Result<List<Fault>, NoMemory>
        requires { (query : Labels) × (rtype : RrType) × IsWalk self.now query rtype walk.now }
        ensures { IfOk result (λ faults. (fault : FaultValue) → Contains faults fault ↔ WalksShow (with_sets self.now) (walk.now ∷ []) fault) }
    {
        faults_of_walk(alloc, self.hosts, &self.sets, walk)
    }

    /// The class of the query.
    pub(crate) fn class_of(&mut self, alloc: Global, query: &Name) -> Result<Class, NoMemory>
        ensures class { IfOk result (IsClassOf (ground_of self.old.config) query.now) }
        ensures one { IfOk result (λ class. (other : ClassValue) → IsClassOf (ground_of self.old.config) query.now other → other ≡ class) }
        ensures kept { self.new ≡ self.old }
    {
        self.classes.class_of(alloc, query)
    }

    /// Whether the query is the representative of its class.
    pub(crate) fn represents(&mut self, alloc: Global, query: &Name) -> Result<bool, NoMemory>
        ensures answer { IfOk result (λ answer. (answer ≡ true) ↔ Represents self.old.config query.now) }
        ensures kept { self.new ≡ self.old }
    {
        self.classes.represents(alloc, query)
    }
}
