//! Classes of names, by a graph of base names that is made when the first class is asked for.

ghost use Rattle.std.specs.Prelude.{◌≡◌, ◌↔◌, true, IfOk};
ghost use Rattle.label_graph.specs.Pairs.{AreSame};
ghost use Rattle.net_model.specs.Class.{IsClassOf, IsRepresentative};
ghost use Rattle.net_model.specs.Reading.{ground_of};
ghost use Rattle.net_model.specs.Shown.{Represents};
ghost use Rattle.net_model.specs.declared.class.Class.{Class as ClassValue};

use base_names::base_graph;
use dns_data::{Name, NoMemory};
use label_graph::LabelGraph;
use net_model::Class;
use query_classes::{class_of, representative};
use std::alloc::Global;
use std::marker::Model;
use zone_lookup::Hosts;

/// The classes of a configuration. Contracts see the configuration.
#[derive(Drop)]
pub(crate) struct Classes<'h, 'a> {
    hosts: &'h Hosts<'a>,
    graph: Option<LabelGraph>,
}

impl<'h, 'a> Model for Classes<'h, 'a> {
    ghost use Rattle.net_model.specs.declared.config.Config.{Config};
    ghost use Rattle.net_model.specs.Reading.{ground_of};
    ghost use Rattle.label_graph.specs.Pairs.{AreSame};
    ghost use Rattle.std.specs.Prelude.{IfSome};

    ghost Value = { Config };

    ghost view = { λ classes. classes.hosts.now };

    ghost invariant = { λ classes. IfSome classes.graph (λ graph. AreSame graph (ground_of classes.hosts.now)) };
}

impl<'h, 'a> Classes<'h, 'a> {
    /// The classes of a configuration. No graph is made yet.
    pub(crate) fn new(hosts: &'h Hosts<'a>) -> Classes<'h, 'a>
        ensures { result ≡ hosts.entry.now }
    {
        Classes { hosts, graph: None }
    }

    /// The class of the name.
    pub(crate) fn class_of(&mut self, alloc: Global, query: &Name) -> Result<Class, NoMemory>
        ensures class { IfOk result (IsClassOf (ground_of self.old) query.now) }
        ensures one { IfOk result (λ class. (other : ClassValue) → IsClassOf (ground_of self.old) query.now other → other ≡ class) }
        ensures kept { self.new ≡ self.old }
    {
        let graph = self.take_graph(alloc)?;
        let class = class_of(alloc, &graph, query)?;
        self.graph = Some(graph);
        Ok(class)
    }

    /// Whether the name is the representative of its class.
    pub(crate) fn represents(&mut self, alloc: Global, query: &Name) -> Result<bool, NoMemory>
        ensures answer { IfOk result (λ answer. (answer ≡ true) ↔ Represents self.old query.now) }
        ensures kept { self.new ≡ self.old }
    {
        let graph = self.take_graph(alloc)?;
        let answer = represents(alloc, &graph, query)?;
        self.graph = Some(graph);
        Ok(answer)
    }

    /// Takes the graph out, or makes it.
    fn take_graph(&mut self, alloc: Global) -> Result<LabelGraph, NoMemory>
        ensures same { IfOk result (λ graph. AreSame graph (ground_of self.old)) }
        ensures kept { self.new ≡ self.old }
    {
        match self.graph.take() {
            Some(graph) => Ok(graph),
            None => base_graph(alloc, self.hosts),
        }
    }
}

/// Whether the name is the representative of its class in a graph.
fn represents(alloc: Global, graph: &LabelGraph, query: &Name) -> Result<bool, NoMemory>
    ensures { IfOk result (λ answer. (answer ≡ true) ↔ ((class : ClassValue) × IsClassOf graph.now query.now class × IsRepresentative graph.now class query.now)) }
{
    let class = class_of(alloc, graph, query)?;
    match representative(alloc, graph, &class)? {
        Some(name) => Ok(name == *query),
        None => Ok(false),
    }
}
