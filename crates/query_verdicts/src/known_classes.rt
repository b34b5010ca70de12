//! Classes of names of which it is known whether an address can be learnt.

ghost use Rattle.std.specs.Prelude.{◌≡◌, [], ℕ, Contains, IfOk, IfSome, IsTrue, None as NoneOf, OnOk};
ghost use Rattle.net_model.specs.Reading.{ground_of};
ghost use Rattle.net_model.specs.declared.config.Config.{Config as ConfigOf};
ghost use Rattle.label_graph.specs.Pairs.{AreSame};
ghost use Rattle.query_verdicts.specs.Learnt.{AreKnown, IsKnownOf};
ghost use Rattle.query_verdicts.specs.declared.known_classes.KnownBelow.{KnownBelow as KnownBelowOf};

use base_names::base_graph;
use dns_data::{List, Name, NoMemory};
use label_graph::LabelGraph;
use net_model::Class;
use query_classes::class_of;
use std::alloc::Global;
use zone_lookup::Hosts;

/// Whether an address can be learnt of each name with this many octets in the class below a name, whichever servers are
/// followed.
#[derive(Debug, Drop)]
pub(crate) struct KnownBelow {
    pub above: Name,
    pub octets: u32,
    pub learnt: bool,
}

/// What is known of names by their classes. The graph of the configuration's base names is made when something is.
#[derive(Drop)]
pub(crate) struct KnownClasses {
    pub names: Option<LabelGraph>,
    pub known: List<KnownBelow>,
}

impl KnownClasses {
    /// Nothing is known. It takes no memory.
    pub(crate) fn new(alloc: Global) -> KnownClasses
        ensures names { result.names ≡ NoneOf }
        ensures known { result.known ≡ [] }
    {
        KnownClasses {
            names: None,
            known: List::new(alloc),
        }
    }

    /// Whether an address of the name can be learnt, where it is known of the names in its class with as many octets.
    pub(crate) fn learnt(&self, alloc: Global, name: &Name) -> Result<Option<bool>, NoMemory>
        ensures { IfOk result (λ found. IfSome found (λ learnt. (config : ConfigOf) (rewrites states : ℕ) → AreKnown config rewrites states self.now
            → IsKnownOf config rewrites states name.now learnt)) }
    {
        match &self.names {
            Some(names) => match class_of(alloc, names, name)? {
                Class::Below(above) => Ok(learnt_below(self.known.items(), &above, name.octets())),
                Class::Exact(_) => Ok(None),
            },
            None => Ok(None),
        }
    }

    /// Notes of a name of which it is known, for the names in its class with as many octets.
    pub(crate) fn note(
        &mut self,
        alloc: Global,
        hosts: &Hosts<'_>,
        name: &Name,
        learnt: bool,
    ) -> Result<(), NoMemory>
        ensures { OnOk result ((rewrites states : ℕ) → AreKnown hosts.now rewrites states self.old → IsKnownOf hosts.now rewrites states name.now learnt
            → AreKnown hosts.now rewrites states self.new) }
    {
        self.list_names(alloc, hosts)?;
        let Some(names) = &self.names else {
            return Ok(());
        };
        if let Class::Below(above) = class_of(alloc, names, name)? {
            self.known.push(KnownBelow {
                above,
                octets: name.octets(),
                learnt,
            })?;
        }
        Ok(())
    }

    /// Makes the graph of the configuration's base names, if it isn't made yet.
    fn list_names(&mut self, alloc: Global, hosts: &Hosts<'_>) -> Result<(), NoMemory>
        ensures known { OnOk result (self.new.known ≡ self.old.known) }
        ensures names { OnOk result (IfSome self.old.names (λ names. AreSame names (ground_of hosts.now)) → IfSome self.new.names (λ names. AreSame names (ground_of hosts.now))) }
    {
        if self.names.is_none() {
            self.names = Some(base_graph(alloc, hosts)?);
        }
        Ok(())
    }
}

/// What is known of the names with this many octets in the class below a name.
fn learnt_below(known: &[KnownBelow], above: &Name, octets: u32) -> Option<bool>
    ensures { IfSome result (λ learnt. (one : KnownBelowOf) × Contains known.now one × (one.above ≡ above.now) × (one.octets ≡ octets) × (one.learnt ≡ learnt)) }
{
    for one in known {
        if is_of(one, above, octets) {
            return Some(one.learnt);
        }
    }
    None
}

/// Whether something is known of the names with this many octets in the class below the name.
fn is_of(one: &KnownBelow, above: &Name, octets: u32) -> bool
    ensures { IsTrue result → (one.now.above ≡ above.now) × (one.now.octets ≡ octets) }
{
    one.octets == octets && one.above == *above
}
