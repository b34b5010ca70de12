//! What a server replies to a name, where a referral leads, the steps of a walk from server to server, and what the zones
//! and the learnt addresses tell of a referral and of a name.
//!
//! The layer above may rest on this: `reply_of` gives what decides at a name in the zone in which a server looks it up,
//! and `Walker::leads` where a referral to a name server leads, as the definitions do; neither takes memory. `next_steps`
//! gives the steps of a state by its server's reply, and `steps_of` those of a state, as the definition `next` does.
//! `Hosts` finds a server, a zone by its origin and the nearest zone of a name as the definitions do, and tells which name
//! servers may be followed; it gives all servers in the order of their names, and a server all trees. Servers that hold
//! equal zones may share a tree, and `trees` gives the trees of all zones. `starts` gives the states in which a query
//! begins. `find` answers as the definition `found` does, and `split_types` and `split_by` put the types of a set together
//! that go the same way. `TopServers` gives the top servers that hold a zone for a name; of a name whose walks end there
//! `learnt_at_tops` tells whether its address is learnt. `put_cut_faults` puts what a referral shows, whatever comes
//! behind it, as the definitions say: whether the two zones list other name servers or hold other addresses, whether glue
//! is missing, and whether the name server's address depends on itself (`LearntSets` has the learnt addresses). `CutTable`
//! tells it of all zone cuts, made once.
//!
//! Costs: a zone that is equal, record by record, to the last one of its origin for which a tree was made costs one
//! comparison of their records in place of a tree, and one more in place of a row of `CutTable`. What decides at a name is
//! found in one search among the zone's names, or in two where a wildcard may answer. No data are looked at but those that
//! are answered. A server and a zone are found in as many comparisons of names as the logarithm of their number. For the
//! nearest zone of a name there is one such search, `nearest_item`, and one more each time that the origin before the
//! place of the name, or of its prefix, is not at or above the name: the next search is for the prefix that both have in
//! common. The first search takes one comparison where the place near which the name is looked for is that of the nearest
//! zone's origin, and two where it is that of another last origin that isn't behind the name; a server takes one where it
//! stands at its place near, as `nearest_near` looks for both. Glue that stands right behind its zone cut in the order of
//! names is found in a few comparisons. Of a referral both zones are found by their origins, and their name servers and
//! the addresses of glue are compared; whether a name is among the learnt ones is found in sets that are made once. Of a
//! name server that isn't configured only its glue is looked for. `CutTable` keeps nothing of a zone cut where there is
//! nothing to tell; else five octets a name server, found by the place of the cut's name. `may_follow` passes over the top
//! servers. Those that hold a zone for a name are found by its prefixes, and `learnt_at_tops` asks each of them once.
//! Where thousands hold the same zones they are asked as one: `TopServers::unlike` compares each top server's zones,
//! record by record, with those of a few others, and leaves the server out where they are the same.
#![tactic(auto)]

mod alike;
mod cut_flags;
mod cut_table;
mod ends;
mod firsts;
mod follow;
mod hosts;
mod leads;
mod learnt_sets;
mod lent_cut;
mod listed;
mod lookup;
mod made_trees;
mod named;
mod referral_faults;
mod reply;
mod resting;
mod rewrites;
mod same_zones;
mod sides;
mod steps;
mod tops;
mod walker;
mod zone_cuts;

pub use alike::{one_set, split_by, split_types};
pub use cut_flags::CutFlags;
pub use cut_table::CutTable;
pub use ends::gives_address;
pub use follow::has_glue_below;
pub use hosts::{Host, Hosts, Near};
pub use leads::Lead;
pub use learnt_sets::{LearntSets, set_of};
pub use lent_cut::LentCut;
pub use listed::{list_place, listed_for};
pub use lookup::find;
pub use named::{Named, nearest_item};
pub use referral_faults::put_cut_faults;
pub use reply::{Reply, reply_in, reply_near, reply_of};
pub use resting::learnt_at_tops;
pub use rewrites::{arrived, starts};
pub use steps::{Step, next_steps, steps_of};
pub use tops::TopServers;
pub use walker::Walker;
