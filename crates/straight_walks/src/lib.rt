//! Queries whose walks go straight: by delegations, and by rewrites in one server, to ends where all servers answer alike.
//! Walks go on past referrals that show faults.
//!
//! The layer above may rest on this: where `straight_ends` gives what the walks of a query end in, the query shows the
//! faults that the ends tell and no others, reaches no more pairs of state and type than are allowed, and has the outcomes
//! of these ends and no others. Where the ends say that they are those of the names below too that have no origin of a
//! zone between, these names show the same faults; so does the query with any unnamed tail, where they say that its ends
//! are known too. Where it gives nothing, nothing is said. Ends of two configurations can be compared, type by type.
//!
//! Costs: for each origin of a zone, once, what decides at it is looked for at each of at most 4,096 states; each zone cut
//! is looked for in a table of what its referrals show, once for each state, and each of its name servers is looked into:
//! four names are lent. A referral takes memory only where it shows faults: 40 octets for the origin, and as many in each
//! query's ends. Of more than 32 top servers those are looked at that hold a zone at or above the origin: a table gives
//! them that is made once, by the origins of the top servers' zones, and each front of the origin is looked for in it. At
//! the others a walk ends at once; they are counted with the states, and neither queued nor kept. A state is found among
//! more than 32 in a set. An origin keeps 32 octets of each state that is looked at. For a query there is a search among
//! the origins, of one comparison where the query before it stands between the same two origins. At each server that
//! answers for the query's nearest origin there is a search among the server's zones for the nearest zone, of two
//! comparisons, one of them for the server, where no origin of the server's stands between the query and its nearest
//! origin, and what decides at the query is looked for. Where that is the query itself two or three comparisons of names
//! more tell whether anything is below it by an asterisk label. Where it is an alias the same is done for its target, at
//! the same server, and so on, for no more aliases one behind the other than a walk may be rewritten. Where a DNAME record
//! redirects the query, the name that it makes is made once, and the same is done for it and its aliases. If the server has
//! no name to which these lead, or they lead past the limit, 24 octets are taken for the place of the DNAME record, or 32
//! for that of the last alias. Where several servers answer the query, their data are compared, type by type; nothing is
//! looked for again, and so where ends are compared. Where one of these servers refers the query, the table is looked into,
//! and each name server of the zone cut is looked for among the servers; if one is configured, or shows a fault, each is
//! looked into as for an origin. All this takes no memory, but for a name that a DNAME record makes and for such a place.
//! Only where one of the zone cut's name servers is configured the states of the query's nearest origin are copied, once.
//! The search goes on from there, over the states queued after that one and those at the servers to which it refers the
//! query, and looks at no state twice. Where no origin is at or above the query, none of more than 32 top servers is looked
//! at. No graph is made. Where each of these servers refers the query to servers elsewhere or holds no zone for it, its
//! ends are those of the names below too, and where the others answer it by data of its own and have no wildcard below it,
//! of the query with an unnamed tail: those take no search of their own. Whether an origin stands below a name takes three
//! comparisons.
#![tactic(auto)]

mod aliases;
mod answering;
mod answers;
mod asked;
mod below;
mod ends;
mod faulty;
mod lent_place;
mod name_server;
mod origins;
mod queue;
mod referrals;
mod referring;
mod region;
mod regions;
mod searching;
mod shown_faults;
mod straight;

pub use answers::ZoneAnswer;
pub use ends::StraightEnds;
pub use faulty::{Faulty, ReferralFlags};
pub use lent_place::{AliasFault, LentPlace};
pub use regions::Regions;
pub use straight::straight_ends;
