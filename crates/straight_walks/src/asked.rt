//! What a search asks, and of which servers.

use dns_data::Name;
use zone_lookup::{CutTable, Hosts, LearntSets};

/// The servers that are asked, the sets of learnt addresses, of which the least is followed, what the referrals of their
/// zone cuts show, and the name for which they are asked.
#[derive(Clone, Copy)]
pub(crate) struct Asked<'h, 'q, 'a> {
    pub hosts: &'h Hosts<'a>,
    pub sets: &'q LearntSets,
    pub table: &'q CutTable<'a>,
    pub name: &'q Name,
    pub rewrites: u32,
}
