//! Whether an address of a server's name can be learnt while some servers are followed.

ghost use Rattle.std.specs.Prelude.{◌≡◌, ◌↔◌, ◌⊎◌, ◌<◌, true, false, length, slice_get, List, Some, IfOk};
ghost use Rattle.std.specs.List.{list_any};
ghost use Rattle.address_deps.specs.Addresses.{PathGives, IsLearnt, turn_gives};
ghost use Rattle.address_deps.specs.Giving.{AreComplete, AreGiving, is_marked, names_followed, unmarked};
ghost use Rattle.address_deps.specs.declared.addresses.Turn.{Turn as TurnOf};

use crate::addresses::{AddressLearnt, AddressPaths, Turn};
use crate::server_set::{Followed, ServerSet};
use dns_data::{List, NoMemory};
use std::alloc::Global;
use zone_lookup::Hosts;

/// Whether an address of a server's name can be learnt while these servers are followed.
pub(crate) fn learns(
    alloc: Global,
    hosts: &Hosts<'_>,
    address: &AddressLearnt<'_>,
    followed: &ServerSet,
) -> Result<bool, NoMemory>
    ensures { IfOk result (λ learns. (learns ≡ true) ↔ IsLearnt followed.now address.now) }
{
    match address {
        AddressLearnt::Known(learnt) => Ok(*learnt),
        AddressLearnt::ByPaths(paths) => {
            learns_by_paths(alloc, hosts, paths, &Followed::Named(followed))
        }
    }
}

/// Whether one of the paths gives an address while these servers are followed.
pub(crate) fn learns_by_paths(
    alloc: Global,
    hosts: &Hosts<'_>,
    paths: &AddressPaths<'_>,
    followed: &Followed<'_>,
) -> Result<bool, NoMemory>
    ensures { IfOk result (λ learns. (learns ≡ true)
        ↔ (PathGives (names_followed hosts.now followed.now) paths.now.four paths.now.starts ⊎ PathGives (names_followed hosts.now followed.now) paths.now.six paths.now.starts)) }
{
    let starts = paths.starts.items();
    let four = some_gives(alloc, hosts, paths.four.items(), starts, followed)?;
    let six = some_gives(alloc, hosts, paths.six.items(), starts, followed)?;
    Ok(four || six)
}

/// Whether a path of these nodes' turns from one of the starts gives an address.
fn some_gives(
    alloc: Global,
    hosts: &Hosts<'_>,
    nodes: &[List<Turn<'_>>],
    starts: &[u32],
    followed: &Followed<'_>,
) -> Result<bool, NoMemory>
    ensures { IfOk result (λ gives. (gives ≡ true) ↔ PathGives (names_followed hosts.now followed.now) nodes.now starts.now) }
{
    let mut marks = vec![in alloc; false; nodes.len()]?;
    let giving = marks.as_mut_slice();
    while mark_more(hosts, nodes, followed, giving) {}
    Ok(some_marked(giving, starts))
}

/// Whether one of the nodes with these numbers is marked.
fn some_marked(marks: &[bool], nodes: &[u32]) -> bool
    ensures { result ≡ list_any (is_marked marks.now) nodes.now }
{
    nodes.iter().any(|at| is_marked(marks, *at))
}

/// Marks the nodes from which a path by marked ones gives an address, from the last to the first; gives whether one more
/// is marked.
fn mark_more(
    hosts: &Hosts<'_>,
    nodes: &[List<Turn<'_>>],
    followed: &Followed<'_>,
    marks: &mut [bool],
) -> bool
    requires room { length marks.old ≡ length nodes.now }
    requires giving { AreGiving (names_followed hosts.now followed.now) nodes.now marks.old }
    ensures giving { AreGiving (names_followed hosts.now followed.now) nodes.now marks.new }
    ensures complete { result ≡ false → AreComplete (names_followed hosts.now followed.now) nodes.now marks.new }
    ensures fewer { result ≡ true → unmarked marks.new < unmarked marks.old }
{
    let mut more = false;
    let mut left = nodes.len();
    while left > 0 {
        left -= 1;
        if mark_node(hosts, nodes, followed, left, marks) {
            more = true;
        }
    }
    more
}

/// Marks a node, if it isn't marked, from which a path by marked ones gives an address; gives whether it was.
fn mark_node(
    hosts: &Hosts<'_>,
    nodes: &[List<Turn<'_>>],
    followed: &Followed<'_>,
    at: usize,
    marks: &mut [bool],
) -> bool
    requires room { length marks.old ≡ length nodes.now }
    requires node { at < length nodes.now }
    requires giving { AreGiving (names_followed hosts.now followed.now) nodes.now marks.old }
    ensures giving { AreGiving (names_followed hosts.now followed.now) nodes.now marks.new }
    ensures fewer { result ≡ true → unmarked marks.new < unmarked marks.old }
    ensures same { result ≡ false → marks.new ≡ marks.old }
    ensures closed { result ≡ false → (turns : List TurnOf) → slice_get nodes.now at ≡ Some turns → is_marked marks.old at ≡ false → list_any (turn_gives (names_followed hosts.now followed.now) (is_marked marks.old) true) turns ≡ false }
{
    if marks[at] {
        return false;
    }
    if !one_gives(hosts, followed, marks, nodes[at].items()) {
        return false;
    }
    marks[at] = true;
    true
}

/// Whether by one of the turns a path gives an address.
fn one_gives(hosts: &Hosts<'_>, followed: &Followed<'_>, marks: &[bool], turns: &[Turn<'_>]) -> bool
    ensures { result ≡ list_any (turn_gives (names_followed hosts.now followed.now) (is_marked marks.now) true) turns.now }
{
    turns
        .iter()
        .any(|turn| turn_gives(hosts, followed, marks, turn))
}

/// Whether by the turn a path gives an address: it ends in one, or goes on to a marked node.
fn turn_gives(hosts: &Hosts<'_>, followed: &Followed<'_>, marks: &[bool], turn: &Turn<'_>) -> bool
    ensures { result ≡ turn_gives (names_followed hosts.now followed.now) (is_marked marks.now) true turn.now }
{
    match turn {
        Turn::Gives => true,
        Turn::Fails => false,
        Turn::Goes(to) => is_marked(marks, *to),
        Turn::Waits(to, name) => followed.has(hosts, name) && is_marked(marks, *to),
    }
}

/// Whether the node with this number is marked.
fn is_marked(marks: &[bool], at: u32) -> bool
    ensures { result ≡ is_marked marks.now at }
{
    match marks.get(at as usize) {
        Some(mark) => *mark,
        None => false,
    }
}
