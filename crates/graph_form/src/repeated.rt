//! Walks that come to a server twice with one name.

ghost use Rattle.std.specs.Prelude.{◌≡◌, IfOk, map};
ghost use Rattle.std.specs.List.{list_any};
ghost use Rattle.graph_form.specs.Repeated.{equal_twice, names_asked, place_at};
ghost use Rattle.graph_form.specs.Report.{is_same_place, repeats};

use dns_data::{Name, NoMemory};
use net_model::{State, Walk};
use std::alloc::Global;
use std::collections::BTreeSet;

/// Of no more states than these each is compared with all behind it.
const FEW: usize = 64;

/// The server at which a state asks, and the name for which it asks.
#[derive(PartialEq, Eq, PartialOrd, Ord, Drop)]
pub(crate) struct Question<'a> {
    server: &'a Name,
    name: &'a Name,
}

/// Whether the walk comes to a server twice with one name. Few states are compared with each other; of more each is looked
/// up once in an ordered set. None is copied.
pub fn repeats(alloc: Global, walk: &Walk) -> Result<bool, NoMemory>
    ensures { IfOk result (λ answer. answer ≡ repeats walk.now.states) }
{
    let states = walk.states.items();
    if states.len() <= FEW {
        return Ok(some_repeat(states));
    }
    let questions = questions_of(alloc, states)?;
    // Named, since the proof speaks of the answer that comes where memory suffices.
    let repeats = equal_twice(alloc, questions.as_slice())?;
    Ok(repeats)
}

/// Whether two of the states are at one server with one name. It takes no memory.
fn some_repeat(states: &[State]) -> bool
    ensures { result ≡ repeats states.now }
{
    for at in 0..states.len() {
        if comes_again(&states[at], &states[at + 1..]) {
            return true;
        }
    }
    false
}

/// Whether one of the states is at the server of this one, with its name.
fn comes_again(state: &State, later: &[State]) -> bool
    ensures { result ≡ list_any (is_same_place state.now) later.now }
{
    later.iter().any(|other| is_same_place(state, other))
}

/// Whether two states are at one server with one name. The names are compared first: mostly they differ.
#[tactic(auto, using(crate::proofs::TwiceEqual::either_first))]
fn is_same_place(one: &State, other: &State) -> bool
    ensures { result ≡ is_same_place one.now other.now }
{
    one.name == other.name && one.server == other.server
}

/// The questions of the states.
fn questions_of<'a>(alloc: Global, states: &'a [State]) -> Result<Vec<Question<'a>>, NoMemory>
    ensures { IfOk result (λ questions. map names_asked questions.items ≡ map place_at states.now) }
{
    let mut questions = Vec::with_capacity(alloc, states.len())?;
    for state in states {
        questions.push(Question {
            server: &state.server,
            name: &state.name,
        })?;
    }
    Ok(questions)
}

/// Whether two of the items are equal.
fn equal_twice<K: Ord>(alloc: Global, items: &[K]) -> Result<bool, NoMemory>
    ensures { IfOk result (λ answer. answer ≡ equal_twice K.eq items.now) }
{
    let mut met = BTreeSet::new(alloc);
    for item in items {
        if !met.insert(item)? {
            return Ok(true);
        }
    }
    Ok(false)
}
