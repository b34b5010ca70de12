//! States as keys.

ghost use Rattle.std.specs.Prelude.{◌≡◌};
ghost use Rattle.interp_graph.specs.StateKey.{state_eq};

use dns_data::Boxed;
use net_model::State;
use std::hash::{Hash, Hasher};
use std::marker::Model;

/// A state by which its node is found.
#[derive(Debug, Drop)]
pub(crate) struct Key {
    state: Boxed<State>,
}

impl Model for Key {
    ghost use Rattle.net_model.specs.declared.walk.State.{State};

    ghost Value = { State };

    ghost view = { λ key. key.state };

    ghost inverse = { λ state. record { state = state } };
}

impl Key {
    /// The key of a state.
    pub(crate) fn new(state: Boxed<State>) -> Key
        ensures { result ≡ state }
    {
        Key { state }
    }

    /// The state.
    pub(crate) fn state(&self) -> &State
        ensures { result.now ≡ self.now }
    {
        self.state.get()
    }

    /// The state, by value.
    pub(crate) fn into_state(self) -> Boxed<State>
        ensures { result ≡ self }
    {
        self.state
    }
}

impl PartialEq for Key {
    ghost use Rattle.std.specs.Cmp.{partial_equiv_from_equiv};
    ghost use Rattle.interp_graph.specs.StateKey.{state_equivalence};

    ghost eq = { state_eq };

    ghost laws = { partial_equiv_from_equiv state_equivalence };

    fn eq(&self, other: &Key) -> bool {
        same_states(self.state(), other.state())
    }
}

impl Eq for Key {
    ghost use Rattle.interp_graph.specs.StateKey.{state_equivalence};

    ghost laws = { state_equivalence };
}

impl Hash for Key {
    ghost use Rattle.interp_graph.specs.StateKey.{state_writes, equal_writes};

    ghost hash_input = { state_writes };

    ghost respects_eq = { equal_writes };

    fn hash<H: Hasher>(&self, state: &mut H) {
        let own = self.state();
        state.write(own.server.encoding());
        state.write(own.name.encoding());
        state.write_u32(own.used);
    }
}

/// Whether two states are one. The numbers are compared first: mostly one tells that they aren't.
fn same_states(a: &State, b: &State) -> bool
    ensures { result ≡ state_eq a.now b.now }
{
    a.used == b.used
        && a.cut == b.cut
        && a.name == b.name
        && a.server == b.server
        && a.carried == b.carried
        && a.last == b.last
        && a.zone == b.zone
}
