//! The states of slices and of replicas, as Solr names them.

ghost use Rattle.std.specs.Prelude.{◌≡◌};
ghost use Rattle.sc_admin.specs.Status as shown;

use sc_cluster::State;

/// The state of a slice.
pub fn state_name(state: State) -> &'static str
    ensures { result.now ≡ shown.state_name state }
{
    match state {
        State::Active => "active",
        State::Inactive => "inactive",
        State::Construction => "construction",
        State::Recovery => "recovery",
    }
}

/// The state of the replicas of a slice in this state.
pub(crate) fn replica_state(state: State) -> &'static str
    ensures { result.now ≡ shown.replica_state state }
{
    match state {
        State::Active | State::Inactive => "active",
        State::Construction | State::Recovery => "recovering",
    }
}
