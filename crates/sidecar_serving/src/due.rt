ghost use Rattle.std.specs.Prelude.{◌≡◌};
ghost use Rattle.sidecar_serving.specs.declared.due.Due.TheVariants as dues;

use std::mem;

/// What a worker has to do before it waits for the next connection.
pub(crate) enum Due<S, N> {
    Nothing,
    /// To serve a connection.
    Serve { source: S, sink: N },
    /// To take a turn.
    Turn,
}

/// Sets what is to be done, where nothing was.
pub(crate) fn set<S, N>(place: &mut Due<S, N>, due: Due<S, N>)
    requires { place.old ≡ dues.Nothing }
    ensures { place.new ≡ due }
{
    match mem::replace(place, due) {
        Due::Nothing | Due::Turn => {}
        Due::Serve { .. } => unreachable!(),
    }
}

/// Takes what is to be done.
pub(crate) fn take<S, N>(place: &mut Due<S, N>) -> Due<S, N>
    ensures taken { result ≡ place.old }
    ensures left { place.new ≡ dues.Nothing }
{
    mem::replace(place, Due::Nothing)
}

/// Lets go of nothing.
pub(crate) fn let_go<S, N>(due: Due<S, N>)
    requires { due ≡ dues.Nothing }
{
    match due {
        Due::Nothing | Due::Turn => {}
        Due::Serve { .. } => unreachable!(),
    }
}
