use crate::word::Token;
use std::marker::Model;

/// What one worker knows of a stop word, and the right to use it.
///
/// Contracts see whether it has found the word set, and whether and why it has ended; and of the root what it has met.
#[derive(Drop)]
pub struct StopSeat {
    pub(crate) token: Token,
}

impl Model for StopSeat {
    ghost use Rattle.sidecar_workers.specs.StopSeat.{Standing};
    ghost use Rattle.sidecar_workers.specs.StopPlay.{standing, Rests};

    ghost Value = { Standing };

    ghost view = { λ seat. standing seat.token };

    ghost invariant = { λ seat. Rests seat.token };
}
