use side_base::Text;

/// What the turns are asked.
#[derive(Debug, Drop)]
pub enum TurnsCmd {
    /// A ticket for a call of this actor.
    Join { actor: Text },
    /// Whether it is this ticket's turn.
    Look { ticket: u64 },
    /// This ticket is no longer needed.
    Leave { ticket: u64 },
}

/// What they answer.
#[derive(Clone, Copy, Debug, PartialEq, Eq)]
pub enum TurnsReply {
    /// The ticket, which is open from now on. Tickets are numbered from 1 in the order in which they are given.
    Joined { ticket: u64 },
    /// No ticket is given: 4,096 are open.
    Full { waiting: u64 },
    /// There is no memory for a further ticket.
    NoMemory,
    /// The ticket is open, and no lesser one of its actor is.
    Yours,
    /// The ticket is open, and so are this many lesser ones of its actor.
    Behind { ahead: u64 },
    /// The ticket was open, and is so no longer.
    Left,
    /// The ticket is not open.
    NotOpen,
}
