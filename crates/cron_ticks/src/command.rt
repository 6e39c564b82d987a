use side_base::Moment;

/// What the ticks are asked. A moment below the greatest that came so far counts as that greatest, and so does one before the start.
#[derive(Clone, Copy, Debug, PartialEq, Eq)]
pub enum TicksCmd {
    /// The next tick that is due at this moment or before.
    Take { now: Moment },
}

/// What they answer.
#[derive(Clone, Copy, Debug, PartialEq, Eq)]
pub enum TicksReply {
    /// This tick, which no other answer has given: the place of its binding, its number among that binding's ticks, from 1, and when it was due, in
    /// milliseconds since 1970.
    Tick { place: u32, number: u64, due: u64 },
    /// None is due. `next` is when the next one will be, in milliseconds since 1970; it may lie past the greatest `Moment`. There is none where there are no bindings.
    Idle { next: Option<u64> },
}
