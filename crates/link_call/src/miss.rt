use side_base::Response;

/// Why an attempt of a call of a link failed.
#[derive(Debug, Drop)]
pub enum Miss {
    /// The link failed: its count of faults rose.
    Failed,
    /// The link's limit was over, so that its count of expiries rose; or the clock moved by more than the limit, whatever the reply.
    Expired,
    /// The reply has a status of 500 or more.
    Replied(Response),
}
