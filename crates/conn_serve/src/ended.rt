use http_frames::FrameErr;

/// How the session of a connection ended.
#[derive(Clone, Copy, Debug, PartialEq, Eq)]
pub enum Ended {
    /// The source has ended, between two requests.
    Done,
    /// The last request that was answered asked for it, or is of HTTP/1.0 (RFC 9112, section 9.6).
    Closed,
    /// A shutdown was answered.
    Asked,
    /// The source has ended, inside a request.
    ClosedByPeer,
    /// A request was refused, and the response to it was sent.
    Refused(FrameErr),
    /// The request that is the last one of a connection, the 100,000th, was answered.
    Limit,
    /// A cell has no ticket left; `count` was read in it, and a response that says so, or the one that takes no memory, was sent.
    Spent { count: u64 },
    /// A read failed: the source's count of faults rose.
    SourceFailed,
    /// A write failed: the sink's count of faults rose.
    SinkFailed,
    /// There was no memory, and the response that says so was sent.
    NoMemory,
}
