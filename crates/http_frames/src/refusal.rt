ghost use Rattle.std.specs.Prelude.{◌≡◌};
ghost use Rattle.http.specs.StatusCode.{IsStatusCode};
ghost use Rattle.http_frames.specs.Refusals.{refused_status, refused_name};
ghost use Rattle.http_frames.specs.declared.refusal.FrameErr.TheVariants as errors;

use std::alloc::AllocError;

/// Why the bytes of a request are refused. Each refusal ends the connection.
#[derive(Clone, Copy, Debug, PartialEq, Eq)]
pub enum FrameErr {
    /// 16,384 bytes came without a whole head.
    HeadTooLong,
    /// The bytes begin no head.
    BadHead,
    /// A head has more than 64 fields.
    TooManyHeaders,
    /// A request of HTTP/1.1 has not exactly one `Host`.
    BadHost,
    /// Both `Content-Length` and `Transfer-Encoding` are there.
    BothLengths,
    /// `Transfer-Encoding` is not the one field `chunked` of HTTP/1.1.
    TransferCoding,
    /// `Content-Length` is not one field of 1 to 18 decimal digits.
    BadLength,
    /// A `Content-Encoding` is not `identity`.
    Coding,
    /// The content is longer than 4,194,304 bytes.
    TooLong,
    /// The bytes begin no content in chunks whose lines and trailers have at most 16,384 bytes.
    BadChunk,
    /// There is no room. Nothing has changed, and the call may be made again.
    NoMemory,
}

impl FrameErr {
    /// The status of the response to bytes that are refused so, from 400 to 503 (RFC 9110, section 15). Takes no memory.
    pub fn status(self) -> u16
        ensures table { result ≡ refused_status self }
        ensures code { IsStatusCode result }
    {
        match self {
            FrameErr::HeadTooLong => 431,
            FrameErr::BadHead => 400,
            FrameErr::TooManyHeaders => 431,
            FrameErr::BadHost => 400,
            FrameErr::BothLengths => 400,
            FrameErr::TransferCoding => 501,
            FrameErr::BadLength => 400,
            FrameErr::Coding => 415,
            FrameErr::TooLong => 413,
            FrameErr::BadChunk => 400,
            FrameErr::NoMemory => 503,
        }
    }

    /// Its name, which the response to bytes that are refused so tells. Takes no memory.
    pub fn name(self) -> &'static str
        ensures { result.now ≡ refused_name self }
    {
        match self {
            FrameErr::HeadTooLong => "HeadTooLong",
            FrameErr::BadHead => "BadHead",
            FrameErr::TooManyHeaders => "TooManyHeaders",
            FrameErr::BadHost => "BadHost",
            FrameErr::BothLengths => "BothLengths",
            FrameErr::TransferCoding => "TransferCoding",
            FrameErr::BadLength => "BadLength",
            FrameErr::Coding => "Coding",
            FrameErr::TooLong => "TooLong",
            FrameErr::BadChunk => "BadChunk",
            FrameErr::NoMemory => "NoMemory",
        }
    }
}

impl From<AllocError> for FrameErr {
    ghost from_gives = { λ _ error. error ≡ errors.NoMemory };

    fn from(_: AllocError) -> FrameErr {
        FrameErr::NoMemory
    }
}
