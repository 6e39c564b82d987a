//! What holds of all bytes and all requests, as functions whose contract is the law.
ghost use Rattle.std.specs.Prelude.{◌≡◌, ◌⊎◌, ◌↔◌, ◌++◌, ◌∷◌, ℕ, [], List, Bool, false, Option, None, Result};
ghost use Rattle.http_frames.specs.Framing.{State, waiting, fed, IsNext, IsNeedStep};
ghost use Rattle.http_frames.specs.Printed.{printed, printed_request, MayBePrinted, IsOneWhole, AreWhole};
ghost use Rattle.http_frames.specs.Streams.{Whole, IsStream, Gives, Run, HasAnswered, HasEnded, IsFront, IsAnswerAfter, Midway, HasGiven, GoesOn};
ghost use Rattle.http_frames.specs.Written.{written, content, continue_bytes};
ghost use Rattle.http_frames.specs.Sent.{MayBeSent, IsOneHead, sent_fields};
ghost use Rattle.side_base.specs.declared.message.Request.{Request};
ghost use Rattle.side_base.specs.declared.message.Response.{Response};
ghost use Rattle.http_frames.specs.declared.refusal.FrameErr.{FrameErr};
ghost use Rattle.http_frames.specs.declared.step.Step.{Step};

/// Bytes are whole requests and a rest, of which no prefix is a whole request, in one way: there is no second one, and
/// no bytes are without.
pub fn streams_are_unique()
    ensures single { (bytes : List ℕ) (one other : List Whole) (rest last : List ℕ) → IsStream bytes one rest → IsStream bytes other last → (one ≡ other) × (rest ≡ last) }
    ensures exists { (bytes : List ℕ) → ¬ ((wholes : List Whole) (rest : List ℕ) → ¬ (IsStream bytes wholes rest)) }
{}

/// Bytes give one list of steps, with one end: there is no second one, and no bytes are without.
pub fn streams_give_one_list()
    ensures single { (bytes : List ℕ) (one other : List Step) (end last : Option FrameErr) → Gives bytes one end → Gives bytes other last → (one ≡ other) × (end ≡ last) }
    ensures exists { (bytes : List ℕ) → ¬ ((steps : List Step) (end : Option FrameErr) → ¬ (Gives bytes steps end)) }
{}

/// A stream of which nothing has come is mid-stream, and so it stays as bytes come: they begin with the whole requests that were given, and then have what
/// is pending.
pub fn bytes_go_on()
    ensures made { Midway [] [] (waiting [] false) }
    ensures fed { (bytes piece : List ℕ) (wholes : List Whole) (state : State) → Midway bytes wholes state → Midway (bytes ++ piece) wholes (fed state piece) }
{}

/// What an answer of `next` says of a stream that is mid-stream. A request is the next whole one, and the stream stays mid-stream; so it does at `Continue`
/// and without memory. At `Need` and at a refusal all whole requests of the bytes were given, and what is pending is the rest; it begins with a head that
/// asks for `Continue` exactly where that was given.
pub fn answers_go_on()
    ensures { (bytes : List ℕ) (wholes : List Whole) (old new : State) (answer : Result Step FrameErr) → Midway bytes wholes old → IsNext old answer new → GoesOn bytes wholes old answer new }
{}

/// However a framer was fed, as long as it has not refused the stream is mid-stream, and what it gave are the steps of the whole requests that the bytes fed
/// in all begin with.
pub fn what_was_given_begins_the_bytes()
    ensures { (bytes : List ℕ) (steps : List Step) (state : State) → Run bytes steps state → state.refused ≡ None → HasGiven bytes steps state }
{}

/// However a framer was fed, what it gave is a front of what the bytes fed in all give, and its next answer is the
/// next of that: a step; behind the last step the refusal, where the rest is refused, and `Need` where it is not.
pub fn answers_are_the_streams()
    ensures { (bytes : List ℕ) (steps all : List Step) (answer : Result Step FrameErr) (refusal : Option FrameErr) → HasAnswered bytes steps answer → Gives bytes all refusal → IsAnswerAfter steps all refusal answer }
{}

/// Where a framer answers `Need` or refuses, what it gave is all that the bytes fed in all give, and they end so.
pub fn last_answers_end_the_stream()
    ensures { (bytes : List ℕ) (steps : List Step) (end : Option FrameErr) → HasEnded bytes steps end → Gives bytes steps end }
{}

/// Of what two framers gave that were fed the same bytes, however they were cut, one begins the other; and where both
/// have come to an end they gave the same, and end in the same way.
pub fn cuts_do_not_matter()
    ensures fronts { (bytes : List ℕ) (one other : List Step) (state last : State) → Run bytes one state → Run bytes other last → IsFront one other ⊎ IsFront other one }
    ensures ends { (bytes : List ℕ) (one other : List Step) (end last : Option FrameErr) → HasEnded bytes one end → HasEnded bytes other last → (one ≡ other) × (end ≡ last) }
{}

/// Where a framer answers `Need` it is between requests exactly if the bytes fed in all are whole requests alone; and mid-stream it is so exactly where nothing
/// is pending.
pub fn between_requests_nothing_is_left()
    ensures need { (bytes : List ℕ) (steps : List Step) (state new : State) (wholes : List Whole) (rest : List ℕ) → Run bytes steps state → IsNeedStep state new → IsStream bytes wholes rest → (state ≡ waiting [] false) ↔ (rest ≡ []) }
    ensures midway { (bytes : List ℕ) (wholes : List Whole) (state : State) → Midway bytes wholes state → (state ≡ waiting [] false) ↔ (state.pending ≡ []) }
{}

/// A request that is written with its method, its target, the host `a` and, where it has content, the content's length in decimal digits, and then the
/// content, is one whole request, whatever follows it.
pub fn printed_requests_are_whole()
    ensures { (method target : List ℕ) (content : Option (List ℕ)) → MayBePrinted method target content → IsOneWhole (printed method target content) (printed_request method target content) }
{}

/// Texts that are one whole request each, written one behind the other, are a whole stream of those requests.
pub fn whole_requests_are_a_stream()
    ensures none { AreWhole [] [] }
    ensures more { (text rest : List ℕ) (request : Request) (requests : List Request) → IsOneWhole text request → AreWhole rest requests → AreWhole (text ++ rest) (request ∷ requests) }
{}

/// What `push_response` writes is one head of HTTP/1.1 as the grammar of responses has it, with the response's status, its phrase, its fields, the content's
/// length and the connection's end, and then the content: for each response whose fields are valid. So are the bytes of `100 Continue`, without a field.
pub fn written_responses_are_read()
    ensures written { (response : Response) (head_only close : Bool) → MayBeSent response → IsOneHead (written response head_only close) response.status (sent_fields response close) (content response head_only) }
    ensures continues { IsOneHead continue_bytes 100 [] [] }
{}
