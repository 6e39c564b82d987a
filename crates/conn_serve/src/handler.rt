use side_base::{Request, Response};
use std::sync::Wait;
use turn_cell::ApiErr;

/// What answers the requests of a connection, one after the other.
pub trait Handler {
    ghost use Rattle.std.specs.Prelude.{◌≡◌, ℕ, List, [], ◌++◌, Result, Ok, Err, IfOk};
    ghost use Rattle.http.specs.StatusCode.{IsStatusCode};
    ghost use Rattle.side_base.specs.declared.message.Request.{Request};
    ghost use Rattle.side_base.specs.declared.message.Response.{Response};
    ghost use Rattle.turn_cell.specs.declared.error.ApiErr.{ApiErr};
    ghost use Rattle.turn_cell.specs.declared.error.ApiErr.TheVariants as error;

    /// What is done for a request, as one event. No program makes a value of it.
    type Event;

    // A request may be answered.
    ghost ready: { Self → Type 0 };

    // What is done for a request that is answered so, or that ends early.
    ghost exchange: { Self → Request → List Self.Event → Result Response ApiErr → Type 0 };

    // How the handler goes on through what was done.
    ghost did: { Self → List Self.Event → Self → Type 0 };

    // The seat of a cell that this request calls shows this count: the cell is exhausted.
    ghost shows: { Self → Request → ℕ → Type 0 };

    /// Answers a request. The status of the response is from 100 to 999.
    fn respond<W: Wait>(&mut self, rt: &W, request: &Request) -> Result<Response, ApiErr>
        requires { ready self.old }
        ensures answer { (events : List Self.Event) × exchange self.old request.now events result × did self.old events self.new }
        ensures shows { (count : ℕ) → result ≡ Err (error.Exhausted count) → shows self.new request.now count }
        ensures status { IfOk result (λ response. IsStatusCode response.status) };

    ghost none: { (a : Self) → ready a → did a [] a };

    ghost more: { (a b c : Self) (xs ys : List Self.Event) → did a xs b → did b ys c → did a (xs ++ ys) c };

    ghost stays: { (a b : Self) (xs : List Self.Event) → ready a → did a xs b → ready b };

    ghost alike: { (a b : Self) (xs : List Self.Event) → did a xs b → (request : Request) (events : List Self.Event) (answer : Result Response ApiErr) → exchange b request events answer → exchange a request events answer };

    // Where there is no room for a response, its request has ended early, for want of memory.
    ghost unsaid: { (a : Self) (request : Request) (events : List Self.Event) (response : Response) → exchange a request events (Ok response) → exchange a request events (Err error.NoMemory) };
}
