ghost use Rattle.std.specs.Prelude.{◌≡◌, IfOk};

use conn_serve::Handler;
use side_base::{Blob, Fields, NoMemory, Request, Response};
use std::alloc::Global;
use std::sync::Wait;
use turn_cell::ApiErr;

/// The count of the cell that `/spent` meets: a cell has no ticket left from 2^62 on.
const SPENT: u64 = 4_611_686_018_427_387_904;

/// Answers by the target: `/echo` with the content of the request, `/spent` as a cell that has no ticket left, `/none` as for
/// want of memory, and any other target with 204.
#[derive(Drop)]
pub struct Desk {
    alloc: Global,
}

impl Desk {
    /// A desk whose responses take their memory from this allocator.
    pub fn new(alloc: Global) -> Desk {
        Desk { alloc }
    }

    fn response(&self, status: u16, content: &[u8]) -> Result<Response, NoMemory>
        ensures { IfOk result (λ response. response.status ≡ status) }
    {
        Ok(Response {
            status,
            fields: Fields::new(self.alloc),
            body: Blob::from_bytes(self.alloc, content)?,
        })
    }
}

impl Handler for Desk {
    type Event = ();

    ghost ready = { λ _. Unit {0} };

    ghost exchange = { λ _ _ _ _. Unit {0} };

    ghost did = { λ _ _ _. Unit {0} };

    ghost shows = { λ _ _ _. Unit {0} };

    fn respond<W: Wait>(&mut self, _rt: &W, request: &Request) -> Result<Response, ApiErr> {
        let target = request.target.bytes();
        if target == b"/echo".as_slice() {
            return Ok(self.response(200, request.body.bytes())?);
        }
        if target == b"/spent".as_slice() {
            return Err(ApiErr::Exhausted { count: SPENT });
        }
        if target == b"/none".as_slice() {
            return Err(ApiErr::NoMemory);
        }
        Ok(self.response(204, b"")?)
    }

    ghost none = { λ _ _. tt };

    ghost more = { λ _ _ _ _ _ _ _. tt };

    ghost stays = { λ _ _ _ _ _. tt };

    ghost alike = { λ _ _ _ _ _ _ _ _. tt };

    ghost unsaid = { λ _ _ _ _ _. tt };
}
