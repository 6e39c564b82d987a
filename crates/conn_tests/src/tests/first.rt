//! A response goes out before more is read: a client that waits for it would otherwise wait forever.
ghost use Rattle.std.specs.Prelude.{None, ◌≡◌};

use crate::desk::Desk;
use conn_serve::{Buffers, Ended, serve};
use side_world::{Failed, Sink, Source};
use std::cell::Cell;
use std::test::Fail;

const REQUEST: &[u8] = b"GET /ok HTTP/1.1\r\nHost: a\r\n\r\n";

/// How many bytes a response to it has: `HTTP/1.1 204 No Content` and two line ends.
const RESPONSE: usize = 27;

/// A client that sends three requests, each once it has the responses to those before; until then its reads fail.
#[derive(Drop)]
struct Asking<'a> {
    /// How many bytes of responses it has.
    got: &'a Cell<usize>,
    asked: usize,
    has_ended: bool,
    faults: u64,
}

impl Source for Asking<'_> {
    ghost left = { λ _. None };

    ghost taken = { λ _. None };

    ghost earlier = { λ _. None };

    ghost ended = { λ s. s.has_ended };

    ghost faults = { λ s. s.faults };

    fn read(&mut self, into: &mut [u8]) -> Result<usize, Failed> {
        if self.got.get() != self.asked.saturating_mul(RESPONSE) {
            self.faults = self.faults.saturating_add(1);
            return Err(Failed);
        }
        if self.asked == 3 {
            self.has_ended = true;
            return Ok(0);
        }
        self.asked = self.asked.saturating_add(1);
        let count = REQUEST.len().min(into.len());
        into[..count].copy_from_slice(&REQUEST[..count]);
        Ok(count)
    }
}

/// What the client gets.
#[derive(Drop)]
struct Getting<'a> {
    got: &'a Cell<usize>,
}

impl Sink for Getting<'_> {
    ghost contents = { λ _. None };

    ghost faults = { λ _. 0 };

    fn write(&mut self, piece: &[u8]) -> Result<usize, Failed> {
        self.got.set(self.got.get().saturating_add(piece.len()));
        Ok(piece.len())
    }
}

#[test]
fn a_response_goes_out_before_more_is_read(rt: HostRuntime) -> Result<(), Fail> {
    let alloc = rt.alloc();
    let got = Cell::new(0);
    let mut source = Asking {
        got: &got,
        asked: 0,
        has_ended: false,
        faults: 0,
    };
    let mut sink = Getting { got: &got };
    let mut buffers = Buffers::new(alloc);
    let ended = serve(
        &rt,
        alloc,
        &mut buffers,
        &mut Desk::new(alloc),
        &mut source,
        &mut sink,
    );
    assert_eq!(rt; ended, Ended::Done);
    assert_eq!(rt; source.asked, 3);
    Ok(())
}
