//! Content in chunks.
ghost use Rattle.std.specs.Prelude.{◌≡◌, ◌≤◌, [], ℕ, List, Option, length, IfErr, IfOk, OnOk};
ghost use Rattle.side_world.specs.Faults.{Rose};
ghost use Rattle.side_world.specs.Told.{Took};
ghost use Rattle.http_chunks.specs.Chunked.{BODY_LIMIT, ReadsChunks};
ghost use Rattle.http_chunks.specs.ContentSteps.{IsBounded};
ghost use Rattle.http_client.specs.declared.incoming.ReplyErr.TheVariants.{SourceFailed};
ghost use Rattle.http_client.specs.Replies.{ahead};
ghost use Rattle.http_client.specs.Taken.{AreRead, IsFound};

use crate::incoming::{Incoming, ReplyErr};
use http_chunks::{Body, ContentStep, read_content, start_of_line};
use side_base::Blob;
use side_world::Source;
use std::alloc::Global;

impl<S: Source> Incoming<S> {
    /// Takes all chunks and what ends them, and gives the chunks' bytes.
    pub(crate) fn take_chunks(&mut self, alloc: Global) -> Result<Blob, ReplyErr>
        ensures took { IfOk result (λ body. (text : List ℕ) × Took (ahead self.old.pending (S.left self.old.source)) (ahead self.new.pending (S.left self.new.source)) text × ReadsChunks text body []) }
        ensures short { IfOk result (λ body. length body ≤ BODY_LIMIT) }
        ensures no_fault { OnOk result (S.faults self.new.source ≡ S.faults self.old.source) }
        ensures failed { IfErr result (λ why. why ≡ SourceFailed → Rose (S.faults self.old.source) (S.faults self.new.source)) }
    {
        let mut body = Body {
            bytes: Blob::new(alloc),
            left: None,
            looked: start_of_line(),
        };
        loop {
            let found = self.read_chunks(alloc, &mut body)?;
            match found {
                Some(len) => {
                    self.skip(len);
                    return Ok(body.bytes);
                }
                None => self.fill_on()?,
            }
        }
    }

    /// Reads the chunks that came, and lets go what was read. How many bytes end them; `None` where more bytes are needed.
    fn read_chunks(&mut self, alloc: Global, body: &mut Body) -> Result<Option<usize>, ReplyErr>
        requires { IsBounded body.old }
        ensures bounded { IsBounded body.new }
        ensures source { self.new.source ≡ self.old.source }
        ensures found { (first : Option (List ℕ)) → AreRead first self.old.pending (S.left self.old.source) body.old → IfOk result (IsFound first self.old.pending self.new.pending (S.left self.new.source) body.old body.new) }
        ensures failed { IfErr result (λ why. why ≡ SourceFailed → Rose (S.faults self.old.source) (S.faults self.new.source)) }
    {
        let mut at = 0;
        let step = match read_content(alloc, self.pending.bytes(), &mut at, body) {
            Ok(step) => step,
            Err(_) => return Err(ReplyErr::NoMemory),
        };
        self.pending.skip(at);
        match step {
            ContentStep::Whole { len } => Ok(Some(len)),
            ContentStep::Need => Ok(None),
            ContentStep::TooLong => Err(ReplyErr::Bad),
            ContentStep::Bad => Err(ReplyErr::Bad),
        }
    }
}
