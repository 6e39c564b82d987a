ghost use Rattle.std.specs.Prelude.{◌≡◌, ◌≤◌, [], Some, IfOk, IsTrue, ◌↔◌, option_map};
ghost use Rattle.side_world.specs.Link.{IsReply, CountsFault, CountsExpiry};
ghost use Rattle.disk_memory.specs.Plan.{begun};

use crate::copying::{copy_request, copy_response};
use crate::notes::Notes;
use disk_memory::{Schedule, Sizes};
use side_base::{LinkRequest, NoMemory, Places, Response, Sequence};
use side_world::{Failed, Link, LinkCall, LinkErr};
use std::alloc::Global;
use std::marker::Model;

/// What a link in memory answers, in order of the calls that do not fail. Calls past the end of the list fail.
pub type LinkAnswers = Sequence<Result<Response, LinkErr>>;

/// A link that answers from a list, and tells its calls until there is no memory for a note.
///
/// Contracts see the answers that are left, the calls, and the counts of faults and expiries. A reply that no link may answer
/// is a fault.
#[derive(Debug, Drop)]
pub struct MemoryLink {
    alloc: Global,
    answers: LinkAnswers,
    notes: Notes<LinkCall>,
    schedule: Schedule,
    expiries: u64,
}

impl Model for MemoryLink {
    ghost use Rattle.side_memory.specs.MemoryLink.{LinkState};
    ghost use Rattle.disk_memory.specs.Plan.{plan_in};

    ghost Value = { LinkState };

    ghost view = { λ l. record { answers = l.answers; calls = l.notes; faults = l.schedule.faults; expiries = l.expiries; plan = plan_in l.schedule } };
}

impl MemoryLink {
    /// A link that answers from `answers`; `failing` are the calls that fail, counted from 0.
    pub fn new(alloc: Global, answers: LinkAnswers, failing: Places) -> Self
        ensures { result ≡ record { answers = answers; calls = Some []; faults = 0; expiries = 0; plan = begun failing } }
    {
        MemoryLink {
            alloc,
            answers,
            notes: Notes::new(alloc),
            schedule: Schedule::new(Sizes::new(alloc), failing),
            expiries: 0,
        }
    }

    /// The calls so far, where they are told.
    pub fn calls(&self) -> Option<&[LinkCall]>
        ensures { option_map (λ s. s.now) result ≡ self.now.calls }
    {
        self.notes.items()
    }
}

impl MemoryLink {
    ghost use Rattle.std.specs.Prelude.{◌≡◌, ◌≤◌, IfOk, IsErrOf};
    ghost use Rattle.side_world.specs.declared.link.LinkErr.TheVariants as refused;
    ghost use Rattle.side_memory.specs.MemoryLink.{StartsWith};
    ghost use Rattle.disk_memory.specs.Plan.{counted, FailsNext};

    // Takes the next answer off the list, and counts what it is; where the call is to fail, the list stays.
    fn answer(&mut self) -> Result<Response, LinkErr>
        ensures reply { IfOk result IsReply }
        ensures first { (FailsNext self.old.plan → ⊥) → StartsWith self.old.answers result self.new.answers }
        ensures listed { FailsNext self.old.plan → IsErrOf result refused.Failed }
        ensures stays { FailsNext self.old.plan → self.new.answers ≡ self.old.answers }
        ensures counted { self.new.plan ≡ counted self.old.plan }
        ensures calls { self.new.calls ≡ self.old.calls }
        ensures faults { CountsFault result self.old.faults self.new.faults }
        ensures no_fewer { self.old.faults ≤ self.new.faults }
        ensures expiries { CountsExpiry result self.old.expiries self.new.expiries }
        ensures no_fewer_expiries { self.old.expiries ≤ self.new.expiries }
    {
        if let Err(Failed) = self.schedule.call() {
            return Err(LinkErr::Failed);
        }
        match self.answers.take_first() {
            Some(Ok(reply)) if is_reply(&reply) => Ok(reply),
            Some(Err(LinkErr::Expired)) => {
                self.expiries = self.expiries.saturating_add(1);
                Err(LinkErr::Expired)
            }
            Some(Err(LinkErr::NoMemory)) => Err(LinkErr::NoMemory),
            _ => {
                self.schedule.fail();
                Err(LinkErr::Failed)
            }
        }
    }
}

impl Link for MemoryLink {
    ghost use Rattle.std.specs.Prelude.{◌≡◌, ◌≤◌, [], ◌∷◌, IfOk, IsErrOf};
    ghost use Rattle.side_world.specs.Told.{Tells};
    ghost use Rattle.side_world.specs.Link.{IsReply, CountsFault, CountsExpiry};
    ghost use Rattle.side_world.specs.declared.link.LinkErr.TheVariants as refused;
    ghost use Rattle.side_memory.specs.MemoryLink.{StartsWith};
    ghost use Rattle.disk_memory.specs.Plan.{counted, FailsNext};

    ghost calls = { λ l. l.calls };

    ghost faults = { λ l. l.faults };

    ghost expiries = { λ l. l.expiries };

    /// Fails where it is a call that is to fail, and takes no answer off the list then; else the first of the list decides.
    fn call(&mut self, request: &LinkRequest, limit_ms: u64) -> Result<Response, LinkErr>
        ensures reply { IfOk result IsReply }
        ensures calls { Tells self.old.calls self.new.calls (record { request = request.now; limit_ms = limit_ms; answer = result } ∷ []) }
        ensures faults { CountsFault result self.old.faults self.new.faults }
        ensures no_fewer { self.old.faults ≤ self.new.faults }
        ensures expiries { CountsExpiry result self.old.expiries self.new.expiries }
        ensures no_fewer_expiries { self.old.expiries ≤ self.new.expiries }
        ensures first { (FailsNext self.old.plan → ⊥) → StartsWith self.old.answers result self.new.answers }
        ensures listed { FailsNext self.old.plan → IsErrOf result refused.Failed }
        ensures stays { FailsNext self.old.plan → self.new.answers ≡ self.old.answers }
        ensures counted { self.new.plan ≡ counted self.old.plan }
    {
        let answer = self.answer();
        match note(self.alloc, request, limit_ms, &answer) {
            Ok(call) => self.notes.add(call),
            Err(_) => self.notes.stop(),
        }
        answer
    }
}

fn is_reply(reply: &Response) -> bool
    ensures { IsTrue result ↔ IsReply reply.now }
{
    reply.status >= 200 && reply.status <= 599 && reply.body.len() <= 4_194_304
}

fn note(
    alloc: Global,
    request: &LinkRequest,
    limit_ms: u64,
    answer: &Result<Response, LinkErr>,
) -> Result<LinkCall, NoMemory>
    ensures { IfOk result (λ call. call ≡ record { request = request.now; limit_ms = limit_ms; answer = answer.now }) }
{
    let answer = match answer {
        Ok(response) => Ok(copy_response(alloc, response)?),
        Err(error) => Err(*error),
    };
    Ok(LinkCall {
        request: copy_request(alloc, request)?,
        limit_ms,
        answer,
    })
}
