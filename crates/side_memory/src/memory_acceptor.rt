ghost use Rattle.std.specs.Prelude.{◌≡◌, [], Some, option_map};
ghost use Rattle.side_world.specs.Answer.{answer_of};
ghost use Rattle.side_memory.specs.MemoryAcceptor.{told_of};
ghost use Rattle.disk_memory.specs.Plan.{begun};

use crate::memory_sink::MemorySink;
use crate::memory_source::MemorySource;
use crate::notes::Notes;
use disk_memory::{Schedule, Sizes};
use side_base::{Blob, Moment, Places, Sequence};
use side_world::{Accepted, Acceptor, Failed, Sink, Source};
use std::alloc::Global;
use std::marker::Model;

/// A connection that is to come: what its peer sends, the greatest numbers of bytes that its reads and writes move, and which
/// of them fail.
#[derive(Debug, Drop)]
pub struct Visit {
    pub input: Blob,
    pub read_sizes: Sizes,
    pub failing_reads: Places,
    pub write_sizes: Sizes,
    pub failing_writes: Places,
}

/// What an acceptor in memory answers.
#[derive(Debug, Drop)]
pub enum AcceptorAnswer {
    Conn(Visit),
    Idle,
    Closed,
}

/// Answers of an acceptor in memory, in order of the calls that do not fail. Past the end of the list no connection comes.
pub type AcceptorAnswers = Sequence<AcceptorAnswer>;

/// A connection that came back.
#[derive(Debug, Drop)]
pub struct Visited {
    pub source: MemorySource,
    pub sink: MemorySink,
}

/// What an acceptor in memory has answered: a connection with what came back of it, where it is back.
#[derive(Debug, Drop)]
pub enum AcceptorNote {
    Conn(Option<Visited>),
    Idle,
    Closed,
    Failed,
}

/// An acceptor that answers from a list, and tells its answers and what came back until there is no memory for a note, or a
/// connection comes back that wasn't the last answer.
///
/// Contracts see the answers that are left, those so far, and the count of faults.
#[derive(Debug, Drop)]
pub struct MemoryAcceptor {
    alloc: Global,
    answers: AcceptorAnswers,
    notes: Notes<AcceptorNote>,
    schedule: Schedule,
}

impl Model for MemoryAcceptor {
    ghost use Rattle.side_memory.specs.MemoryAcceptor.{AcceptorState};
    ghost use Rattle.disk_memory.specs.Plan.{plan_in};

    ghost Value = { AcceptorState };

    ghost view = { λ a. record { answers = a.answers; notes = a.notes; faults = a.schedule.faults; plan = plan_in a.schedule } };
}

impl MemoryAcceptor {
    /// An acceptor that answers from `answers`; `failing` are the calls of `accept` that fail, counted from 0.
    pub fn new(alloc: Global, answers: AcceptorAnswers, failing: Places) -> Self
        ensures { result ≡ record { answers = answers; notes = Some []; faults = 0; plan = begun failing } }
    {
        MemoryAcceptor {
            alloc,
            answers,
            notes: Notes::new(alloc),
            schedule: Schedule::new(Sizes::new(alloc), failing),
        }
    }

    /// The answers so far, where they are told.
    pub fn notes(&self) -> Option<&[AcceptorNote]>
        ensures { option_map (λ s. s.now) result ≡ self.now.notes }
    {
        self.notes.items()
    }

    /// How often it has failed.
    pub fn faults(&self) -> u64
        ensures { result ≡ self.now.faults }
    {
        self.schedule.faults
    }
}

impl MemoryAcceptor {
    ghost use Rattle.std.specs.Prelude.{◌≡◌, ◌≤◌, ◌↔◌};
    ghost use Rattle.side_world.specs.Answer.{CountsFault};
    ghost use Rattle.side_memory.specs.MemoryAcceptor.{StartsWith, IsFailed};
    ghost use Rattle.disk_memory.specs.Plan.{counted, FailsNext};

    // Takes the next answer off the list, but where the call is to fail.
    fn answer(&mut self) -> Accepted<MemorySource, MemorySink>
        ensures first { StartsWith self.old.answers result self.new.answers }
        ensures listed { IsFailed result ↔ FailsNext self.old.plan }
        ensures counted { self.new.plan ≡ counted self.old.plan }
        ensures notes { self.new.notes ≡ self.old.notes }
        ensures faults { CountsFault result self.old.faults self.new.faults }
        ensures no_fewer { self.old.faults ≤ self.new.faults }
    {
        if let Err(Failed) = self.schedule.call() {
            return Accepted::Failed;
        }
        match self.answers.take_first() {
            Some(AcceptorAnswer::Conn(visit)) => {
                let Visit {
                    input,
                    read_sizes,
                    failing_reads,
                    write_sizes,
                    failing_writes,
                } = visit;
                Accepted::Conn {
                    source: MemorySource::new(input, read_sizes, failing_reads),
                    sink: MemorySink::new(self.alloc, write_sizes, failing_writes),
                }
            }
            Some(AcceptorAnswer::Idle) => Accepted::Idle,
            Some(AcceptorAnswer::Closed) | None => Accepted::Closed,
        }
    }
}

impl Acceptor for MemoryAcceptor {
    type From = MemorySource;

    type Into = MemorySink;

    ghost use Rattle.std.specs.Prelude.{◌≡◌, ◌≤◌, ◌↔◌, [], ◌∷◌, map, option_map};
    ghost use Rattle.side_world.specs.Told.{Tells};
    ghost use Rattle.side_world.specs.Answer.{answer_of, IfConn, CountsFault, IsNew, ComesBack, Returns};
    ghost use Rattle.side_memory.specs.MemoryAcceptor.{told_of, StartsWith, IsFailed};
    ghost use Rattle.disk_memory.specs.Plan.{counted, FailsNext};

    ghost told = { λ a. option_map (map told_of) a.notes };

    ghost faults = { λ a. a.faults };

    /// Fails exactly where it is a call that is to fail, and takes no answer off the list then.
    fn accept(&mut self) -> Accepted<MemorySource, MemorySink>
        ensures new { IfConn result (IsNew ⟦<MemorySource as Source>⟧ ⟦<MemorySink as Sink>⟧) }
        ensures told { Tells (option_map (map told_of) self.old.notes) (option_map (map told_of) self.new.notes) (answer_of result ∷ []) }
        ensures faults { CountsFault result self.old.faults self.new.faults }
        ensures no_fewer { self.old.faults ≤ self.new.faults }
        ensures first { StartsWith self.old.answers result self.new.answers }
        ensures listed { IsFailed result ↔ FailsNext self.old.plan }
        ensures counted { self.new.plan ≡ counted self.old.plan }
    {
        let answer = self.answer();
        self.notes.add(note(&answer));
        answer
    }

    fn end(&mut self, source: MemorySource, sink: MemorySink)
        ensures told { Returns (option_map (map told_of) self.old.notes) (option_map (map told_of) self.new.notes) (ComesBack ⟦<MemorySource as Source>⟧ ⟦<MemorySink as Sink>⟧ source sink) }
        ensures faults { self.new.faults ≡ self.old.faults }
        ensures answers { self.new.answers ≡ self.old.answers }
        ensures plan { self.new.plan ≡ self.old.plan }
    {
        match self.notes.take_last() {
            Some(AcceptorNote::Conn(None)) => {
                self.notes
                    .add(AcceptorNote::Conn(Some(Visited { source, sink })));
            }
            _ => self.notes.stop(),
        }
    }

    fn wake(&mut self)
        ensures same { self.new ≡ self.old }
    {}

    fn due(&mut self, moment: Moment)
        ensures same { self.new ≡ self.old }
    {
        let _ = moment;
    }
}

fn note(answer: &Accepted<MemorySource, MemorySink>) -> AcceptorNote
    ensures { told_of result ≡ answer_of answer.now }
{
    match answer {
        Accepted::Conn { .. } => AcceptorNote::Conn(None),
        Accepted::Idle => AcceptorNote::Idle,
        Accepted::Closed => AcceptorNote::Closed,
        Accepted::Failed => AcceptorNote::Failed,
    }
}
