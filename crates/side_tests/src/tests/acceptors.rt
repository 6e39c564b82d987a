use super::{Device, cut, list, only, plays, said};
use side_base::{Blob, NoMemory, Places};
use side_memory::{AcceptorAnswer, AcceptorAnswers, AcceptorNote, MemoryAcceptor, Sizes, Visit};
use side_world::{Accepted, Acceptor, Sink, Source, gather, send};
use std::alloc::Global;
use std::test::Fail;

fn visit(alloc: Global, letter: u8) -> Result<Visit, NoMemory> {
    Ok(Visit {
        input: Blob::from_bytes(alloc, &[letter])?,
        read_sizes: Sizes::new(alloc),
        failing_reads: Places::new(alloc),
        write_sizes: Sizes::new(alloc),
        failing_writes: Places::new(alloc),
    })
}

// The answer that a letter names: `i` idle, `c` closed, any other a connection that sends it.
fn answer_of(alloc: Global, letter: u8) -> Result<AcceptorAnswer, NoMemory> {
    match letter {
        b'i' => Ok(AcceptorAnswer::Idle),
        b'c' => Ok(AcceptorAnswer::Closed),
        _ => Ok(AcceptorAnswer::Conn(visit(alloc, letter)?)),
    }
}

// The answers that a text names.
pub(super) fn answers(alloc: Global, text: &str) -> Result<AcceptorAnswers, NoMemory> {
    let mut answers = AcceptorAnswers::new(alloc);
    for letter in text.bytes() {
        answers.push(answer_of(alloc, letter)?)?;
    }
    Ok(answers)
}

// Reads all of a connection, and writes `!`: what was read, or `-`.
fn talk<S: Source, N: Sink>(alloc: Global, source: &mut S, sink: &mut N) -> u8 {
    let _ = send(sink, b"!");
    match gather(alloc, source, 10) {
        Ok(read) => only(read.bytes()),
        Err(_) => b'-',
    }
}

// The letter of an answer: `i`, `c`, `f` for a failure, or what a connection sent.
fn one_answer(alloc: Global, acceptor: &mut MemoryAcceptor) -> u8 {
    match acceptor.accept() {
        Accepted::Conn {
            mut source,
            mut sink,
        } => {
            let read = talk(alloc, &mut source, &mut sink);
            acceptor.end(source, sink);
            read
        }
        Accepted::Idle => b'i',
        Accepted::Closed => b'c',
        Accepted::Failed => b'f',
    }
}

// The letters of five answers.
fn five_answers(alloc: Global, acceptor: &mut MemoryAcceptor) -> Result<Blob, NoMemory> {
    let mut letters = Blob::new(alloc);
    for _ in 0..5 {
        letters.push_byte(one_answer(alloc, acceptor))?;
        acceptor.wake();
    }
    Ok(letters)
}

// The letter of an answer that is told: of a connection that came back what was written to it.
fn letter(note: &AcceptorNote) -> u8 {
    match note {
        AcceptorNote::Conn(Some(visited)) => only(visited.sink.bytes()),
        AcceptorNote::Conn(None) => b'o',
        AcceptorNote::Idle => b'i',
        AcceptorNote::Closed => b'c',
        AcceptorNote::Failed => b'f',
    }
}

// The letters of the answers that are told.
fn told(alloc: Global, acceptor: &MemoryAcceptor) -> Result<Blob, NoMemory> {
    let mut letters = Blob::new(alloc);
    if let Some(notes) = acceptor.notes() {
        for note in notes {
            letters.push_byte(letter(note))?;
        }
    }
    Ok(letters)
}

// `new` begins one with these answers, which fails at the listed calls.
impl Device for MemoryAcceptor {
    fn begin(alloc: Global, given: &str) -> Result<MemoryAcceptor, NoMemory> {
        let (text, failing) = cut(given);
        let failing = list(alloc, failing)?;
        Ok(MemoryAcceptor::new(alloc, answers(alloc, text)?, failing))
    }

    fn answer(&mut self, alloc: Global, name: &str, _: &str) -> Result<Blob, NoMemory> {
        match name {
            "accept" => five_answers(alloc, self),
            "told" => told(alloc, self),
            _ => said(alloc, "unknown"),
        }
    }
}

// An acceptor answers its list, fails at the listed calls, and tells each answer.
const ACCEPTORS: &str = "\
new aib
accept=aibcc
told=!i!cc
new ab 02
accept=fafbc
told=f!f!c
new ciia
accept=ciiac
told=cii!c";

#[test]
fn an_acceptor_answers_its_list(rt: HostRuntime) -> Result<(), Fail> {
    Ok(plays::<MemoryAcceptor, _>(&rt, rt.alloc(), ACCEPTORS)?)
}
