//! What workers in memory are given: a connection each.
use side_base::{Blob, Moment, NoMemory, Places, Sequence};
use side_memory::{
    AcceptorAnswer, AcceptorNote, MemoryOutside, Numbers, Sizes, Steps, Visit, WorkerScript,
};
use std::alloc::Global;

/// The moment at which clocks begin.
pub(crate) fn first_moment() -> Moment {
    match Moment::at(0) {
        Some(moment) => moment,
        None => unreachable!(),
    }
}

/// What a worker's parts answer: one connection, which sends this.
fn script(alloc: Global, input: &[u8]) -> Result<WorkerScript, NoMemory> {
    let mut answers = Sequence::new(alloc);
    answers.push(AcceptorAnswer::Conn(Visit {
        input: Blob::from_bytes(alloc, input)?,
        read_sizes: Sizes::new(alloc),
        failing_reads: Places::new(alloc),
        write_sizes: Sizes::new(alloc),
        failing_writes: Places::new(alloc),
    }))?;
    Ok(WorkerScript {
        answers,
        failing_accepts: Places::new(alloc),
        link_answers: Sequence::new(alloc),
        failing_calls: Places::new(alloc),
        first: first_moment(),
        steps: Steps::new(alloc),
    })
}

/// An outside of two workers, the connection of the first of which sends `one`, and that of the second `other`.
pub(crate) fn outside_of_two(
    alloc: Global,
    one: &[u8],
    other: &[u8],
) -> Result<MemoryOutside, NoMemory> {
    let mut outside = MemoryOutside::new(alloc, Numbers::new(alloc), Places::new(alloc));
    outside.add_worker(script(alloc, one)?)?;
    outside.add_worker(script(alloc, other)?)?;
    Ok(outside)
}

/// Whether the one connection of the worker of this number was answered so.
pub(crate) fn is_answered(outside: &MemoryOutside, number: u32, answer: &[u8]) -> bool {
    let Some(parts) = outside.back(number) else {
        return false;
    };
    let Some(notes) = parts.acceptor.notes() else {
        return false;
    };
    match notes.first() {
        Some(AcceptorNote::Conn(Some(visited))) => visited.sink.bytes() == answer,
        _ => false,
    }
}
