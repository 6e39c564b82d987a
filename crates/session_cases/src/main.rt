//! Plays the cases of the files that its words name: runs of the program over a world in memory, and what each must come to. Prints
//! each case that differs, and at the end how many there were.
#![tactic(auto)]

mod given;
mod link;
mod playing;
mod world;

use crate::playing::played;
use case_text::{CASE, Tally, pieces};
use side_base::NoMemory;
use std::alloc::Global;
use std::sync::Wait;
use std::thread::Threads;
use std::{env, fs, io};

// Plays the cases of a file of this text.
fn play_all<W: Threads + Wait + Sync>(
    rt: &W,
    alloc: Global,
    text: &[u8],
    tally: &mut Tally,
) -> Result<(), NoMemory> {
    for case in pieces(alloc, text, CASE)? {
        let (wrong, again) = played(rt, alloc, &case);
        tally.count(case.head, &wrong, again);
    }
    Ok(())
}

fn main(rt: HostRuntime) -> io::Result<()> {
    let mut tally = Tally::new(rt.alloc());
    for name in env::args(&rt)?.skip(1) {
        let text = fs::read(&rt, name.as_str())?;
        play_all(&rt, rt.alloc(), text.as_slice(), &mut tally)?;
    }
    tally.print(&rt)
}
