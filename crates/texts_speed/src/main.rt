//! Measures how fast JSON is read: reads standard input as JSON as many times as its first word says, and prints how many values it has. And it measures what
//! reading a request, finding its route and writing its response cost, beside `httparse` alone on the same heads: of a get, a save of 100 bytes and a save of
//! 16 KiB, alone and 16 at a time. The second word names one row of these, or `json`, and the third one part of the work with a request.
#![tactic(auto)]

mod frames;
mod json;
mod rows;
mod work;

use std::env;
use std::io::{self, ErrorKind};

/// How many requests of each row are made, and how often JSON is read, where no word says it.
const TIMES: u32 = 1600;

/// The number that the first word is; an error where it is none.
fn times_of(words: &[String]) -> io::Result<u32> {
    let Some(word) = words.get(1) else {
        return Ok(TIMES);
    };
    match word.parse() {
        Ok(times) => Ok(times),
        Err(_) => Err(io::Error::from(ErrorKind::InvalidInput)),
    }
}

/// Measures what these words name; an error where they name nothing.
fn measure(rt: &HostRuntime, words: &[String]) -> io::Result<()> {
    let times = times_of(words)?;
    if !rows::are_known(words) {
        return Err(io::Error::from(ErrorKind::InvalidInput));
    }
    if rows::is_wanted(words, 2, "json") {
        json::tell(rt, times)?;
    }
    frames::tell_all(rt, rt.alloc(), words, times)
}

fn main(rt: HostRuntime) -> io::Result<()> {
    let words: Vec<String> = env::args(&rt)?.collect(rt.alloc())?;
    measure(&rt, &words)
}
