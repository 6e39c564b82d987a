use std::io;

/// A number, and the words before it.
#[derive(Clone, Copy)]
pub(crate) struct Part {
    pub(crate) words: &'static str,
    pub(crate) number: u64,
}

/// A number behind these words.
pub(crate) fn behind(words: &'static str, number: u64) -> Part {
    Part { words, number }
}

/// Writes these parts as a line of standard error, with these words behind them.
pub(crate) fn tell<R: Eprint>(rt: &R, parts: &[Part], behind: &str) -> io::Result<()> {
    for part in parts {
        eprint!(rt; "{}{}", part.words, part.number)?;
    }
    eprintln!(rt; "{behind}")
}
