use std::collections::hash_map::RandomState;
use std::hash::BuildHasher;
use std::io;
use std::random::RandomSource;

/// Numbers that nobody can predict who doesn't know the keys that the system gave. They are hashes of 64 bits, so that two runs have the
/// same one only as likely as two such hashes are equal.
#[derive(Drop)]
pub(crate) struct StartNumbers {
    keys: RandomState,
    given: u64,
}

impl StartNumbers {
    /// Numbers by new keys of the system.
    pub(crate) fn new<R: RandomSource>(rt: &R) -> io::Result<Self> {
        Ok(StartNumbers {
            keys: RandomState::new(rt)?,
            given: 0,
        })
    }

    /// The next number.
    pub(crate) fn next_number(&mut self) -> u64 {
        self.given = self.given.wrapping_add(1);
        self.keys.hash_one(self.given)
    }
}
