use policy_run::{Attempt, Operation};
use side_world::Clock;
use std::sync::Wait;

/// An operation whose attempts end as a text says: `g` is good, `b` failing, `m` want of memory; past its end they are good. Each
/// answers how many were made.
#[derive(Drop)]
pub struct Script {
    answers: &'static [u8],
    made: usize,
}

impl Script {
    /// An operation of which no attempt was made.
    pub(crate) fn new(answers: &'static [u8]) -> Script {
        Script { answers, made: 0 }
    }

    /// How many attempts were made.
    pub(crate) fn made(&self) -> usize {
        self.made
    }
}

impl Operation for Script {
    ghost use Rattle.std.specs.Prelude.{◌≡◌, [], refl};
    ghost use Rattle.policy_tests.specs.Script.{nothing_more};

    type Good = usize;

    type Bad = usize;

    type Own = ();

    ghost ready = { λ _. Unit {0} };

    ghost makes = { λ _ _ _ events. events ≡ [] };

    ghost did = { λ _ steps _. steps ≡ [] };

    ghost shown = { λ _ _. Unit {0} };

    fn attempt<W: Wait, C: Clock>(
        &mut self,
        _rt: &W,
        _limit: u64,
        _clock: &mut C,
    ) -> Attempt<usize, usize> {
        let answer = self.answers.get(self.made).copied();
        self.made = self.made.saturating_add(1);
        match answer {
            Some(b'b') => Attempt::Bad(self.made),
            Some(b'm') => Attempt::NoMemory,
            _ => Attempt::Good(self.made),
        }
    }

    ghost none = { λ _ _. refl };

    ghost more = { nothing_more };

    ghost stays = { λ _ _ _ _ _. tt };

    ghost alike = { λ _ _ _ _ _ _ _ made. made };
}
