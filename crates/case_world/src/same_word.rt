ghost use Rattle.std.specs.Prelude.{◌%◌, ◌^◌, replicate};

use rand_core::Rng;

/// A generator that answers one word for ever.
#[derive(Clone, Copy)]
pub struct SameWord {
    /// The word.
    pub word: u64,
}

impl Rng for SameWord {
    ghost stream = { λ same. record { u32_after = λ _. same.word % 2 ^ 32; u64_after = λ _. same.word; bytes_after = λ _ n. replicate n 0 } };

    #[tactic(auto, unfolding(rand_core::specs::Stream::next_u32))]
    fn next_u32(&mut self) -> u32 {
        (self.word % 4_294_967_296) as u32
    }

    #[tactic(auto, unfolding(rand_core::specs::Stream::next_u64))]
    fn next_u64(&mut self) -> u64 {
        self.word
    }

    #[tactic(auto, unfolding(rand_core::specs::Stream::fill_bytes))]
    fn fill_bytes(&mut self, dst: &mut [u8]) {
        dst.fill(0);
    }
}
