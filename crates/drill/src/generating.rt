ghost use Rattle.std.specs.Prelude.{◌≡◌, ◌<◌, ◌^◌, ◌++◌, All, OnOk, IfOk, map};
ghost use Rattle.std.specs.List.{flat_map};
ghost use Rattle.http_frames.specs.Printed.{AreWhole};
ghost use Rattle.drill.specs.Requests.{request_of, request_text, words_of};
ghost use Rattle.drill.specs.Seeded.{words_from};

use crate::writing::push_request;
use http_frames::laws::{printed_requests_are_whole, whole_requests_are_a_stream};
use rand_core::{Rng, SeedableRng};
use rand_pcg::Pcg64;
use side_base::{Blob, NoMemory};
use std::alloc::Global;

/// The bytes of `n` requests, one for each of the first words of `Pcg64` from the seed `start`.
pub fn requests(alloc: Global, start: u64, n: u32) -> Result<Blob, NoMemory>
    ensures bytes { IfOk result (λ bytes. bytes ≡ flat_map request_text (words_of n (words_from ⟦<Pcg64 as Rng>⟧ ⟦<Pcg64 as SeedableRng>⟧ start))) }
    ensures whole { IfOk result (λ bytes. AreWhole bytes (map request_of (words_of n (words_from ⟦<Pcg64 as Rng>⟧ ⟦<Pcg64 as SeedableRng>⟧ start)))) }
{
    let mut words = generator(start);
    let mut bytes = Blob::new(alloc);
    push_requests(alloc, &mut bytes, &mut words, n)?;
    printed_requests_are_whole();
    whole_requests_are_a_stream();
    Ok(bytes)
}

fn generator(start: u64) -> Pcg64
    ensures { ⟦<Pcg64 as Rng>⟧.stream result ≡ words_from ⟦<Pcg64 as Rng>⟧ ⟦<Pcg64 as SeedableRng>⟧ start }
{
    Pcg64::seed_from_u64(start)
}

/// Appends as many requests, one for each next word.
fn push_requests<R: Rng>(
    alloc: Global,
    out: &mut Blob,
    words: &mut R,
    n: u32,
) -> Result<(), NoMemory>
    ensures bytes { OnOk result (out.new ≡ out.old ++ flat_map request_text (words_of n (R.stream words.old))) }
    ensures words { OnOk result (All (λ word. word < 2 ^ 64) (words_of n (R.stream words.old))) }
{
    let mut left = n;
    while left > 0 {
        push_request(alloc, out, words.next_u64())?;
        left -= 1;
    }
    Ok(())
}
