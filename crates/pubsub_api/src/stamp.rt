//! What a message is stamped with: two random words, of which its id is made, and a moment.
ghost use Rattle.std.specs.Prelude.{IfOk, ◌≡◌};
ghost use Rattle.policy_run.specs.Effects.{AreNone, Draws, Effects, clocked};
ghost use Rattle.pubsub_api.specs.Publishing.{id_of, stamps, uuid_of};

use rand_core::Rng;
use side_base::{Moment, NoMemory, Text};
use side_world::Clock;
use std::alloc::Global;
use uuid::{Builder, Uuid};

/// Two random words, and then the moment.
#[derive(Clone, Copy, Debug)]
pub(crate) struct Stamp {
    pub first: u64,
    pub second: u64,
    pub at: Moment,
}

/// Draws two words, and then reads the moment.
pub(crate) fn stamped<C: Clock, R: Rng>(clock: &mut C, rng: &mut R) -> Stamp
    ensures { Effects (stamps result) AreNone AreNone (clocked C.Clock clock.old) (clocked C.Clock clock.new) (Draws R.stream rng.old rng.new) }
{
    let first = rng.next_u64();
    let second = rng.next_u64();
    Stamp {
        first,
        second,
        at: clock.now(),
    }
}

/// The id of a message: a UUID of version 4 (RFC 9562, section 5.4) of both words.
pub(crate) fn id_of(alloc: Global, stamp: &Stamp) -> Result<Text, NoMemory>
    ensures { IfOk result (λ id. id ≡ id_of stamp.now) }
{
    let mut buffer = Uuid::encode_buffer();
    let text = uuid_of(stamp).hyphenated().encode_lower(&mut buffer);
    Text::from_str(alloc, text)
}

/// The bytes of both words, each with its least byte first, as a UUID.
fn uuid_of(stamp: &Stamp) -> Uuid
    ensures { result ≡ uuid_of stamp.now }
{
    let mut bytes = [0u8; 16];
    bytes[..8].copy_from_slice(&stamp.first.to_le_bytes());
    bytes[8..].copy_from_slice(&stamp.second.to_le_bytes());
    Builder::from_random_bytes(bytes).into_uuid()
}
