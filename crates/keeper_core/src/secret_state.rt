ghost use Rattle.std.specs.Prelude.{◌≡◌};
ghost use Rattle.std.specs.Hash.DefaultHasher.{initial, write};

use std::hash::{BuildHasher, DefaultHasher, Hasher};

/// Makes the hashers of a table's keys: std's, each fed the table's secret bytes before its key. So who doesn't know them can't choose
/// keys of one hash.
#[derive(Clone, Copy)]
pub(crate) struct SecretState {
    /// The hasher that was fed the secret, of which each key's is a copy.
    fed: DefaultHasher,
}

impl SecretState {
    pub(crate) fn new(secret: [u8; 16]) -> SecretState
        ensures { result.fed ≡ write initial secret }
    {
        let mut fed = DefaultHasher::new();
        fed.write(&secret);
        SecretState { fed }
    }
}

impl BuildHasher for SecretState {
    type Hasher = DefaultHasher;

    ghost build_hasher = { λ state. state.fed };

    fn build_hasher(&self) -> DefaultHasher {
        self.fed
    }
}
