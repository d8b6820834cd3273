// A fast hasher that starts from a secret, so that whoever chooses the names cannot choose their hashes.
use std::hash::{BuildHasher, FoldHasher, Hasher};

/// Makes each hasher as one that was fed a secret first.
#[derive(Clone, Copy)]
pub struct Primed {
    first: FoldHasher,
}

impl Primed {
    /// Hashers that begin with this secret.
    pub fn new(secret: &[u8]) -> Primed {
        let mut first = FoldHasher::default();
        first.write(secret);
        Primed { first }
    }
}

impl BuildHasher for Primed {
    type Hasher = FoldHasher;

    ghost build_hasher = { λ primed. primed.first };

    fn build_hasher(&self) -> FoldHasher {
        self.first
    }
}
