// The salts of login attempts, made of one seed.
ghost use Rattle.std.specs.Prelude.{◌≡◌, ◌++◌, take};
ghost use Rattle.sha2.specs.Sha256.{sha256};
ghost use Rattle.sd_creds.specs.Hashes as hashed;

use sha2::{Digest, Sha256};
use std::marker::Model;

/// What makes the salts; contracts see it as its seed.
#[derive(Clone, Copy)]
pub struct Salts {
    seed: [u8; 32],
}

impl Model for Salts {
    ghost use Rattle.std.specs.Prelude.{List, ℕ};

    ghost Value = { List ℕ };

    ghost view = { λ s. s.seed };

    ghost inverse = { λ seed. record { seed = seed } };
}

impl Salts {
    /// Salts made of this seed, which has to be random and to stay unknown.
    pub fn new(seed: [u8; 32]) -> Salts
        ensures { result ≡ seed }
    {
        Salts { seed }
    }

    /// The salt of the attempt of this number.
    pub fn salt(&self, attempt: u64) -> [u8; 16]
        ensures { result ≡ hashed.salt_of self.now attempt }
    {
        let mut hasher = Sha256::new();
        hasher.update(self.seed.as_slice());
        hasher.update(attempt.to_be_bytes().as_slice());
        let digest = hasher.finalize();
        let mut salt = [0u8; 16];
        salt.copy_from_slice(&digest[..16]);
        salt
    }
}
