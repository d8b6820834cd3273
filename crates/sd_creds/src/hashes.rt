// Hashes of passwords: SHA-512 of FIPS 180-4, 5000 times over the first.
ghost use Rattle.std.specs.Prelude.{◌≡◌, ◌↔◌, ◌++◌, IsTrue};
ghost use Rattle.sha2.specs.Sha512.{sha512};
ghost use Rattle.sd_creds.specs.Hashes as hashed;

use sd_rules::Hash;
use sha2::{Digest, Sha512};

/// How many rounds follow the first.
const ROUNDS: u32 = 5000;

/// The SHA-512 of three pieces taken as one message.
fn digest_of_pieces(front: &[u8], salt: &[u8], password: &[u8]) -> [u8; 64]
    ensures { result ≡ sha512 (front.now ++ salt.now ++ password.now) }
{
    let mut hasher = Sha512::new();
    hasher.update(front);
    hasher.update(salt);
    hasher.update(password);
    hasher.finalize()
}

/// The digest of a password after all rounds.
#[tactic(auto, using(crate::proofs::Rounds::first_digest, crate::proofs::Rounds::next_digest))]
fn digest_of(salt: &[u8], password: &[u8]) -> [u8; 64]
    ensures { result ≡ hashed.digest_of salt.now password.now }
{
    let mut digest = digest_of_pieces(&[], salt, password);
    for _round in 0..ROUNDS {
        digest = digest_of_pieces(&digest, salt, password);
    }
    digest
}

/// Whether two digests are equal. Every byte is compared, whatever the bytes before it are, so that the time
/// does not tell where two digests differ.
fn is_same_digest(a: &[u8; 64], b: &[u8; 64]) -> bool
    ensures { IsTrue result ↔ (a.now ≡ b.now) }
{
    let mut difference = 0u8;
    for place in 0..64 {
        difference |= a[place] ^ b[place];
    }
    difference == 0
}

/// The hash of a password with this salt.
pub fn hash(salt: [u8; 16], password: &[u8]) -> Hash
    ensures { result ≡ hashed.hash_of salt password.now }
{
    let digest = digest_of(&salt, password);
    Hash { salt, digest }
}

/// Whether a password has this hash.
pub fn verify(hash: &Hash, password: &[u8]) -> bool
    ensures computed { result ≡ hashed.is_hash_of hash.now password.now }
    ensures same { IsTrue result ↔ (hashed.hash_of hash.now.salt password.now ≡ hash.now) }
{
    is_same_digest(&digest_of(&hash.salt, password), &hash.digest)
}
