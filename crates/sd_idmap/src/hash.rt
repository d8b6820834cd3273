// The hash of a text.
ghost use Rattle.std.specs.Prelude.{◌≡◌, ℕ, ◌<◌, ◌*◌, ◌+◌, ◌^◌, length};
ghost use Rattle.sd_idmap.specs.Hash as hashing;

/// Multiplied, rotated by 15 and multiplied again.
fn scrambled(block: u32) -> u32
    ensures { result ≡ hashing.scrambled block }
{
    block
        .wrapping_mul(0xcc9e_2d51)
        .rotate_left(15)
        .wrapping_mul(0x1b87_3593)
}

/// The hash with a whole block in it.
fn mixed(hash: u32, block: u32) -> u32
    ensures { result ≡ hashing.mixed hash block }
{
    (hash ^ scrambled(block))
        .rotate_left(13)
        .wrapping_mul(5)
        .wrapping_add(0xe654_6b64)
}

/// The last steps, which spread each bit over all.
fn finished(hash: u32) -> u32
    ensures { result ≡ hashing.finished hash }
{
    let hash = (hash ^ (hash >> 16)).wrapping_mul(0x85eb_ca6b);
    let hash = (hash ^ (hash >> 13)).wrapping_mul(0xc2b2_ae35);
    hash ^ (hash >> 16)
}

/// A block of four bytes, of which the first counts least.
fn block_of(a: u8, b: u8, c: u8, d: u8) -> u32
    ensures { result ≡ hashing.block_of a b c d }
{
    u32::from(a) + 256 * (u32::from(b) + 256 * (u32::from(c) + 256 * u32::from(d)))
}

/// The hash with the last bytes in it, which are fewer than a block.
fn tail_mixed(hash: u32, tail: &[u8]) -> u32
    requires { length tail.now < 4 }
    ensures { result ≡ hashing.blocks_mixed hash tail.now }
{
    match tail {
        [a] => hash ^ scrambled(block_of(*a, 0, 0, 0)),
        [a, b] => hash ^ scrambled(block_of(*a, *b, 0, 0)),
        [a, b, c] => hash ^ scrambled(block_of(*a, *b, *c, 0)),
        _ => hash,
    }
}

/// The hash with all bytes in it, block by block.
fn blocks_mixed(seed: u32, text: &[u8]) -> u32
    ensures { result ≡ hashing.blocks_mixed seed text.now }
{
    let mut hash = seed;
    let mut left = text;
    while let [a, b, c, d, rest @ ..] = left {
        hash = mixed(hash, block_of(*a, *b, *c, *d));
        left = rest;
    }
    tail_mixed(hash, left)
}

/// The 32 bits that MurmurHash3 (x86_32) makes of a text, from a seed.
pub fn murmur(seed: u32, text: &[u8]) -> u32
    ensures { result ≡ hashing.murmur seed text.now }
{
    let length = (text.len() % (1 << 32)) as u32;
    finished(blocks_mixed(seed, text) ^ length)
}
