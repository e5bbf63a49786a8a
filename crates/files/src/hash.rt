// The hash of a file's path.
ghost use Rattle.std.specs.Prelude.{◌≡◌};
ghost use Rattle.files.specs.Hash.{hash_from};

// The prime of FNV's hash of 32 bits.
const PRIME: u64 = 16777619;

// 2^32: a hash is the low half of a word.
const MODULUS: u64 = 1 << 32;

// The hash h, gone on with the bytes of s.
pub fn hash_bytes(h: u32, s: &[u8]) -> u32
    ensures { result ≡ hash_from h s.now }
{
    let mut r = h;
    for &b in s {
        r = ((r as u64 * PRIME + b as u64 + 1) % MODULUS) as u32;
    }
    r
}
