// Numbers in bytes, lowest byte first.
ghost use Rattle.std.specs.Prelude.{◌≡◌, ℕ, ◌+◌, ◌≤◌, length};
ghost use Rattle.std.proofs.Common.{rules};
ghost use Rattle.tlv.specs.Bytes.{le_at};

// An unsigned number that stands in `width` bytes.
// Stays a clause, here and at each record that is read or written at a place: a type of a slice and a place would be made anew for each.
// Stays halves by hand: by `from_le_bytes` a u64 is a list of eight reads over ten lines, or a part made an array by `try_from`, whose promise a lemma would
// take apart; neither is faster.
pub trait Number {
    // How many bytes it takes.
    ghost WIDTH: { ℕ };

    const WIDTH: usize;

    ghost value: { Self → ℕ };

    // The number at a place.
    fn read(s: &[u8], p: usize) -> Self
        requires { p + WIDTH ≤ length s.now }
        ensures { value result ≡ le_at WIDTH s.now p };

    ghost narrow: { WIDTH ≤ 8 };
}

impl Number for u8 {
    ghost WIDTH = { 1 };

    const WIDTH: usize = 1;

    ghost value = { λ n. n };

    ghost narrow = { Prim.search rules };

    fn read(s: &[u8], p: usize) -> u8 {
        s[p]
    }
}

impl Number for u16 {
    ghost WIDTH = { 2 };

    const WIDTH: usize = 2;

    ghost value = { λ n. n };

    ghost narrow = { Prim.search rules };

    fn read(s: &[u8], p: usize) -> u16 {
        u8::read(s, p) as u16 + u8::read(s, p + 1) as u16 * 256
    }
}

impl Number for u32 {
    ghost WIDTH = { 4 };

    const WIDTH: usize = 4;

    ghost value = { λ n. n };

    ghost narrow = { Prim.search rules };

    fn read(s: &[u8], p: usize) -> u32 {
        u16::read(s, p) as u32 + u16::read(s, p + 2) as u32 * 65536
    }
}

impl Number for u64 {
    ghost WIDTH = { 8 };

    const WIDTH: usize = 8;

    ghost value = { λ n. n };

    ghost narrow = { Prim.search rules };

    fn read(s: &[u8], p: usize) -> u64 {
        u32::read(s, p) as u64 + u32::read(s, p + 4) as u64 * 4294967296
    }
}
