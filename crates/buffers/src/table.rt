// Tables of records in the work slice: where one stands, a range written, a record copied, bytes set to 0. `numbers` has the writes and `tlv::bytes` the reads.
ghost use Rattle.std.specs.Prelude.{◌≡◌, ◌⊎◌, ◌+◌, ◌≤◌, ◌<◌, length};
ghost use Rattle.buffers.specs.Table.{Wrote, PutRange, CopiedBytes, Zeroed};

use crate::numbers::Written;
use std::marker::PhantomData;
use tlv::bytes::Number;
use tlv::model::AddressRange;

// A table in the work slice: where its first record stands, and how many it has. Each is of one `R`.
// Stays a place and a count, no slice or Vec: the import has no heap, and its tables lie side by side in one lent slice. That a table lies in it is a
// clause of each function that is lent both, since most of them write the slice.
#[derive(Clone, Copy, Debug)]
pub struct Stored<R> {
    pub base: usize,
    pub count: usize,
    of: PhantomData<R>,
}

impl<R> Stored<R> {
    pub fn new(base: usize, count: usize) -> Stored<R>
        ensures based { result.base ≡ base }
        ensures counted { result.count ≡ count }
    {
        Stored {
            base,
            count,
            of: PhantomData,
        }
    }
}

// Writes a range at a place, as AddressRange::read finds it.
pub fn put_range_at(w: &mut [u8], p: usize, range: AddressRange)
    requires { p + 16 ≤ length w.old }
    ensures { PutRange w.old w.new p range }
{
    range.start.write(w, p);
    range.end.write(w, p + 8);
}

// The bytes of a word.
const WORD: usize = 8;

// Eight bytes are read before any of them is written: the two places may lie anyhow.
// Stays a copy by hand, as the two below: `copy_within` calls C's `memmove` for each record: 5 to 9 nanoseconds for 16 to 26 bytes, where these take 1.4 to 3.
fn copy_word(w: &mut [u8], from: usize, to: usize)
    requires from_in_bounds { from + 8 ≤ length w.old }
    requires target_in_bounds { to + 8 ≤ length w.old }
    ensures { CopiedBytes w.old w.new from to 8 }
{
    let v = u64::read(w, from);
    v.write(w, to);
}

// Copies whole words, as many as the size has. Returns how many bytes they are.
// Stays with its clauses, as the two below: they are of the lent slice and of two places in it, which a struct would hold for one call only.
fn copy_words(w: &mut [u8], from: usize, to: usize, size: usize) -> usize
    requires from_in_bounds { from + size ≤ length w.old }
    requires target_in_bounds { to + size ≤ length w.old }
    requires apart_or_below { (to ≤ from) ⊎ (from + size ≤ to) }
    ensures { (result ≤ size) × CopiedBytes w.old w.new from to result }
{
    let words = size / WORD;
    for i in 0..words {
        copy_word(w, from + i * WORD, to + i * WORD);
    }
    words * WORD
}

fn copy_bytes(w: &mut [u8], from: usize, to: usize, size: usize)
    requires from_in_bounds { from + size ≤ length w.old }
    requires target_in_bounds { to + size ≤ length w.old }
    requires apart_or_below { (to ≤ from) ⊎ (from + size ≤ to) }
    ensures { CopiedBytes w.old w.new from to size }
{
    for i in 0..size {
        w[to + i] = w[from + i];
    }
}

// The bytes are copied from the first on: so `to` may lie before `from` and meet it. Words first, since the compiler cannot join
// single bytes of places that may meet.
pub fn copy_record(w: &mut [u8], from: usize, to: usize, size: usize)
    requires from_in_bounds { from + size ≤ length w.old }
    requires target_in_bounds { to + size ≤ length w.old }
    requires apart_or_below { (to ≤ from) ⊎ (from + size ≤ to) }
    ensures { CopiedBytes w.old w.new from to size }
{
    let done = copy_words(w, from, to, size);
    copy_bytes(w, from + done, to + done, size - done);
}

// Sets the bytes from `from` to below `to` to 0.
// Stays beside `fill`: it tells of the whole slice, as tables are told of, where `fill` tells of the part.
pub fn fill_zero(w: &mut [u8], from: usize, to: usize)
    requires { (from ≤ to) × (to ≤ length w.old) }
    ensures { Zeroed w.old w.new from to }
{
    w[from..to].fill(0);
}
