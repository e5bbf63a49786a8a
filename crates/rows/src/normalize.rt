// Neighbours that repeat one another dropped in place: of a unit's sorted rows, and of a function's rows (the Rust's normalize.rs).
ghost use Rattle.std.specs.Prelude.{◌≡◌, ℕ, Bool, List, ◌+◌, ◌*◌, ◌≤◌, length};
ghost use Rattle.buffers.specs.Table.{chunk};
ghost use Rattle.lines.specs.Lines.{same_row, same_line};
ghost use Rattle.rows.specs.Sizes.{entry_size, line_size};
ghost use Rattle.rows.specs.Stored.{entry_of, line_at};
ghost use Rattle.rows.specs.Sorts.{Deduped, Compacted};
ghost use Rattle.rows.specs.Repeats.{MayTest, TestsBy, Dropped};

use crate::line::{ENTRY_SIZE, LINE_SIZE, SequencedLine, address_at, sequence_at};
use buffers::table::{Stored, copy_record};
use tlv::bytes::Number;
use tlv::model::LineEntry;

// Whether the rows at p and q have the same file and line.
// Stays by hand: what is compared are bytes at two places, and of a row's fields only two.
fn same_line(work: &[u8], p: usize, q: usize) -> bool
    requires p_within { p + entry_size ≤ length work.now }
    requires q_within { q + entry_size ≤ length work.now }
    ensures { result ≡ same_line (entry_of (chunk work.now p entry_size)) (entry_of (chunk work.now q entry_size)) }
{
    u32::read(work, p + 8) == u32::read(work, q + 8)
        && u32::read(work, p + 12) == u32::read(work, q + 12)
}

// Whether the unit's rows at p and q are the same in each field but the column.
// Stays by hand: what is compared are bytes at two places, and of a row's fields all but the column.
fn same_row(work: &[u8], p: usize, q: usize) -> bool
    requires p_within { p + line_size ≤ length work.now }
    requires q_within { q + line_size ≤ length work.now }
    ensures { result ≡ same_row (line_at work.now p) (line_at work.now q) }
{
    address_at(work, p) == address_at(work, q)
        && same_line(work, p, q)
        && sequence_at(work, p + ENTRY_SIZE) == sequence_at(work, q + ENTRY_SIZE)
}

// Of the records of `size` bytes of a table, those that repeat the one kept before them are dropped. Returns how many are left.
// Stays a count, as the two below: the place stays the caller's, and a `Stored` would come with a clause that it does.
fn drop_repeats<R, F: Fn(&[u8], usize, usize) -> bool>(
    work: &mut [u8],
    rows: Stored<R>,
    // Stays a number beside `R`: with a trait that has the size each type would have an `impl`, and each clause its member for a number.
    size: usize,
    repeats: F,
) -> usize
    requires rows_within { rows.base + rows.count * size ≤ length work.old }
    requires may_test { MayTest size (F.pre repeats) }
    ensures few { result ≤ rows.count }
    ensures dropped { (equal : List ℕ → List ℕ → Bool) → TestsBy size equal (F.post repeats)
        → Dropped (λ b. b) size equal work.old work.new rows.base rows.count result }
{
    if rows.count == 0 {
        return 0;
    }
    let mut last = 0;
    for i in 1..rows.count {
        if !repeats(work, rows.base + last * size, rows.base + i * size) {
            last += 1;
            copy_record(work, rows.base + i * size, rows.base + last * size, size);
        }
    }
    last + 1
}

// Of each run of equal neighbours of a unit's rows the first is kept. Returns how many are left.
pub fn dedup_rows(work: &mut [u8], rows: Stored<SequencedLine>) -> usize
    requires { rows.base + rows.count * line_size ≤ length work.old }
    ensures { Deduped work.old work.new rows.base rows.count result }
{
    drop_repeats(work, rows, LINE_SIZE, same_row)
}

// Of each run of rows with one file and line, of the rows of a function, the first is kept. Returns how many are left.
pub fn compact_line_rows(work: &mut [u8], rows: Stored<LineEntry>) -> usize
    requires { rows.base + rows.count * entry_size ≤ length work.old }
    ensures { Compacted work.old work.new rows.base rows.count result }
{
    drop_repeats(work, rows, ENTRY_SIZE, same_line)
}
