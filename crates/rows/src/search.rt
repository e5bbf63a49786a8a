// The place of an address among a unit's sorted rows, by halves.
ghost use Rattle.std.specs.Prelude.{◌≡◌, ◌+◌, ◌*◌, ◌≤◌, length};
ghost use Rattle.rows.specs.Sizes.{line_size};
ghost use Rattle.rows.specs.Stored.{lines_of};
ghost use Rattle.rows.specs.Sorts.{Sorted, leading};

use crate::line::{LINE_SIZE, SequencedLine, address_at};
use buffers::search::lower_bound;
use buffers::table::Stored;

// Of sorted rows, the index of the first whose address is at least `address`, or their number.
// Stays a clause that the table lies in the slice: sort.rt says why.
pub fn lower_row(work: &[u8], rows: Stored<SequencedLine>, address: u64) -> usize
    requires rows_within { rows.base + rows.count * line_size ≤ length work.now }
    requires sorted { Sorted 0 (lines_of work.now rows.base rows.count) }
    ensures { result ≡ leading address (lines_of work.now rows.base rows.count) }
{
    lower_bound(rows.count, |i| {
        address_at(work, rows.base + i * LINE_SIZE) < address
    })
}
