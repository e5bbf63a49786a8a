// A unit's executable ranges in the work slice, and what they say of a subprogram's range.
ghost use Rattle.std.specs.Prelude.{◌≡◌, ◌+◌, ◌*◌, ◌≤◌, length};
ghost use Rattle.tlv.specs.Checked.{Placed};
ghost use Rattle.access.specs.Places.{unit_here};
ghost use Rattle.collect.specs.Collects.{UnitIn};
ghost use Rattle.imports.specs.Import.{is_live_range, is_tombstone};
ghost use Rattle.ranges.specs.RangeTable.{ranges_at, range_record};
ghost use Rattle.subprograms.specs.Text.{TextIndexed};

use access::access::next_before_rows;
use buffers::table::{Stored, put_range_at};
use ranges::ranges::{RANGE_RECORD, RangeTable};
use tlv::model::AddressRange;
use tlv::tags::{TEXT_TAG, UNIT_WHOLE};

// Writes the executable ranges of the unit at a place from `base` on.
// Stays beside files' index_directories: alike is the walk; one for both would take the tag, the record's write and its law, more than this loop.
pub fn index_text(main: &[u8], place: usize, work: &mut [u8], base: usize) -> Stored<AddressRange>
    requires placed { Placed main.now 0 }
    requires unit_in { UnitIn main.now place }
    requires place_in_bounds { base + range_record * length (unit_here main.now place).text ≤ length work.old }
    ensures { TextIndexed main.now work.old work.new place base result }
{
    let mut p = place + UNIT_WHOLE;
    let mut count: usize = 0;
    // Stays a loop over fields: next_field says why.
    while let Some(field) = next_before_rows(main, p, TEXT_TAG) {
        let range = AddressRange::read(main, field.start);
        put_range_at(work, base + count * RANGE_RECORD, range);
        count += 1;
        p = field.next;
    }
    Stored::new(base, count)
}

// The least length of a range that is too long.
const LONG_RANGE: u64 = 1 << 32;

// Whether a range of a subprogram is nonempty, below 4 GiB, and inside one of the executable ranges.
#[tactic(auto, unfolding(imports::specs::Import::is_live_range))]
pub fn is_live_range(text: RangeTable, range: AddressRange) -> bool
    ensures { result ≡ is_live_range (ranges_at text.entry.work.now text.entry.stored.base text.entry.stored.count) range }
{
    !range.is_empty() && range.end - range.start < LONG_RANGE && text.lies_in(range)
}

// Whether a range of a subprogram starts at 0 or is dead, outside the executable ranges.
#[tactic(auto, unfolding(imports::specs::Import::is_tombstone, lines::specs::Rows::contains))]
pub fn is_tombstone(text: RangeTable, range: AddressRange, dead: bool) -> bool
    ensures { result ≡ is_tombstone (ranges_at text.entry.work.now text.entry.stored.base text.entry.stored.count)
        (record { range = range; tombstone = dead }) }
{
    (range.start == 0 || dead) && !text.holds(range.start)
}
