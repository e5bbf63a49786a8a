// The table of a sheet's units in the work slice, and the unit in which an offset of the section lies.
ghost use Rattle.std.specs.Prelude.{◌≡◌, ◌+◌, ◌*◌, ◌≤◌, length};
ghost use Rattle.tlv.specs.Fields.{fields};
ghost use Rattle.tlv.specs.Checked.{Placed};
ghost use Rattle.buffers.specs.Table.{chunk, records};
ghost use Rattle.access.specs.Places.{unit_places};
ghost use Rattle.access.specs.Access.{place_of};
ghost use Rattle.access.specs.Units.{unit_of24, PutUnit, IndexedUnits, spans, within, containing, unit_record};

use buffers::numbers::Written;
use buffers::table::Stored;
use tlv::bytes::Number;
use tlv::fields::next_field;
use tlv::shapes::UNIT_LENGTH;
use tlv::tags::UNIT_TAG;

// Where a unit's length and place stand in its record, behind its offset, and the bytes of a record.
const SPAN_LENGTH: usize = 8;

const UNIT_PLACE: usize = SPAN_LENGTH + 8;

pub const UNIT_RECORD: usize = UNIT_PLACE + 8;

// What the table says of a unit: its offset in the section, its length, and the place of its field.
// Stays an offset and a length: they are of DWARF's section, which is not lent, so there is no slice.
#[derive(Clone, Copy, Debug)]
pub struct UnitSpan {
    pub offset: u64,
    pub length: u64,
    pub place: usize,
}

impl UnitSpan {
    // A record of the table: offset, length and place, of 8 bytes each.
    // Stays beside the `write` of other records: each has fields of its own.
    fn write(self, work: &mut [u8], p: usize)
        requires { p + unit_record ≤ length work.old }
        ensures { PutUnit work.old work.new p self.offset self.length self.place }
    {
        self.offset.write(work, p);
        self.length.write(work, p + SPAN_LENGTH);
        (self.place as u64).write(work, p + UNIT_PLACE);
    }

    // The record at a place.
    pub fn read(work: &[u8], p: usize) -> UnitSpan
        requires { p + unit_record ≤ length work.now }
        ensures { spans result ≡ unit_of24 (chunk work.now p unit_record) }
    {
        UnitSpan {
            offset: u64::read(work, p),
            length: u64::read(work, p + SPAN_LENGTH),
            place: u64::read(work, p + UNIT_PLACE) as usize,
        }
    }

    // Whether an offset of the section lies in the unit.
    fn holds(self, target: u64) -> bool
        ensures { result ≡ within target self.offset self.length }
    {
        self.offset <= target && target - self.offset < self.length
    }
}

// Writes a record for each field 10 of an accepted sheet, and returns the table.
// Stays apart from `index_entries`: an entry's record needs the unit that was met last, which this walk would carry for nothing.
pub fn index_units(s: &[u8], work: &mut [u8], base: usize) -> Stored<UnitSpan>
    requires placed { Placed s.now 0 }
    requires records_fit { base + unit_record * length (unit_places 0 (fields s.now)) ≤ length work.old }
    ensures based { result.base ≡ base }
    ensures indexed { IndexedUnits s.now work.old work.new base result.count }
{
    let mut p: usize = 0;
    let mut n: usize = 0;
    // Stays a loop over fields: next_field says why.
    while let Some(field) = next_field(s, p) {
        if field.tag == UNIT_TAG {
            let unit = UnitSpan {
                offset: u64::read(s, field.start),
                length: u64::read(s, field.start + UNIT_LENGTH),
                place: p,
            };
            unit.write(work, base + n * UNIT_RECORD);
            n += 1;
        }
        p = field.next;
    }
    Stored::new(base, n)
}

// The place of the first unit of a table that has the offset target in it.
pub fn unit_containing_offset(work: &[u8], units: Stored<UnitSpan>, target: u64) -> Option<usize>
    requires in_bounds { units.base + unit_record * units.count ≤ length work.now }
    ensures { place_of result ≡ containing target (records unit_of24 unit_record work.now units.base units.count) }
{
    let i = (0..units.count).find(|&i| {
        UnitSpan::read(work, units.base + i * UNIT_RECORD).holds(target)
    })?;
    Some(UnitSpan::read(work, units.base + i * UNIT_RECORD).place)
}
