// The index of a sheet's entries in the work slice, by their offsets in the section, and a search in it.
ghost use Rattle.std.specs.Prelude.{◌≡◌, ◌+◌, ◌*◌, ◌^◌, ◌≤◌, ◌<◌, length};
ghost use Rattle.tlv.specs.Tags.{entry_tag};
ghost use Rattle.tlv.specs.Fields.{fields, whole_fields, payloads};
ghost use Rattle.tlv.specs.Checked.{Placed};
ghost use Rattle.buffers.specs.Table.{records};
ghost use Rattle.access.specs.Index.{indexed_of, PutEntry, Indexed, Rising, lookup, lower_than, found_of, entry_record};

use buffers::numbers::Written;
use buffers::search::lower_bound;
use buffers::table::Stored;
use tlv::bytes::Number;
use tlv::fields::next_field;
use tlv::tags::{ENTRY_TAG, UNIT_TAG};

// Where an entry's place and its unit's stand in its record, behind its offset, and the bytes of a record.
const ENTRY_PLACE: usize = 8;

const ENTRY_UNIT: usize = ENTRY_PLACE + 4;

pub const ENTRY_RECORD: usize = ENTRY_UNIT + 4;

// Where an entry stands, and the unit that it is in.
#[derive(Clone, Copy, Debug)]
pub struct EntryPlace {
    pub place: usize,
    pub unit: usize,
}

impl EntryPlace {
    // A record of the index: the offset by which the entry is found, 8 bytes, its place and its unit's, 4 bytes each.
    // Stays beside the `write` of other records: each has fields of its own.
    fn write(self, work: &mut [u8], p: usize, offset: u64)
        requires record_fits { p + entry_record ≤ length work.old }
        requires place_fits { self.place < 2 ^ 32 }
        requires unit_fits { self.unit < 2 ^ 32 }
        ensures { PutEntry work.old work.new p offset self.place self.unit }
    {
        offset.write(work, p);
        (self.place as u32).write(work, p + ENTRY_PLACE);
        (self.unit as u32).write(work, p + ENTRY_UNIT);
    }
}

// Writes a record for each field 17 of an accepted sheet, and returns the table.
// Stays apart from `index_units`: each entry's record needs the unit that was met last, so the two walks carry other things.
// Stays with the sheet, the slice and a base apart, as all that write a table: each begins where the one before it ends, and the slice is lent for both;
// and with the clause that a sheet is below 2^32 bytes: one is made before refusal 1 bounds it, so `Sheets` may not hold that.
pub fn index_entries(s: &[u8], work: &mut [u8], base: usize) -> Stored<EntryPlace>
    requires placed { Placed s.now 0 }
    requires s_len_bound { length s.now < 2 ^ 32 }
    requires records_fit { base + entry_record * length (payloads entry_tag (whole_fields (fields s.now))) ≤ length work.old }
    ensures based { result.base ≡ base }
    ensures indexed { Indexed s.now work.old work.new base result.count }
{
    let mut p: usize = 0;
    let mut n: usize = 0;
    let mut unit: usize = 0;
    let mut offset: u64 = 0;
    // Stays a loop over fields: next_field says why.
    while let Some(field) = next_field(s, p) {
        if field.tag == UNIT_TAG {
            offset = u64::read(s, field.start);
            unit = p;
        } else if field.tag == ENTRY_TAG {
            let own = u64::read(s, field.start);
            let entry = EntryPlace { place: p, unit };
            entry.write(work, base + n * ENTRY_RECORD, offset + own);
            n += 1;
        }
        p = field.next;
    }
    Stored::new(base, n)
}

// How many entries of an index have a lower offset: a binary search.
fn lower_entry(work: &[u8], entries: Stored<EntryPlace>, offset: u64) -> usize
    requires in_bounds { entries.base + entry_record * entries.count ≤ length work.now }
    requires rising { Rising (records indexed_of entry_record work.now entries.base entries.count) }
    ensures { result ≡ lower_than offset (records indexed_of entry_record work.now entries.base entries.count) }
{
    lower_bound(entries.count, |i| {
        u64::read(work, entries.base + i * ENTRY_RECORD) < offset
    })
}

// The entry of an offset, of an index.
pub fn find_entry(work: &[u8], entries: Stored<EntryPlace>, offset: u64) -> Option<EntryPlace>
    requires in_bounds { entries.base + entry_record * entries.count ≤ length work.now }
    requires rising { Rising (records indexed_of entry_record work.now entries.base entries.count) }
    ensures { found_of offset result ≡ lookup offset (records indexed_of entry_record work.now entries.base entries.count) }
{
    let i = lower_entry(work, entries, offset);
    if entries.count <= i {
        return None;
    }
    let p = entries.base + i * ENTRY_RECORD;
    if u64::read(work, p) != offset {
        return None;
    }
    Some(EntryPlace {
        place: u32::read(work, p + ENTRY_PLACE) as usize,
        unit: u32::read(work, p + ENTRY_UNIT) as usize,
    })
}
