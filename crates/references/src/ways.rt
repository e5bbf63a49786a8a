// Where an attribute's reference leads.
ghost use Rattle.std.specs.Prelude.{◌≡◌, ◌+◌};
ghost use Rattle.tlv.specs.Checked.{Placed};
ghost use Rattle.tlv.specs.Refusals.{as_outcome};
ghost use Rattle.access.specs.Places.{unit_here, UnitOf};
ghost use Rattle.files.specs.Pieces.{source_in};
ghost use Rattle.references.specs.Search.{absolute_entry_offset};
ghost use Rattle.references.specs.Keys.{key_in, PossibleKey};
ghost use Rattle.references.specs.Names.{at_entry, Stands, SearchIn, follow_unit_from, follow_from, Ways};

use crate::attributes::{Reference, reference_at};
use crate::keys::{DieKey, is_visited};
use crate::tables::Tables;
use access::index::EntryPlace;
use tlv::bytes::Number;
use tlv::model::DebugSource;
use tlv::refusal::Refusal;
use tlv::tags::UNIT_OFFSET;

// Where a search stands: an entry of a sheet, the source that its unit's targets are remembered under, and
// how many entries in a row are left to look at, this one included.
// Stays beside OffsetAt, which has a target in place of source and entry: of one type over both, to_entry would still set each field, since
// no `..self` goes from the one to the other.
#[derive(Clone, Copy, Debug)]
pub struct EntryAt {
    pub entry: EntryPlace,
    pub input: DebugSource,
    pub source: DebugSource,
    pub left: u8,
}

// A target that a search is to follow in a sheet, and how many entries are left.
#[derive(Clone, Copy, Debug)]
pub struct OffsetAt {
    pub key: DieKey,
    pub input: DebugSource,
    pub left: u8,
}

impl OffsetAt {
    // Where the search stands at the entry of that offset.
    pub fn to_entry(self, entry: EntryPlace) -> EntryAt
        ensures { result ≡ at_entry self entry }
    {
        EntryAt {
            input: self.input,
            source: self.key.source,
            entry,
            left: self.left,
        }
    }
}

// How a search goes on from a reference: at an entry of the same unit, beside the target that it is; or to a target that is still sought.
#[derive(Clone, Copy, Debug)]
pub enum Way {
    Entry(EntryAt, DieKey),
    Offset(OffsetAt),
}

// The offset in the section of an offset of the unit at a place.
pub fn absolute_entry_offset(s: &[u8], unit: usize, offset: u64) -> Result<u64, Refusal>
    requires placed { Placed s.now 0 }
    requires listed { UnitOf s.now unit }
    ensures { as_outcome result ≡ absolute_entry_offset (unit_here s.now unit) offset }
{
    u64::read(s, unit + UNIT_OFFSET)
        .checked_add(offset)
        .ok_or(Refusal::Overflow)
}

// How a search goes on from a reference to an offset of its own unit; none where it was followed already.
// Stays with work, tables and a count apart, as way_of and keys' is_visited: push_key writes the slice and takes the other two.
fn unit_way(
    work: &[u8],
    x: &Tables,
    n: usize,
    at: &EntryAt,
    offset: u64,
) -> Result<Option<Way>, Refusal>
    requires search_in { SearchIn x.now.sheets.main.now x.now.sheets.supplementary.now work.now x.now n }
    requires stands { Stands x.now.sheets.main.now x.now.sheets.supplementary.now at.now }
    requires possible_key { PossibleKey x.now.sheets.main.now x.now.sheets.supplementary.now (key_in at.now.source
        ((unit_here (source_in x.now.sheets.main.now x.now.sheets.supplementary.now at.now.input) at.now.entry.unit).offset + offset)) }
    ensures { let main = x.now.sheets.main.now in let supplementary = x.now.sheets.supplementary.now in
        Ways (follow_unit_from main supplementary at.now offset) main supplementary work.now x.now n at.now.left result }
{
    let unit = at.entry.unit;
    let s = x.sheets.of(at.input);
    let target = absolute_entry_offset(s, unit, offset)?;
    let key = DieKey {
        source: at.source,
        offset: target,
    };
    if is_visited(work, x, n, key) {
        return Ok(None);
    }
    let index = x.index(at.input);
    let place = index
        .target_in(s, work, unit, offset, target)
        .ok_or(Refusal::NoEntry)?;
    let next = EntryAt {
        entry: EntryPlace { place, unit },
        left: at.left.saturating_sub(1),
        ..*at
    };
    Ok(Some(Way::Entry(next, key)))
}

// How a search goes on from the attribute of a name of an entry; none where it is no reference, or leads nowhere.
pub fn way_of(
    work: &[u8],
    x: &Tables,
    n: usize,
    at: &EntryAt,
    name: u16,
) -> Result<Option<Way>, Refusal>
    requires search_in { SearchIn x.now.sheets.main.now x.now.sheets.supplementary.now work.now x.now n }
    requires stands { Stands x.now.sheets.main.now x.now.sheets.supplementary.now at.now }
    ensures { let main = x.now.sheets.main.now in let supplementary = x.now.sheets.supplementary.now in
        Ways (follow_from main supplementary at.now name) main supplementary work.now x.now n at.now.left result }
{
    let here = at.input;
    let left = at.left.saturating_sub(1);
    match reference_at(x.sheets.of(here), at.entry, name) {
        None => Ok(None),
        Some(Reference::Unit(o)) => unit_way(work, x, n, at, o),
        Some(Reference::Section(o)) => Ok(Some(Way::Offset(OffsetAt {
            input: here,
            key: DieKey {
                source: DebugSource::Main,
                offset: o,
            },
            left,
        }))),
        Some(Reference::Supplementary(o)) => {
            if here == DebugSource::Supplementary || x.supplementary.units.count == 0 {
                return Ok(None);
            }
            Ok(Some(Way::Offset(OffsetAt {
                input: DebugSource::Supplementary,
                key: DieKey {
                    source: DebugSource::Supplementary,
                    offset: o,
                },
                left,
            })))
        }
    }
}
