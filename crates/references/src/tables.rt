// Where an offset leads: the units and entries of a sheet by the tables of its index.
ghost use Rattle.std.specs.Prelude.{◌≡◌, ◌+◌};
ghost use Rattle.tlv.specs.Lists.{Any};
ghost use Rattle.tlv.specs.Fields.{fields};
ghost use Rattle.access.specs.Places.{unit_here, unit_places};
ghost use Rattle.references.specs.Tables.{IndexIn, Leads, LeadsTo, LeadsIn};
ghost use Rattle.references.specs.Names.{index_in};

use access::index::{EntryPlace, find_entry};
use access::units::{UnitSpan, unit_containing_offset};
use buffers::table::Stored;
use files::sheets::Sheets;
use tlv::model::DebugSource;
use tlv::refusal::Refusal;

// Where the tables of a sheet's units and entries stand in the work slice.
#[derive(Clone, Copy, Debug)]
pub struct Index {
    pub units: Stored<UnitSpan>,
    pub entries: Stored<EntryPlace>,
}

// No entry starts at an offset, though a unit has it: the unit's place.
#[derive(Clone, Copy, Debug)]
pub struct NoEntry {
    pub unit: usize,
}

// Where an offset of the section leads: outside all units, to an entry, or into a unit where no entry starts.
pub fn target_at(
    s: &[u8],
    work: &[u8],
    x: Index,
    target: u64,
) -> Result<Option<EntryPlace>, NoEntry>
    requires { IndexIn s.now work.now x }
    ensures { LeadsTo s.now target result }
{
    let Some(unit) = unit_containing_offset(work, x.units, target) else {
        return Ok(None);
    };
    let Some(entry) = find_entry(work, x.entries, target) else {
        return Err(NoEntry { unit });
    };
    Ok(Some(entry))
}

impl Index {
    // The entry at an offset of the section: none outside all units, a refusal in a unit where no entry starts.
    pub fn target_at(
        self,
        s: &[u8],
        work: &[u8],
        target: u64,
    ) -> Result<Option<EntryPlace>, Refusal>
        requires { IndexIn s.now work.now self }
        ensures { Leads s.now target result }
    {
        target_at(s, work, self, target).map_err(|_| Refusal::NoEntry)
    }

    // The place of the entry at an offset of the unit at a place, which is `target` in the section.
    pub fn target_in(
        self,
        s: &[u8],
        work: &[u8],
        unit: usize,
        offset: u64,
        target: u64,
    ) -> Option<usize>
        requires index_in { IndexIn s.now work.now self }
        requires unit_listed { Any (λ p. p ≡ unit) (unit_places 0 (fields s.now)) }
        requires offset_sum { target ≡ (unit_here s.now unit).offset + offset }
        ensures { LeadsIn s.now unit offset result }
    {
        let entry = find_entry(work, self.entries, target)?;
        if entry.unit == unit {
            Some(entry.place)
        } else {
            None
        }
    }
}

// Both sheets, where their tables stand, and where the targets that a search has followed are put.
#[derive(Clone, Copy, Debug)]
pub struct Tables<'a> {
    pub sheets: Sheets<'a>,
    pub main: Index,
    pub supplementary: Index,
    pub keys: usize,
}

impl Tables<'_> {
    // The tables of the sheet of a source.
    pub fn index(self, source: DebugSource) -> Index
        ensures { result ≡ index_in self.entry source }
    {
        // Stays a match: a sheet's tables are picked by its source here, once for all crates.
        match source {
            DebugSource::Main => self.main,
            DebugSource::Supplementary => self.supplementary,
        }
    }
}
