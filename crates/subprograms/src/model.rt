// What an import counts and carries along.
ghost use Rattle.std.specs.Prelude.{◌≡◌, ◌+◌, ◌≤◌, ◌<◌, length};
ghost use Rattle.buffers.specs.Buffer.{top};
ghost use Rattle.subprograms.specs.Outputs.{Filled};
ghost use Rattle.subprograms.specs.Stats.{stats_of, with_function, with_rejected};

use buffers::table::Stored;
use dies::details::UnitContext;
use files::store::StoredFiles;
use rows::unit_lines::StoredLines;
use tlv::model::AddressRange;

// The statistics of document 01, at first all 0; each stays at its largest value.
#[derive(Clone, Copy, Debug, Default, PartialEq, Eq)]
pub struct ConversionStats {
    pub functions: u64,
    pub line_rows: u64,
    pub inline_nodes: u64,
    pub rejected_ranges: u64,
}

impl ConversionStats {
    // A record with so many rows and nodes below its root is counted.
    pub fn count_function(&mut self, rows: usize, nodes: usize)
        ensures { stats_of self.new ≡ with_function rows nodes (stats_of self.old) }
    {
        self.functions = self.functions.saturating_add(1);
        self.line_rows = self.line_rows.saturating_add(rows as u64);
        self.inline_nodes = self.inline_nodes.saturating_add(nodes as u64);
    }

    // A rejected range is counted.
    pub fn count_rejected(&mut self)
        ensures { stats_of self.new ≡ with_rejected (stats_of self.old) }
    {
        self.rejected_ranges = self.rejected_ranges.saturating_add(1);
    }
}

// What is the same for every subprogram of a unit: what the walk below each is given, the unit's lines and its executable ranges, and the place and the
// bytes of the room for another unit that a declaration leads to.
// Stays a place and a size, as declarations' Places: it is room for two tables that are still to be made, so there is no count of a `Stored`.
#[derive(Clone, Copy, Debug)]
pub struct ImportContext<'a> {
    pub context: UnitContext<'a>,
    pub lines: StoredLines,
    pub text: Stored<AddressRange>,
    pub spans: usize,
    pub room: usize,
}

// A subprogram: its name, which is shorter than a field, the place of its entry, and one from which the entries below it are looked for.
#[derive(Clone, Copy, Debug)]
pub struct Subprogram<'a> {
    pub name: &'a [u8],
    pub place: usize,
    pub below: usize,
    ghost short: { 16 + length name.now < 65536 },
}

// What is written besides the work slice: the three output buffers.
#[derive(Debug, Drop)]
pub struct Outputs<'a> {
    pub records: &'a mut [u8],
    pub files: &'a mut [u8],
    pub warnings: &'a mut [u8],
}

impl Outputs<'_> {
    // All three hold a byte only.
    pub fn fill(&mut self, byte: u8)
        ensures { Filled byte self.old self.new }
    {
        self.records.fill(byte);
        self.files.fill(byte);
        self.warnings.fill(byte);
    }
}

// What changes from range to range: the file table, the places in the records and the warnings, the statistics, and whether the records pass the largest place.
#[derive(Clone, Copy, Debug)]
pub struct ImportState {
    pub table: StoredFiles,
    pub at: usize,
    pub warned: usize,
    pub stats: ConversionStats,
    pub past: bool,
    ghost within: { (at ≤ top) × (warned ≤ top) },
}
