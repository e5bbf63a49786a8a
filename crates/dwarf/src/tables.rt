// The tables of both inputs' units and entries in the work slice.
ghost use Rattle.std.specs.Prelude.{◌+◌, ◌*◌, ◌≤◌, length};
ghost use Rattle.tlv.specs.Tags.{entry_tag};
ghost use Rattle.tlv.specs.Limits.{input_limit};
ghost use Rattle.tlv.specs.Fields.{fields, payloads, whole_fields};
ghost use Rattle.tlv.specs.Checked.{Accepted};
ghost use Rattle.access.specs.Places.{unit_places};
ghost use Rattle.access.specs.Units.{unit_record};
ghost use Rattle.access.specs.Index.{entry_record};
ghost use Rattle.dwarf.specs.Tables.{IndexesInput, IndexesInputs};
ghost use Rattle.dwarf.specs.Given.{LaidOutFor};

use crate::lent::Inputs;
use access::index::index_entries;
use access::units::index_units;
use checks::layout::Layout;
use references::tables::Index;

// The layout of the work slice, and the tables of both inputs that stand by it.
// Stays with both tables side by side, as references' Tables: a pair of them would be a type more, for the one copy from here to there.
#[derive(Clone, Copy, Debug)]
pub struct Indexes {
    pub layout: Layout,
    pub main: Index,
    pub supplementary: Index,
}

// The units and the entries of an input, in tables of the work slice.
// Stays beside search_answers' index_sheet: where the tables end is promised here by the layout's places, there by the number of fields.
fn index_input(s: &[u8], work: &mut [u8], units: usize, entries: usize) -> Index
    requires accepted { Accepted s.now }
    requires small { length s.now ≤ input_limit }
    requires units_fit { units + unit_record * length (unit_places 0 (fields s.now)) ≤ entries }
    requires entries_fit { entries + entry_record * length (payloads entry_tag (whole_fields (fields s.now))) ≤ length work.old }
    ensures { IndexesInput s.now work.old work.new units entries result }
{
    Index {
        units: index_units(s, work, units),
        entries: index_entries(s, work, entries),
    }
}

// The tables of both inputs are made, once for all units of an import.
pub fn index_inputs(inputs: Inputs, layout: Layout, work: &mut [u8]) -> Indexes
    requires accepted { (Accepted inputs.sheets.main.now) × (Accepted inputs.sheets.supplementary.now) }
    requires small { (length inputs.sheets.main.now ≤ input_limit) × (length inputs.sheets.supplementary.now ≤ input_limit) }
    requires laid_out { LaidOutFor inputs layout }
    requires tables_fit { layout.files ≤ length work.old }
    ensures { IndexesInputs inputs.entry.sheets.main.now inputs.entry.sheets.supplementary.now inputs.entry.program.now
        inputs.entry.lists.lists.now work.old work.new layout result }
{
    let main = index_input(inputs.sheets.main, work, 0, layout.main_entries);
    let supplementary = index_input(
        inputs.sheets.supplementary,
        work,
        layout.supplementary_units,
        layout.supplementary_entries,
    );
    Indexes {
        layout,
        main,
        supplementary,
    }
}
