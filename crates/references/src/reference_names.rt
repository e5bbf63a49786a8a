// The name that an entry's attribute refers to.
ghost use Rattle.std.specs.Prelude.{◌≡◌};
ghost use Rattle.tlv.specs.Refusals.{status_of};
ghost use Rattle.access.specs.Places.{entry_here, unit_here};
ghost use Rattle.references.specs.Search.{attribute};
ghost use Rattle.references.specs.Reads.{reference_name_reads, ReadsWithin};
ghost use Rattle.references.specs.Tables.{EntryKnown, bytes_of};
ghost use Rattle.references.specs.Names.{dwarf_of, SearchIn, reference_name, Resolved};

use crate::names::{referred_name, start_at};
use crate::tables::Tables;
use crate::trails::{Counted, Trail};
use access::index::EntryPlace;
use tlv::refusal::Refusal;

// The name that the attribute of a name of such an entry refers to, and how many entries were read for it.
// Stays apart from resolve_name_counted, which says why.
pub fn resolve_reference_name_counted<'a>(
    work: &mut [u8],
    x: Tables<'a>,
    entry: EntryPlace,
    name: u16,
) -> Counted<Result<&'a [u8], Refusal>>
    requires search_in { SearchIn x.sheets.main.now x.sheets.supplementary.now work.old x 0 }
    requires entry_known { EntryKnown x.sheets.main.now entry.unit entry.place }
    ensures resolved { let main = x.entry.sheets.main.now in let supplementary = x.entry.sheets.supplementary.now in
        Resolved main supplementary x.entry work.old work.new
        (reference_name (dwarf_of main supplementary) (unit_here main entry.unit) (entry_here main entry.place)
        (attribute (entry_here main entry.place) name)) (status_of result.answer) (bytes_of result.answer) }
    ensures reads_after { let main = x.entry.sheets.main.now in let supplementary = x.entry.sheets.supplementary.now in
        result.reads ≡ reference_name_reads (dwarf_of main supplementary) (unit_here main entry.unit) (entry_here main entry.place) name }
    ensures reads_within { ReadsWithin (dwarf_of x.entry.sheets.main.now x.entry.sheets.supplementary.now) result.reads }
{
    let mut trail = Trail::start();
    let answer = referred_name(work, &mut trail, &x, &start_at(entry), name);
    Counted {
        answer,
        reads: trail.reads,
    }
}

// The name that the entry's attribute `name` refers to.
pub fn resolve_reference_name<'a>(
    work: &mut [u8],
    x: Tables<'a>,
    entry: EntryPlace,
    name: u16,
) -> Result<&'a [u8], Refusal>
    requires search_in { SearchIn x.sheets.main.now x.sheets.supplementary.now work.old x 0 }
    requires entry_known { EntryKnown x.sheets.main.now entry.unit entry.place }
    ensures { let main = x.entry.sheets.main.now in let supplementary = x.entry.sheets.supplementary.now in
        Resolved main supplementary x.entry work.old work.new
        (reference_name (dwarf_of main supplementary) (unit_here main entry.unit) (entry_here main entry.place)
        (attribute (entry_here main entry.place) name)) (status_of result) (bytes_of result) }
{
    resolve_reference_name_counted(work, x, entry, name).answer
}
