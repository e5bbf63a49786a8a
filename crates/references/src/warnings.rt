// Warnings about an entry.
ghost use Rattle.tlv.specs.Checked.{Accepted};
ghost use Rattle.references.specs.Tables.{EntryKnown};
ghost use Rattle.references.specs.Warnings.{AboutWarned};

use crate::ways::absolute_entry_offset;
use access::index::EntryPlace;
use buffers::output::put_warning;
use tlv::bytes::Number;
use tlv::refusal::Refusal;
use tlv::tags::ENTRY_OFFSET;

// A warning of a kind about an entry, with a number; the place in the warnings after it.
// Stays with sheet, tray, entry and place apart, as all that warn of an entry: the attributes are read from the sheet and the entry alone.
pub fn warn_about(
    s: &[u8],
    warnings: &mut [u8],
    entry: EntryPlace,
    kind: u8,
    number: u64,
    at: usize,
) -> Result<usize, Refusal>
    requires accepted { Accepted s.now }
    requires entry_known { EntryKnown s.now entry.unit entry.place }
    ensures { AboutWarned s.now entry.unit entry.place kind number at warnings.old warnings.new result }
{
    let offset = u64::read(s, entry.place + ENTRY_OFFSET);
    let target = absolute_entry_offset(s, entry.unit, offset)?;
    Ok(put_warning(warnings, at, kind, target, number))
}
