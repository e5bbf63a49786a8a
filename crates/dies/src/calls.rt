// The file and the line of a call.
ghost use Rattle.std.specs.Prelude.{◌+◌, ◌*◌, ◌≤◌, ◌<◌, length};
ghost use Rattle.tlv.specs.Checked.{Accepted};
ghost use Rattle.tlv.specs.Refusals.{status_of};
ghost use Rattle.files.specs.Indices.{indices_in, index_record};
ghost use Rattle.lines.specs.Files.{file_index};
ghost use Rattle.references.specs.Tables.{EntryKnown};
ghost use Rattle.dies.specs.Answers.{value_or};
ghost use Rattle.dies.specs.Calls.{FileCalled, LineCalled};

use access::index::EntryPlace;
use buffers::table::Stored;
use buffers::warning::WarningKind;
use files::index::FileNumber;
use references::attributes::{file_index_attribute, unsigned_attribute};
use references::warnings::warn_about;
use tlv::constants::{DW_AT_CALL_FILE, DW_AT_CALL_LINE};
use tlv::model::FileIndex;
use tlv::refusal::Refusal;

// What was read of a call, and the place in the warnings after it.
#[derive(Clone, Copy, Debug)]
pub struct Warned<T> {
    pub value: T,
    pub at: usize,
}

// The file of a call; a missing one warns.
// Stays apart from `call_line`, which says why.
pub fn call_file(
    main: &[u8],
    work: &[u8],
    warnings: &mut [u8],
    indices: Stored<FileIndex>,
    entry: EntryPlace,
    at: usize,
) -> Result<Warned<FileIndex>, Refusal>
    requires accepted { Accepted main.now }
    requires entry_known { EntryKnown main.now entry.unit entry.place }
    requires map_within { indices.base + indices.count * index_record ≤ length work.now }
    ensures { FileCalled (indices_in work.now indices) main.now entry.unit entry.place at warnings.old warnings.new (status_of result)
        (value_or (record { value = file_index 0; at = at }) result) }
{
    let none = FileIndex(0);
    let Some(number) = file_index_attribute(main, entry, DW_AT_CALL_FILE) else {
        return Ok(Warned { value: none, at });
    };
    if let Some(file) = files::index::get_index(work, indices, FileNumber(number)) {
        return Ok(Warned { value: file, at });
    }
    let kind = WarningKind::MissingInlineCallFile.number();
    let warned = warn_about(main, warnings, entry, kind, number, at)?;
    Ok(Warned {
        value: none,
        at: warned,
    })
}

// The line of a call; one past 32 bits warns.
// Stays apart from `call_file`: one for both would take what is looked up, what stands for none and the warning's kind, and be no shorter.
pub fn call_line(
    main: &[u8],
    warnings: &mut [u8],
    entry: EntryPlace,
    at: usize,
) -> Result<Warned<u32>, Refusal>
    requires accepted { Accepted main.now }
    requires entry_known { EntryKnown main.now entry.unit entry.place }
    ensures { LineCalled main.now entry.unit entry.place at warnings.old warnings.new (status_of result)
        (value_or (record { value = 0; at = at }) result) }
{
    let Some(number) = unsigned_attribute(main, entry, DW_AT_CALL_LINE) else {
        return Ok(Warned { value: 0, at });
    };
    if let Ok(line) = u32::try_from(number) {
        return Ok(Warned { value: line, at });
    }
    let kind = WarningKind::InvalidInlineCallLine.number();
    let warned = warn_about(main, warnings, entry, kind, number, at)?;
    Ok(Warned {
        value: 0,
        at: warned,
    })
}
