// Calls of a unit's rows.
ghost use Rattle.std.specs.Prelude.{◌+◌, ◌*◌, length};
ghost use Rattle.tlv.specs.Checked.{Accepts};
ghost use Rattle.collect.specs.Collects.{UnitIn};
ghost use Rattle.line_answers.specs.Answers.{Room, HasRoom, CollectedRows};

use access::access::unit_by_ordinal;
use collect::collect::{CollectedLines, LineUnit, collect_lines};
use files::sheets::Sheets;
use files::store::{FILE_RECORD, JOINED_LIMIT, StoredFiles};
use rows::line::ROW_ROOM;
use tlv::grammar::FIELD_LIMIT;
use tlv::refusal::Refusal;

// The room for a byte of a program that gives rows: at most a row, and an offset of eight bytes in three.
const BYTE_ROOM: usize = ROW_ROOM + 3;

// Above what a field takes: a file's record, a row's room, a directory's span or a place in the unit's map.
const FIELD_ROOM: usize = 108;

// Above what is taken where there is no field: one file's record, one place in the unit's map, a function's row.
const HEAD_ROOM: usize = 82;

// Collects the lines of a sheet's first unit, behind the file table; refused where the sheet is not accepted, has no unit, or the work has no room.
// Stays with what is lent apart, as the two below: collect_lines takes work and trays so; main and program are first together in the LineUnit made there.
pub fn collect_case<'a>(
    main: &'a [u8],
    program: &'a [u8],
    work: &mut [u8],
    files: &mut [u8],
    warnings: &mut [u8],
) -> Result<CollectedLines, Refusal>
    ensures { CollectedRows work.new result }
{
    let n = tlv::grammar::check_input(main, program.len())?;
    collect_accepted(main, program, n as usize, work, files, warnings)
}

// The same for an accepted sheet of n fields.
fn collect_accepted<'a>(
    main: &'a [u8],
    program: &'a [u8],
    n: usize,
    work: &mut [u8],
    files: &mut [u8],
    warnings: &mut [u8],
) -> Result<CollectedLines, Refusal>
    requires { Accepts main.now n }
    ensures { CollectedRows work.new result }
{
    let place = unit_by_ordinal(main, 0).ok_or(Refusal::NoUnit)?;
    if !has_room(main.len(), program.len(), n, work.len()) {
        return Err(Refusal::ShortWork);
    }
    collect_placed(main, program, n, place, work, files, warnings)
}

// The same for a unit at a place.
fn collect_placed<'a>(
    main: &'a [u8],
    program: &'a [u8],
    n: usize,
    place: usize,
    work: &mut [u8],
    files: &mut [u8],
    warnings: &mut [u8],
) -> Result<CollectedLines, Refusal>
    requires accepts { Accepts main.now n }
    requires unit_in { UnitIn main.now place }
    requires room { Room (length main.now) (length program.now) n (length work.old) }
    ensures { CollectedRows work.new result }
{
    let room = n + 1;
    let free = room * FILE_RECORD + JOINED_LIMIT;
    let sheets = Sheets {
        main,
        supplementary: b"",
    };
    let table = StoredFiles::new(sheets, work, 0, room, 1, 0);
    let unit = LineUnit {
        sheets,
        program,
        place,
        free,
    };
    collect_lines(unit, work, files, warnings, table, 0)
}

// Whether a work slice has room for the file table and the lines of a sheet of n fields.
// Stays beside search_answers' has_room: each bounds the tables of its own program.
fn has_room(main: usize, program: usize, n: usize, work: usize) -> bool
    ensures { HasRoom main program n work result }
{
    if FIELD_LIMIT < n as u64 {
        return false;
    }
    let need = n * FIELD_ROOM + (JOINED_LIMIT + HEAD_ROOM);
    main <= u32::MAX as usize && need <= work && program <= (work - need) / BYTE_ROOM
}
