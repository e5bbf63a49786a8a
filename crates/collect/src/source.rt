// Where the rows of a unit come from, its row fields or its line program, and how many there are.
ghost use Rattle.std.specs.Prelude.{◌+◌, ◌*◌, ◌≤◌, length};
ghost use Rattle.tlv.specs.Checked.{Placed};
ghost use Rattle.tlv.specs.Grammar.{encoding_field_size};
ghost use Rattle.rows.specs.Sizes.{row_room};
ghost use Rattle.collect.specs.Sources.{EncodingRead, source_rows, most_rows, SourceFound, GathersUnit, FindsFault};

use crate::header::HeaderPayload;
use crate::passes::{CountedRows, count_rows};
use crate::program::gather_program_rows;
use crate::unit_rows::UnitRows;
use machine::registers::Encoding;
use rows::line::LINE_SIZE;
use tlv::bytes::Number;
use tlv::refusal::Refusal;
use tlv::shapes::{ENCODING_FLAG, ENCODING_LINE_BASE, ENCODING_LINE_RANGE, ENCODING_OPERATIONS};
use tlv::tags::ENCODING_TAG;

// A unit's line program with its encoding and its opcode lengths, as the unit's fields give them: the row machine may refuse the encoding.
// Stays beside machine's LineProgram, whose line range is not 0: a unit's fields may say 0, until LineProgram::new refuses it.
#[derive(Clone, Copy, Debug)]
pub struct UnitProgram<'a> {
    pub program: &'a [u8],
    pub lengths: &'a [u8],
    pub encoding: Encoding,
}

// How many rows and sequences there are, and where the rows are.
#[derive(Clone, Copy, Debug)]
pub struct GatheredRows {
    pub counted: CountedRows,
    pub rows: UnitRows,
}

// The encoding whose payload starts at a place, with an opcode base.
fn read_encoding(main: &[u8], start: usize, opcode_base: u8) -> Encoding
    requires { start + encoding_field_size ≤ length main.now }
    ensures { EncodingRead main.now start opcode_base result }
{
    Encoding {
        minimum_instruction_length: u8::read(main, start),
        maximum_operations: u8::read(main, start + ENCODING_OPERATIONS),
        default_is_stmt: u8::read(main, start + ENCODING_FLAG) == 1,
        line_base: u8::read(main, start + ENCODING_LINE_BASE),
        line_range: u8::read(main, start + ENCODING_LINE_RANGE),
        opcode_base,
    }
}

// The program that gives the rows of the unit whose fields follow place p, with its header's payload; none where the row fields give them.
pub fn row_source<'a>(
    main: &[u8],
    p: usize,
    header: HeaderPayload<'a>,
    program: &'a [u8],
) -> Option<UnitProgram<'a>>
    requires { Placed main.now p }
    ensures { SourceFound main.now p header.entry.bytes.now program.now result }
{
    let field = access::access::next_before_rows(main, p, ENCODING_TAG)?;
    Some(UnitProgram {
        program,
        lengths: header.lengths(),
        encoding: read_encoding(main, field.start, header.opcode_base()),
    })
}

// Counts the rows of a unit whose lines go to a place. A program's rows go to a table above all the lines and sequences that they can become.
// Stays a clause, as in row_fault and collect_rows: it bounds the lent work slice, which is written, so no value holds the fact.
pub fn gather_unit_rows(
    main: &[u8],
    p: usize,
    source: Option<UnitProgram>,
    work: &mut [u8],
    lines: usize,
) -> Result<GatheredRows, Refusal>
    requires placed { Placed main.now p }
    requires rows_fit { lines + row_room * most_rows main.now p source ≤ length work.old }
    ensures { GathersUnit (source_rows main.now p source.entry) main.now work.old
        work.new lines (most_rows main.now p source.entry) result }
{
    let Some(program) = source else {
        return Ok(GatheredRows {
            counted: count_rows(main, p)?,
            rows: UnitRows::Fields { place: p },
        });
    };
    let gathered = gather_program_rows(program, work, lines + program.program.len() * LINE_SIZE)?;
    Ok(GatheredRows {
        counted: gathered.counted,
        rows: UnitRows::Table(gathered.rows),
    })
}

// The fault of a unit's rows, where they have one: it comes before any later one. The room from a place on is free.
pub fn row_fault(
    main: &[u8],
    p: usize,
    source: Option<UnitProgram>,
    work: &mut [u8],
    free: usize,
) -> Option<Refusal>
    requires placed { Placed main.now p }
    requires rows_fit { free + row_room * most_rows main.now p source ≤ length work.old }
    ensures { FindsFault (source_rows main.now p source.entry) work.old work.new free
        (most_rows main.now p source.entry) result }
{
    gather_unit_rows(main, p, source, work, free).err()
}
