// Cases and answers as they stand in their files (oracle/README.md).

ghost use Rattle.std.specs.Prelude.{◌<◌};

use checks::options::Options;
use dwarf::model::Lengths;
use std::io;
use streams::read_full;
use subprograms::model::ConversionStats;
use tlv::bytes::Number;

// What stands of a case before its inputs, of an answer before its outputs, and of the list section and the address table before their bytes.
pub const CASE_HEAD: usize = 45;

pub const ANSWER_HEAD: usize = 57;

const SECTIONS_HEAD: usize = 8;

// The byte of a case's switches, and the number of each: its bit there.
// Stays four numbers: an enum would be cast to them, and that each is below 8 shown by cases.
const SWITCHES: usize = 20;

const INLINES: u32 = 0;

const CALL_SITES: u32 = 1;

const ALL: u32 = 2;

const SECTIONS: u32 = 3;

// The lengths of a list section and an address table.
#[derive(Clone, Copy, Debug)]
pub struct Sections {
    pub lists: u32,
    pub addresses: u32,
}

// What a case asks besides its inputs' bytes; the lengths are those of the inputs, of work and of the output buffers.
// Those of the list section and the address table stand behind the other inputs, where the case has both.
#[derive(Clone, Copy, Debug)]
pub struct Case {
    pub main: u32,
    pub supplementary: u32,
    pub program: u32,
    pub sections: Option<Sections>,
    pub options: Options,
    pub work: usize,
    pub lent: Lengths,
}

// A recorded answer, without the bytes that follow it; the refusal's number is 0 for none.
// Stays a number: it is a byte of the file of answers, and may be any.
#[derive(Clone, Copy, Debug)]
pub struct Answer {
    pub refusal: u8,
    pub written: Lengths,
    pub stats: ConversionStats,
}

// Whether a switch of a case is on; its number is how many stand below it in the byte of all.
fn is_on(head: &[u8; CASE_HEAD], switch: u32) -> bool
    requires { switch < 8 }
{
    head[SWITCHES] >> switch & 1 == 1
}

// A case, but for its sections, whose lengths are read later.
fn case_of(head: &[u8; CASE_HEAD]) -> Case {
    let ordinal = u64::read(head, 12);
    Case {
        main: u32::read(head, 0),
        supplementary: u32::read(head, 4),
        program: u32::read(head, 8),
        sections: None,
        options: Options {
            ordinal: (!is_on(head, ALL)).then_some(ordinal),
            inlines: is_on(head, INLINES),
            call_sites: is_on(head, CALL_SITES),
            first_file: u32::read(head, 21),
        },
        work: u64::read(head, 25) as usize,
        lent: Lengths {
            records: u32::read(head, 33) as usize,
            files: u32::read(head, 37) as usize,
            warnings: u32::read(head, 41) as usize,
        },
    }
}

pub fn answer_of(head: &[u8; ANSWER_HEAD]) -> Answer {
    Answer {
        refusal: head[0],
        written: Lengths {
            records: u64::read(head, 1) as usize,
            files: u64::read(head, 9) as usize,
            warnings: u64::read(head, 17) as usize,
        },
        stats: ConversionStats {
            functions: u64::read(head, 25),
            line_rows: u64::read(head, 33),
            inline_nodes: u64::read(head, 41),
            rejected_ranges: u64::read(head, 49),
        },
    }
}

// Reads the n bytes that come next to the front of a buffer, and lends what is behind them there; none where there are no n, or no room for them.
fn read_front<'a>(
    cases: &mut impl io::Read,
    buffer: &'a mut [u8],
    n: usize,
) -> io::Result<Option<&'a mut [u8]>> {
    let Some((front, behind)) = buffer.split_at_mut_checked(n) else {
        return Ok(None);
    };
    if read_full(cases, front)? < n {
        return Ok(None);
    }
    Ok(Some(behind))
}

// Reads the list section and the address table to the front of a buffer, and says their lengths; none where they are cut off or too large.
fn read_sections(cases: &mut impl io::Read, buffer: &mut [u8]) -> io::Result<Option<Sections>> {
    let mut head = [0u8; SECTIONS_HEAD];
    if read_full(cases, &mut head)? < SECTIONS_HEAD {
        return Ok(None);
    }
    let sections = Sections {
        lists: u32::read(&head, 0),
        addresses: u32::read(&head, 4),
    };
    let n = sections.lists as usize + sections.addresses as usize;
    Ok(read_front(cases, buffer, n)?.map(|_| sections))
}

// Reads the inputs of a case, one behind the other from the front; none where they are cut off or too large.
pub fn read_case(
    cases: &mut impl io::Read,
    head: &[u8; CASE_HEAD],
    inputs: &mut [u8],
) -> io::Result<Option<Case>> {
    let case = case_of(head);
    let n = case.main as usize + case.supplementary as usize + case.program as usize;
    let Some(behind) = read_front(cases, inputs, n)? else {
        return Ok(None);
    };
    if !is_on(head, SECTIONS) {
        return Ok(Some(case));
    }
    let sections = read_sections(cases, behind)?;
    Ok(sections.map(|sections| Case {
        sections: Some(sections),
        ..case
    }))
}
