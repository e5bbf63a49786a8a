// A unit's part of the lent line program (document 02, E11).
ghost use Rattle.std.specs.Prelude.{◌≡◌};
ghost use Rattle.tlv.specs.Checked.{Accepted};
ghost use Rattle.tlv.specs.Model.{program_of};
ghost use Rattle.access.specs.Places.{unit_here};
ghost use Rattle.collect.specs.Collects.{UnitIn};
ghost use Rattle.dwarf.specs.Part.{PartOf};

use access::access::next_before_rows;
use tlv::bytes::Number;
use tlv::shapes::PART_LENGTH;
use tlv::tags::{PART_TAG, UNIT_WHOLE};

// Where a part begins and ends.
#[derive(Clone, Copy, Debug)]
pub struct Part {
    pub start: usize,
    pub end: usize,
}

// Where the unit's part of any program of `size` bytes stands, from a place on so many bytes, as far as the program goes: all of it where the unit names none.
pub fn part_range(main: &[u8], place: usize, size: usize) -> Part
    requires accepted { Accepted main.now }
    requires unit_in { UnitIn main.now place }
    ensures { PartOf main.now place size result }
{
    let Some(field) = next_before_rows(main, place + UNIT_WHOLE, PART_TAG) else {
        return Part {
            start: 0,
            end: size,
        };
    };
    let most = size as u64;
    let start = u64::read(main, field.start);
    let end = start.saturating_add(u64::read(main, field.start + PART_LENGTH));
    Part {
        start: start.min(most) as usize,
        end: end.min(most) as usize,
    }
}

// The unit's part of a program.
pub fn program_part<'a>(main: &[u8], place: usize, program: &'a [u8]) -> &'a [u8]
    requires accepted { Accepted main.now }
    requires unit_in { UnitIn main.now place }
    ensures { result.now ≡ program_of (unit_here main.now place) program.now }
{
    let part = part_range(main, place, program.len());
    &program[part.start..part.end]
}
