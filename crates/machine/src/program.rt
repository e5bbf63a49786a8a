// A line program that can run.
ghost use Rattle.std.specs.Prelude.{◌<◌};

use crate::registers::Encoding;

// The bytes of a line program, its header's opcode lengths, and its encoding, whose line range is not 0: a program of range 0 is refused before it runs.
#[derive(Clone, Copy, Debug)]
pub struct LineProgram<'a> {
    pub program: &'a [u8],
    pub lengths: &'a [u8],
    pub encoding: Encoding,
    ghost ranged: { 0 < encoding.line_range },
}
