// Holds what a pass or an import gave to a recorded answer.
use crate::cases::Answer;
use dwarf::model::{Imported, Lengths};
use std::fmt;
use std::io::{self, Read};
use streams::{FILLED, read_full};
use subprograms::model::Outputs;
use tlv::refusal::Refusal;

// In what a case differs from its recorded answer.
// Stays an enum: each case of it is a difference of its own, which is told by name.
#[derive(Clone, Copy, Debug)]
pub enum Difference {
    Refusal,
    Lengths,
    Statistics,
    Bytes,
    Past,
    Fill,
    Work,
    Pass,
    Cut,
}

impl fmt::Display for Difference {
    fn fmt<W: fmt::Write>(&self, f: &mut fmt::Formatter<W>) -> fmt::Result {
        match self {
            Difference::Refusal => write!(f, "refusal"),
            Difference::Lengths => write!(f, "lengths"),
            Difference::Statistics => write!(f, "statistics"),
            Difference::Bytes => write!(f, "bytes written"),
            Difference::Past => write!(f, "bytes past a length"),
            Difference::Fill => write!(f, "buffers after a refusal"),
            Difference::Work => write!(f, "work"),
            Difference::Pass => write!(f, "the pass that writes no buffer"),
            Difference::Cut => write!(f, "the files are cut off or too large"),
        }
    }
}

// Stays a function: std's `all` under a name, which each test of a buffer uses.
fn holds_only(buffer: &[u8], b: u8) -> bool {
    buffer.iter().all(|&x| x == b)
}

// The answer that is recorded of a case, the file of answers, in which its bytes come next, and room for as many of them as a buffer has.
#[derive(Debug, Drop)]
pub struct Recorded<'a, R> {
    pub answer: Answer,
    pub answers: &'a mut R,
    pub room: &'a mut [u8],
}

impl<'a, R: Read> Recorded<'a, R> {
    // Whether a buffer begins with the n bytes that come next, and is as it was behind them.
    // Stays an Option, as all that judge: inside io::Result `?` hands on the outer failure alone, so a Result would be tested case by case too.
    fn judge_buffer(&mut self, buffer: &[u8], n: usize) -> io::Result<Option<Difference>> {
        if self.room.len() < n {
            return Ok(Some(Difference::Cut));
        }
        if buffer.len() < n {
            return Ok(Some(Difference::Lengths));
        }
        let bytes = &mut self.room[..n];
        if read_full(self.answers, bytes)? < n {
            return Ok(Some(Difference::Cut));
        }
        let Some(past) = buffer.strip_prefix(bytes) else {
            return Ok(Some(Difference::Bytes));
        };
        if !holds_only(past, FILLED) {
            return Ok(Some(Difference::Past));
        }
        Ok(None)
    }

    // The three buffers of a finished import.
    fn judge_buffers(&mut self, outputs: &Outputs) -> io::Result<Option<Difference>> {
        let written = self.answer.written;
        if let Some(what) = self.judge_buffer(outputs.records, written.records)? {
            return Ok(Some(what));
        }
        if let Some(what) = self.judge_buffer(outputs.files, written.files)? {
            return Ok(Some(what));
        }
        self.judge_buffer(outputs.warnings, written.warnings)
    }

    fn judge_finished(
        &mut self,
        given: Imported,
        outputs: &Outputs,
    ) -> io::Result<Option<Difference>> {
        if self.answer.refusal != 0 {
            return Ok(Some(Difference::Refusal));
        }
        if given.lengths != self.answer.written {
            return Ok(Some(Difference::Lengths));
        }
        if given.stats != self.answer.stats {
            return Ok(Some(Difference::Statistics));
        }
        self.judge_buffers(outputs)
    }

    // What an import gave; none where all is as recorded.
    pub fn judge(
        &mut self,
        given: Result<Imported, Refusal>,
        work: &[u8],
        outputs: &Outputs,
    ) -> io::Result<Option<Difference>> {
        if !holds_only(work, 0) {
            return Ok(Some(Difference::Work));
        }
        match given {
            Err(refusal) => Ok(judge_refused(self.answer, refusal, outputs)),
            Ok(finished) => self.judge_finished(finished, outputs),
        }
    }
}

fn judge_refused(answer: Answer, refusal: Refusal, outputs: &Outputs) -> Option<Difference> {
    if answer.refusal != refusal.number() {
        return Some(Difference::Refusal);
    }
    if holds_only(outputs.records, 0)
        && holds_only(outputs.files, 0)
        && holds_only(outputs.warnings, 0)
    {
        return None;
    }
    Some(Difference::Fill)
}

// Whether the lengths that the pass says are those of a recorded answer; where a buffer was too short, whether it says so of that one first.
fn are_lengths(answer: Answer, said: Lengths, lent: Lengths) -> bool {
    if answer.refusal == 0 {
        return said == answer.written;
    }
    match said.short_in(lent) {
        Some(refusal) => answer.refusal == refusal.number(),
        None => false,
    }
}

// Whether it is the refusal of an output buffer's length.
fn is_short(refusal: Refusal) -> bool {
    matches!(
        refusal,
        Refusal::ShortRecords | Refusal::ShortFiles | Refusal::ShortWarnings
    )
}

// Whether the pass says what is recorded, of an import into buffers of these lengths: the refusal where it is no buffer's, else the lengths and statistics.
pub fn judge_pass(
    answer: Answer,
    given: Result<Imported, Refusal>,
    work: &[u8],
    lent: Lengths,
) -> bool {
    if !holds_only(work, 0) {
        return false;
    }
    match given {
        Err(refusal) => answer.refusal == refusal.number() && !is_short(refusal),
        Ok(said) => {
            (answer.refusal != 0 || said.stats == answer.stats)
                && are_lengths(answer, said.lengths, lent)
        }
    }
}
