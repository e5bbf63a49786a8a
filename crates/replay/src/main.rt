// Runs recorded cases through the import and holds every answer to the recorded one: refusal, lengths, statistics, the bytes written, those past
// each length, the buffers filled with 0 after a refusal, work all 0. Before each import the pass that writes no buffer is held to the same answer.
// Names the first case that differs. oracle/README.md says how both files stand.
#![tactic(auto)]

ghost use Rattle.std.specs.Prelude.{◌≡◌, length};

use cases::{ANSWER_HEAD, Answer, CASE_HEAD, Case, answer_of, read_case};
use judge::{Difference, Recorded};
use runs::run_case;
use std::fs;
use std::io::{self, Read, Write};
use std::rt::Files;
use streams::read_full;
use subprograms::model::Outputs;

mod cases;
mod judge;
mod runs;

// The most bytes of a case's inputs, and of each output.
const LARGE: usize = 65536;

// The most bytes of work.
const WORK_SIZE: usize = 98304;

// The most cases of a file.
const CASE_LIMIT: u64 = 1000000;

// What comes next in a file of cases: a case with its answer, the end, or one that is cut off or has no room.
// Stays an enum and no Option: the end and a file that is cut off are told apart.
#[derive(Clone, Copy, Debug)]
enum Next {
    Case(Case, Answer),
    End,
    Cut,
}

// The next case of a file of cases, with its answer from a file of answers.
fn next_case(
    cases: &mut impl Read,
    answers: &mut impl Read,
    inputs: &mut [u8],
) -> io::Result<Next> {
    let mut head = [0u8; CASE_HEAD];
    if read_full(cases, &mut head)? < CASE_HEAD {
        return Ok(Next::End);
    }
    let mut answer = [0u8; ANSWER_HEAD];
    if read_full(answers, &mut answer)? < ANSWER_HEAD {
        return Ok(Next::Cut);
    }
    let Some(case) = read_case(cases, &head, inputs)? else {
        return Ok(Next::Cut);
    };
    Ok(Next::Case(case, answer_of(&answer)))
}

// Zeros for work. Its own function: a caller's proof sees only the length.
fn work_buffer() -> [u8; WORK_SIZE]
    ensures { WORK_SIZE ≡ length result }
{
    [0; WORK_SIZE]
}

fn write_difference(out: &mut impl Write, number: u64, what: Difference) -> io::Result<()> {
    writeln!(out, " case {number} differs: {what}")
}

// The cases of two open files, each over buffers of its lengths: an output buffer is no longer than ours, which hold every recorded output.
fn replay_cases(
    out: &mut impl Write,
    cases: &mut impl Read,
    answers: &mut impl Read,
) -> io::Result<()> {
    let mut inputs = [0u8; LARGE];
    let mut expected = [0u8; LARGE];
    let mut work = work_buffer();
    let mut records = [0u8; LARGE];
    let mut files = [0u8; LARGE];
    let mut warnings = [0u8; LARGE];
    // Stays a `for` with a `return`: reading and writing may fail, which `?` hands on.
    for number in 0..CASE_LIMIT {
        let (case, answer) = match next_case(cases, answers, &mut inputs)? {
            Next::Case(case, answer) => (case, answer),
            Next::End => return writeln!(out, " {number} cases, all as recorded"),
            Next::Cut => return write_difference(out, number, Difference::Cut),
        };
        if WORK_SIZE < case.work {
            return write_difference(out, number, Difference::Cut);
        }
        let mut outputs = Outputs {
            records: &mut records[..case.lent.records.min(LARGE)],
            files: &mut files[..case.lent.files.min(LARGE)],
            warnings: &mut warnings[..case.lent.warnings.min(LARGE)],
        };
        let mut recorded = Recorded {
            answer,
            answers: &mut *answers,
            room: &mut expected,
        };
        let work = &mut work[..case.work];
        if let Some(what) = run_case(&mut recorded, case, &inputs, work, &mut outputs)? {
            return write_difference(out, number, what);
        }
    }
    Ok(())
}

fn replay(
    rt: &impl Files,
    out: &mut impl Write,
    name: &str,
    cases: &str,
    answers: &str,
) -> io::Result<()> {
    write!(out, "{name}")?;
    let (Ok(mut cases), Ok(mut answers)) = (fs::open(rt, cases), fs::open(rt, answers)) else {
        return writeln!(out, ": a file is missing");
    };
    replay_cases(out, &mut cases, &mut answers)
}

fn replay_all(rt: &impl Files, out: &mut impl Write) -> io::Result<()> {
    replay(rt, out, "document", "document.cases", "document.answers")?;
    replay(rt, out, "generated", "generated.cases", "generated.answers")?;
    replay(rt, out, "units", "units.cases", "units.answers")?;
    replay(rt, out, "wholes", "wholes.cases", "wholes.answers")?;
    replay(rt, out, "objects", "objects.cases", "objects.answers")?;
    replay(rt, out, "lists", "lists.cases", "lists.answers")
}

fn main(rt: HostRuntime) -> io::Result<()> {
    replay_all(&rt, &mut io::writer(&rt))
}
