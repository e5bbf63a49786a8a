// Runs a case: the pass that writes no buffer, then the import.
use crate::cases::Case;
use crate::judge::{Difference, Recorded, judge_pass};
use dwarf::import::{import_dwarf, import_unit, measure_dwarf, measure_unit};
use dwarf::lent::Inputs;
use dwarf::model::{Imported, Lengths};
use std::io::{self, Read};
use streams::FILLED;
use subprograms::model::Outputs;
use tlv::refusal::Refusal;

// The pass of a case, with work filled.
// Stays beside import_case: the pass lends no output buffer.
fn measure_case(case: Case, inputs: Inputs, work: &mut [u8]) -> Result<Imported, Refusal> {
    work.fill(FILLED);
    let asked = case.options;
    let (inlines, call_sites, first_file) = (asked.inlines, asked.call_sites, asked.first_file);
    match asked.ordinal {
        None => measure_dwarf(inputs, inlines, call_sites, first_file, work),
        Some(ordinal) => measure_unit(inputs, ordinal, inlines, call_sites, first_file, work),
    }
}

// The import of a case, with the buffers filled.
// Stays beside measure_case: the import lends the output buffers too.
fn import_case(
    case: Case,
    inputs: Inputs,
    work: &mut [u8],
    outputs: &mut Outputs,
) -> Result<Imported, Refusal> {
    work.fill(FILLED);
    outputs.fill(FILLED);
    let asked = case.options;
    let (inlines, call_sites, first_file) = (asked.inlines, asked.call_sites, asked.first_file);
    match asked.ordinal {
        None => import_dwarf(inputs, inlines, call_sites, first_file, work, outputs),
        Some(ordinal) => import_unit(
            inputs, ordinal, inlines, call_sites, first_file, work, outputs,
        ),
    }
}

// A case over its inputs and over buffers of its lengths: the pass, then the import.
// Stays with what is lent apart, as its neighbours: the pass is lent no outputs, and judge_pass and judge no inputs.
fn run_both<R: Read>(
    recorded: &mut Recorded<R>,
    case: Case,
    inputs: Inputs,
    work: &mut [u8],
    outputs: &mut Outputs,
) -> io::Result<Option<Difference>> {
    let said = measure_case(case, inputs, work);
    if !judge_pass(recorded.answer, said, work, Lengths::of(outputs)) {
        return Ok(Some(Difference::Pass));
    }
    let given = import_case(case, inputs, work, outputs);
    recorded.judge(given, work, outputs)
}

// The inputs of a case, one behind the other; none where they are cut off. A case without sections has an empty list section and address table.
fn inputs_of<'a>(case: Case, bytes: &'a [u8]) -> Option<Inputs<'a>> {
    let (main, rest) = bytes.split_at_checked(case.main as usize)?;
    let (supplementary, rest) = rest.split_at_checked(case.supplementary as usize)?;
    let (program, rest) = rest.split_at_checked(case.program as usize)?;
    let Some(sections) = case.sections else {
        return Some(Inputs::new(main, supplementary, program, b"", b""));
    };
    let (lists, rest) = rest.split_at_checked(sections.lists as usize)?;
    let (addresses, _) = rest.split_at_checked(sections.addresses as usize)?;
    Some(Inputs::new(main, supplementary, program, lists, addresses))
}

// A case whose inputs were read, over those and over buffers of its lengths.
pub fn run_case<R: Read>(
    recorded: &mut Recorded<R>,
    case: Case,
    bytes: &[u8],
    work: &mut [u8],
    outputs: &mut Outputs,
) -> io::Result<Option<Difference>> {
    let Some(inputs) = inputs_of(case, bytes) else {
        return Ok(Some(Difference::Cut));
    };
    run_both(recorded, case, inputs, work, outputs)
}
