// The import of one unit of a main input (the Rust's import_unit) and of all its units (its import_dwarf), with a supplementary input and a line program; and
// the pass that says how long their output buffers must be. No content and no length is ruled out. After every call work holds only 0, and after a refusal
// so do the three output buffers.
ghost use Rattle.std.specs.Prelude.{◌≡◌, ◌<◌, ◌^◌};
ghost use Rattle.subprograms.specs.Outputs.{SameOutputs};
ghost use Rattle.dwarf.specs.Lent.{asked_of, unseen_of, given_of, measured_of};
ghost use Rattle.dwarf.specs.Answers.{ImportsBy, ImportsUnit, ImportsDwarf, MeasuresBy, MeasuresUnit, MeasuresDwarf};

use crate::lent::Inputs;
use crate::model::{Imported, Lengths};
use crate::run::{Ran, fitting, run_cleared};
use checks::options::Options;
use subprograms::model::Outputs;
use tlv::refusal::Refusal;

// What a run answers that no output buffer's length refuses: an import's whose buffers suffice, or the pass's.
impl From<Ran> for Imported {
    ghost from_gives = { λ ran r. r ≡ record { lengths = ran.lengths; stats = ran.stats } };

    fn from(ran: Ran) -> Imported
        ensures { result ≡ record { lengths = ran.lengths; stats = ran.stats } }
    {
        Imported {
            lengths: ran.lengths,
            stats: ran.stats,
        }
    }
}

// The import of what is asked for.
// Stays apart from measure_by: they share run_cleared, and what differs is what becomes of the buffers and of refusals 16 to 18.
// Stays with inputs and options apart, as all that run it: of the two, index_inputs takes the first alone, chosen_units the second.
fn import_by(
    inputs: Inputs,
    options: Options,
    work: &mut [u8],
    outputs: &mut Outputs,
) -> Result<Imported, Refusal>
    requires { options.first_file < 2 ^ 32 }
    ensures is { ImportsBy options.ordinal (asked_of inputs.entry options work.old outputs.old) work.new
        outputs.new.records.now outputs.new.files.now outputs.new.warnings.now result }
    ensures same { SameOutputs outputs.old outputs.new }
{
    let ran = run_cleared(inputs, options, work, outputs);
    // Stays a match: a refusal fills the buffers first, and of what the closure of a `map_err` writes nothing would be known.
    match fitting(ran, Lengths::of(outputs)) {
        Ok(ran) => Ok(Imported::from(ran)),
        Err(refusal) => {
            outputs.fill(0);
            Err(refusal)
        }
    }
}

// Imports the unit of an ordinal; an empty main input with ordinal 0 is finished with nothing in it.
// Stays with what is asked apart, as its twins: C's functions hand it on so, and with `Options` this and import_dwarf would be one function of two names.
pub fn import_unit(
    inputs: Inputs,
    ordinal: u64,
    inlines: bool,
    call_sites: bool,
    first_file: u32,
    work: &mut [u8],
    outputs: &mut Outputs,
) -> Result<Imported, Refusal>
    ensures is { let i = given_of inputs.entry ordinal inlines call_sites first_file work.old outputs.old in
        ImportsUnit i work.new outputs.new.records.now outputs.new.files.now outputs.new.warnings.now result }
    ensures same { SameOutputs outputs.old outputs.new }
{
    let options = Options {
        ordinal: Some(ordinal),
        inlines,
        call_sites,
        first_file,
    };
    import_by(inputs, options, work, outputs)
}

// Imports all units in order, each from the file table that the one before it left; an empty main input is finished with nothing in it.
// Stays with what is asked apart: import_unit says why.
pub fn import_dwarf(
    inputs: Inputs,
    inlines: bool,
    call_sites: bool,
    first_file: u32,
    work: &mut [u8],
    outputs: &mut Outputs,
) -> Result<Imported, Refusal>
    ensures is { let i = given_of inputs.entry 0 inlines call_sites first_file work.old outputs.old in
        ImportsDwarf i work.new outputs.new.records.now outputs.new.files.now outputs.new.warnings.now result }
    ensures same { SameOutputs outputs.old outputs.new }
{
    let options = Options {
        ordinal: None,
        inlines,
        call_sites,
        first_file,
    };
    import_by(inputs, options, work, outputs)
}

// How long the output buffers of an import must be, and its statistics. The import is run on three empty buffers: what is written is cut off, and counted on.
fn measure_by(inputs: Inputs, options: Options, work: &mut [u8]) -> Result<Imported, Refusal>
    ensures { MeasuresBy options.ordinal (unseen_of inputs.entry options work.old) work.new result }
{
    let mut unseen = Outputs {
        records: &mut [],
        files: &mut [],
        warnings: &mut [],
    };
    let ran = run_cleared(inputs, options, work, &mut unseen)?;
    if ran.past {
        return Err(Refusal::ShortRecords);
    }
    Ok(Imported::from(ran))
}

// The same of the import of a unit.
// Stays with what is asked apart: import_unit says why.
pub fn measure_unit(
    inputs: Inputs,
    ordinal: u64,
    inlines: bool,
    call_sites: bool,
    first_file: u32,
    work: &mut [u8],
) -> Result<Imported, Refusal>
    ensures { let i = measured_of inputs.entry ordinal inlines call_sites first_file work.old in
        MeasuresUnit i work.new result }
{
    let options = Options {
        ordinal: Some(ordinal),
        inlines,
        call_sites,
        first_file,
    };
    measure_by(inputs, options, work)
}

// The same of the import of all units.
// Stays with what is asked apart: import_unit says why.
pub fn measure_dwarf(
    inputs: Inputs,
    inlines: bool,
    call_sites: bool,
    first_file: u32,
    work: &mut [u8],
) -> Result<Imported, Refusal>
    ensures { let i = measured_of inputs.entry 0 inlines call_sites first_file work.old in
        MeasuresDwarf i work.new result }
{
    let options = Options {
        ordinal: None,
        inlines,
        call_sites,
        first_file,
    };
    measure_by(inputs, options, work)
}
