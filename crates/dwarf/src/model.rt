// What an import answers.
ghost use Rattle.std.specs.Prelude.{◌≡◌};
ghost use Rattle.dwarf.specs.Sizes.{lengths_of, short_in};

use subprograms::model::{ConversionStats, Outputs};
use tlv::refusal::Refusal;

// So many bytes of each of the three output buffers.
#[derive(Clone, Copy, Debug, PartialEq, Eq)]
pub struct Lengths {
    pub records: usize,
    pub files: usize,
    pub warnings: usize,
}

impl Lengths {
    // How long the three buffers are.
    pub fn of(outputs: &Outputs) -> Lengths
        ensures { result ≡ lengths_of outputs.now }
    {
        Lengths {
            records: outputs.records.len(),
            files: outputs.files.len(),
            warnings: outputs.warnings.len(),
        }
    }

    // Refusals 16 to 18 of buffers that are so long: the lowest of one that is shorter than what was to be written to it.
    // Stays an Option: replay compares the refusal, and only `fitting` hands it on.
    pub fn short_in(self, lent: Lengths) -> Option<Refusal>
        ensures { result ≡ short_in self lent }
    {
        if lent.records < self.records {
            return Some(Refusal::ShortRecords);
        }
        if lent.files < self.files {
            return Some(Refusal::ShortFiles);
        }
        if lent.warnings < self.warnings {
            return Some(Refusal::ShortWarnings);
        }
        None
    }
}

// What a finished import answers: the lengths of what was written to the output buffers, and the statistics.
#[derive(Clone, Copy, Debug)]
pub struct Imported {
    pub lengths: Lengths,
    pub stats: ConversionStats,
}
