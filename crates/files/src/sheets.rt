// Both sheets of an import.
ghost use Rattle.std.specs.Prelude.{◌≡◌};
ghost use Rattle.files.specs.Pieces.{source_in};
ghost use Rattle.tlv.specs.Bytes.{AreBytes};

use tlv::model::DebugSource;

// The sheets of the main and of the supplementary debug data.
#[derive(Clone, Copy, Debug)]
pub struct Sheets<'a> {
    pub main: &'a [u8],
    pub supplementary: &'a [u8],
    ghost bytes: { AreBytes main.now × AreBytes supplementary.now },
}

impl<'a> Sheets<'a> {
    // The sheet of a source.
    // Stays beside references' Tables::index: a pair for both by source would have no ghost field, which these sheets have.
    pub fn of(self, source: DebugSource) -> &'a [u8]
        ensures { result.now ≡ source_in self.entry.main.now self.entry.supplementary.now source }
    {
        // Stays a match: a sheet is picked by its source here, once for all crates.
        match source {
            DebugSource::Main => self.main,
            DebugSource::Supplementary => self.supplementary,
        }
    }
}
