// What a caller asks for, and how much it lends.
ghost use Rattle.std.specs.Prelude.{◌≤◌};
ghost use Rattle.tlv.specs.Limits.{program_limit, list_limit};

// The unit of an ordinal, or all units of the main input where there is none; the two switches; the number of the first file.
#[derive(Clone, Copy, Debug)]
pub struct Options {
    pub ordinal: Option<u64>,
    pub inlines: bool,
    pub call_sites: bool,
    pub first_file: u32,
}

// How many bytes the line program and the range lists have, where refusal 1 lets them pass.
#[derive(Clone, Copy, Debug)]
pub struct Sizes {
    pub program: usize,
    pub lists: usize,
    ghost within: { (program ≤ program_limit) × (lists ≤ list_limit) },
}
