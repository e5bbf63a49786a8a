// How many bytes an address of a unit takes: the sizes that an import knows.
ghost use Rattle.std.specs.Prelude.{◌≡◌, ◌⊎◌, ◌+◌, ◌≤◌, length};
ghost use Rattle.tlv.specs.Bytes.{le_at};
ghost use Rattle.rnglists.specs.RangeLists.{largest};
ghost use Rattle.rnglists.specs.Sizes.{width_of};

use tlv::bytes::Number;

#[derive(Clone, Copy, Debug)]
pub enum AddressSize {
    Four,
    Eight,
}

impl AddressSize {
    // The size of so many bytes.
    // Stays no From or TryFrom: it takes 4 and 8 alone, which its clause says; a From would take any byte, and a TryFrom could fail.
    pub fn of(width: u8) -> AddressSize
        requires { (width ≡ 4) ⊎ (width ≡ 8) }
        ensures { width_of result ≡ width }
    {
        if width == 4 {
            return AddressSize::Four;
        }
        AddressSize::Eight
    }

    pub fn width(self) -> usize
        ensures { result ≡ width_of self }
    {
        match self {
            AddressSize::Four => 4,
            AddressSize::Eight => 8,
        }
    }

    // The largest address: all ones.
    pub fn largest(self) -> u64
        ensures { result ≡ largest (width_of self) }
    {
        match self {
            AddressSize::Four => u64::from(u32::MAX),
            AddressSize::Eight => u64::MAX,
        }
    }

    // The address at a place.
    pub fn read(self, s: &[u8], p: usize) -> u64
        requires { p + width_of self ≤ length s.now }
        ensures { result ≡ le_at (width_of self) s.now p }
    {
        match self {
            AddressSize::Four => u64::from(u32::read(s, p)),
            AddressSize::Eight => u64::read(s, p),
        }
    }
}
