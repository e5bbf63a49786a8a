// The operands that the row machine reads and the sequence scan only passes over: a signed number, an address.
ghost use Rattle.std.specs.Prelude.{◌≡◌, ◌+◌, ◌-◌, ◌*◌, ◌%◌, ◌^◌, ◌<◌, ◌≤◌, length, take, drop, if◌then◌else◌, nat_le};
ghost use Rattle.tlv.specs.Bytes.{le};
ghost use Rattle.line_program.specs.Scan.{OffsetIs};
ghost use Rattle.machine.specs.Steps.{ReadsSigned};

use line_program::operand::Operand;
use tlv::refusal::Refusal;

// The signed number, modulo 2^64, whose last byte adds to `value` by the scale.
fn signed_value(value: u64, scale: u64, byte: u64) -> u64
    requires { (byte < 128) × (value < scale) × (scale * 128 ≤ 9223372036854775808) }
    ensures { result ≡ (value + scale * byte + (2 ^ 70 - scale * (if nat_le 64 byte then 128 else 0))) % 2 ^ 64 }
{
    let low = value + byte * scale;
    if byte < 64 {
        return low;
    }
    u64::MAX - (scale * 128 - low - 1)
}

// The signed operand at a place, modulo 2^64.
// Stays beside line_program's read_line_uleb: the tenth byte and the last one's value differ, so one for both would take a trait of two with laws.
pub fn read_line_sleb(program: &[u8], at: usize) -> Result<Operand, Refusal>
    ensures { ReadsSigned program.now at result }
{
    let mut value: u64 = 0;
    let mut scale: u64 = 1;
    let mut left: u64 = 9;
    let mut p = at;
    // Stays a loop: a byte says whether another follows, and the tenth has a rule of its own.
    loop {
        if program.len() <= p {
            return Err(Refusal::Cut);
        }
        let byte = u64::from(program[p]);
        p += 1;
        if left == 0 {
            return match byte {
                0 => Ok(Operand { value, next: p }),
                127 => Ok(Operand {
                    value: value + scale,
                    next: p,
                }),
                128 | 255 => Err(Refusal::Overlong),
                _ => Err(Refusal::Overflowing),
            };
        }
        if byte < 128 {
            return Ok(Operand {
                value: signed_value(value, scale, byte),
                next: p,
            });
        }
        value += byte % 128 * scale;
        scale *= 128;
        left -= 1;
    }
}

// The number of some bytes, lowest first; none past the last number.
pub fn address_operand(bytes: &[u8]) -> Option<u64>
    ensures { OffsetIs result (le bytes.now) }
{
    let mut value: u64 = 0;
    for byte in bytes.iter().rev() {
        value = value.checked_mul(256)? + u64::from(*byte);
    }
    Some(value)
}
