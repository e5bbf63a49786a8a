// The form of a list of symbols (26).
ghost use Rattle.std.specs.Prelude.{◌≡◌};
ghost use Rattle.symbols.specs.Symbols.{symbol_formed};
ghost use Rattle.symbols.specs.Answers.{SymbolsChecked};

use crate::model::{SYMBOL_SIZE, SYMBOL_TAG};
use tlv::bytes::Number;
use tlv::fields::next_field;

// Whether a field is a symbol that ends within 64 bits.
fn symbol_formed(tag: u8, payload: &[u8]) -> bool
    ensures { result ≡ symbol_formed (record { tag = tag; payload = payload.now }) }
{
    if tag != SYMBOL_TAG || payload.len() < SYMBOL_SIZE {
        return false;
    }
    let from = u64::read(payload, 0);
    let size = u64::read(payload, 8);
    size <= u64::MAX - from
}

// Whether every field of a list is such a symbol.
pub fn check_symbols(s: &[u8]) -> bool
    ensures { SymbolsChecked s.now result }
{
    let mut p: usize = 0;
    // Stays a loop over fields: next_field says why, and tlv's check_input why it goes by the bytes that are left.
    while p < s.len() {
        let Some(field) = next_field(s, p) else {
            return false;
        };
        if !symbol_formed(field.tag, field.payload(s)) {
            return false;
        }
        p = field.next;
    }
    true
}
