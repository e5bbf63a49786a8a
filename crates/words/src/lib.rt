// The words for the refusals.
#![tactic(auto)]

ghost use Rattle.buffers.specs.Buffer.{Put};
ghost use Rattle.words.specs.Words.{refusal_word};

// The last refusal's number.
const LAST: u8 = 27;

// Where in a row the length of its word stands, and the row's own length.
const LENGTH: usize = 17;

const ROW: usize = LENGTH + 1;

// A row for each number from 0 on: its word, dots up to 17 bytes, and how long the word is.
// Stays rows in one array of bytes, each as long. A table of `&str` was tried: the check gives no bytes of its elements, where here the proof is one
// equation of this table with the papers'.
const ROWS: [u8; 504] = *b"\
    .................\x00\
    oversize.........\x08\
    misshapen........\x09\
    past limit.......\x0a\
    no unit..........\x07\
    short work.......\x0a\
    decoder..........\x07\
    cut..............\x03\
    cut extended.....\x0c\
    zero extended....\x0d\
    overflowing......\x0b\
    overlong.........\x08\
    overflow.........\x08\
    no entry.........\x08\
    too deep.........\x08\
    files full.......\x0a\
    short tray.......\x0a\
    short tray.......\x0a\
    short tray.......\x0a\
    misshapen records\x11\
    no function......\x0b\
    line encoding....\x0d\
    line address.....\x0c\
    cut list.........\x08\
    no address.......\x0a\
    wide address.....\x0c\
    misshapen symbol.\x10\
    short result.....\x0c\
    ";

// Lays the word of a refusal's number, as far as it fits, and returns its whole length; 0 for a number that is no refusal's.
// Stays a number: C hands it over, and it may be any byte.
pub fn put_word(refusal: u8, name: &mut [u8]) -> usize
    ensures { Put 0 (refusal_word refusal) name.old name.new result }
{
    if LAST < refusal {
        return 0;
    }
    let from = ROW * refusal as usize;
    let to = from + ROWS[from + LENGTH] as usize;
    buffers::output::put_bytes(name, 0, &ROWS[from..to])
}
