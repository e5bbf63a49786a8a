// What the programs share: how they read calls from an input and answer them.
#![tactic(auto)]

ghost use Rattle.std.specs.Prelude.{◌≡◌, true, ◌<◌, ◌≤◌, IfOk, IfSome, MatchOption, length, take};
ghost use Rattle.std.specs.Io.KnownBytes.{Consumes, IsAtEnd};
ghost use Rattle.streams.specs.Calls.{NextByte, NextNumber, NextCall, ReadsCall, AnswersAll};
ghost use Rattle.streams.specs.Parts.{SplitsNumber, NoNumber, SplitsPart, NoPart, SplitsShortPart, NoShortPart, SplitsParts, NoParts};

use std::io::{self, Read, Write};
use tlv::refusal::Refusal;

// The byte that a buffer is filled with before it is lent, so that what is written there shows.
pub const FILLED: u8 = 0xa5;

// Reads until the buffer is full or the input ends, and says how many bytes it put at the buffer's front: std's `read_exact` does not say how many came.
pub fn read_full<R: Read>(input: &mut R, buffer: &mut [u8]) -> io::Result<usize>
    ensures bound { IfOk result (λ n. n ≤ length buffer.new) }
    ensures bytes { IfOk result (λ n. Consumes (R.remaining input.old) (R.remaining input.new) (take n buffer.new)) }
    ensures short { IfOk result (λ n. n < length buffer.new → IsAtEnd (R.remaining input.new)) }
{
    let mut done = 0;
    // Stays a loop: each read says how many bytes came.
    while done < buffer.len() {
        let n = input.read(&mut buffer[done..])?;
        if n == 0 {
            return Ok(done);
        }
        done += n;
    }
    Ok(done)
}

// The next byte; past the input's end it is 0.
// Stays beside next_u32: what they share is the one call of read_full; an array of N bytes would leave to each its number and its clause.
pub fn next_u8<R: Read>(input: &mut R) -> io::Result<u8>
    ensures { IfOk result (λ b. NextByte (R.remaining input.old) (R.remaining input.new) b) }
{
    let mut bytes = [0; 1];
    read_full(input, &mut bytes)?;
    Ok(bytes[0])
}

// The number in the next 4 bytes; past the input's end they are 0.
pub fn next_u32<R: Read>(input: &mut R) -> io::Result<u32>
    ensures { IfOk result (λ n. NextNumber (R.remaining input.old) (R.remaining input.new) n) }
{
    let mut bytes = [0; 4];
    read_full(input, &mut bytes)?;
    Ok(u32::from_le_bytes(bytes))
}

// The next call, put at the buffer's front: its length in 4 bytes, then its bytes. None, with a message, where the buffer is too short or the call is cut off.
// Stays with input, output and buffer apart, here and in the programs: answer_all lends the input to a closure that holds the other two.
pub fn next_call<'a, R: Read>(
    input: &mut R,
    out: &mut impl Write,
    buffer: &'a mut [u8],
) -> io::Result<Option<&'a [u8]>>
    ensures { IfOk result (λ o. IfSome o (λ call. NextCall (R.remaining input.old) (R.remaining input.new) call.now)) }
{
    let n = next_u32(input)? as usize;
    if buffer.len() < n {
        writeln!(out, "longer than the buffer")?;
        return Ok(None);
    }
    let call = &mut buffer[..n];
    if read_full(input, call)? < n {
        writeln!(out, "cut off")?;
        return Ok(None);
    }
    Ok(Some(call))
}

// The number in the first 4 bytes of a call, and what is behind it; none where the call is cut off.
pub fn split_number(call: &[u8]) -> Option<(u32, &[u8])>
    ensures { MatchOption result (NoNumber call.now) (λ p. SplitsNumber call.now p.0 p.1.now) }
{
    let (bytes, rest) = call.split_first_chunk()?;
    Some((u32::from_le_bytes(*bytes), rest))
}

// The part of a call that stands behind its length of 4 bytes, and what is behind it; none where the call is cut off.
pub fn split_part(call: &[u8]) -> Option<(&[u8], &[u8])>
    ensures { MatchOption result (NoPart call.now) (λ p. SplitsPart call.now p.0.now p.1.now) }
{
    let (n, rest) = split_number(call)?;
    rest.split_at_checked(n as usize)
}

// The same of a part that stands behind a length of 2 bytes.
pub fn split_short_part(call: &[u8]) -> Option<(&[u8], &[u8])>
    ensures { MatchOption result (NoShortPart call.now) (λ p. SplitsShortPart call.now p.0.now p.1.now) }
{
    let (bytes, rest) = call.split_first_chunk()?;
    rest.split_at_checked(u16::from_le_bytes(*bytes) as usize)
}

// The two parts of a call that stand behind both their lengths, 4 bytes each, and what is behind them; none where the call is cut off.
pub fn split_parts(call: &[u8]) -> Option<(&[u8], &[u8], &[u8])>
    ensures { MatchOption result (NoParts call.now) (λ p. SplitsParts call.now p.0.now p.1.now p.2.now) }
{
    let (n, rest) = split_number(call)?;
    let (m, rest) = split_number(rest)?;
    let (first, rest) = rest.split_at_checked(n as usize)?;
    let (second, rest) = rest.split_at_checked(m as usize)?;
    Some((first, second, rest))
}

// Answers the next call by `answer`, which says false of a call that is none of its own; false where no call was answered, with a message.
// Stays a bool in the Result, here and in the programs: false ends the calls, with a message, and is no failure of reading or writing.
pub fn answer_next<R: Read, W: Write, F: FnOnce(&mut W, &[u8]) -> io::Result<bool>>(
    input: &mut R,
    out: &mut W,
    buffer: &mut [u8],
    answer: F,
) -> io::Result<bool>
    requires { F.IsAlwaysCallable answer }
    ensures { IfOk result (λ b. b ≡ true → ReadsCall (R.remaining input.old) (R.remaining input.new)) }
{
    let Some(call) = next_call(input, out, buffer)? else {
        return Ok(false);
    };
    if !answer(out, call)? {
        writeln!(out, "no such call")?;
        return Ok(false);
    }
    Ok(true)
}

// Answers the calls of an input, one after the other: how many they are stands before them in 4 bytes. `next` says false where it can't go on.
pub fn answer_all<R: Read, F: FnMut(&mut R) -> io::Result<bool>>(
    input: &mut R,
    mut next: F,
) -> io::Result<()>
    requires { F.IsAlwaysCallable next }
    ensures { IfOk result (λ u. AnswersAll R.remaining F.FnMut next input.old input.new) }
{
    let count = next_u32(input)?;
    // Stays a `for` with a `return`: answering a call may fail, which `?` hands on.
    for _ in 0..count {
        if !next(input)? {
            return Ok(());
        }
    }
    Ok(())
}

// Writes that there was a refusal, by its number.
pub fn write_refused(out: &mut impl Write, refusal: Refusal) -> io::Result<()> {
    out.write_all(b"refused ")?;
    write!(out, "{}", refusal.number())
}

// The same, as a line.
pub fn write_refused_line(out: &mut impl Write, refusal: Refusal) -> io::Result<()> {
    write_refused(out, refusal)?;
    writeln!(out)
}

// Whether a byte of a name or a path is written as it is.
fn is_plain(b: u8) -> bool {
    b.is_ascii_graphic() && b != b'\\' && b != b'|'
}

// Writes a name or a path: bytes that are not plain by their numbers.
pub fn write_name(out: &mut impl Write, name: &[u8]) -> io::Result<()> {
    for &b in name {
        if is_plain(b) {
            out.write_all(&[b])?;
        } else {
            write!(out, "\\{b:02x}")?;
        }
    }
    Ok(())
}
