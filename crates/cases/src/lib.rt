// What the test programs share: a case's numbers and texts from standard input, a buffer that is filled before a call and judged behind it,
// and the count of what ran and failed.
#![tactic(auto)]

ghost use Rattle.std.specs.Prelude.{◌≡◌, ◌≤◌, length, IfSome};
ghost use Rattle.spec.specs.Text.{same as same_of, split, comma};
ghost use Rattle.fields.specs.Fields.{numbers_of};
ghost use Rattle.cases.specs.Cases.{exactly, Gives, GivesByte, GivesFirst, GivesLine, GivesBlock, LineHead, BlockHead, mark as mark_of, filling, kept, refusal, Printed, Refuses, Accepts, Judges, HoldsWithin};

mod tally;

use answers::{Numbered, Refused};
use std::io::Read;
pub use tally::Tally;
use text::writer::Writer;

/// What was read is no line, or no such head.
#[derive(Clone, Copy, Debug, PartialEq, Eq)]
pub struct Broken;

/// The next n bytes, in front of `bytes`; `None` where there are not as many, or no room for them.
pub fn read<'a, R: Read>(reader: &mut R, bytes: &'a mut [u8], n: usize) -> Option<&'a [u8]>
    ensures { IfSome result (λ b. Gives (R.remaining reader.old) (R.remaining reader.new) (length bytes.old) n b.now) }
{
    let part = bytes.get_mut(..n)?;
    reader.read_exact(part).ok()?;
    Some(part)
}

// The next byte, or `None` at the end; a read that fails is the end too.
fn next_byte<R: Read>(reader: &mut R) -> Option<u8>
    ensures { GivesByte (R.remaining reader.old) (R.remaining reader.new) result }
{
    let mut byte = [0];
    match reader.read(&mut byte) {
        Ok(1) => Some(byte[0]),
        _ => None,
    }
}

/// The next line as many bytes in front of `line`, or `None` at the end. A byte at a time, so that nothing behind the line is taken.
pub fn read_line<R: Read>(reader: &mut R, line: &mut [u8]) -> Option<Result<usize, Broken>>
    ensures { GivesLine (R.remaining reader.old) (R.remaining reader.new) line.new result }
{
    for (n, slot) in line.iter_mut().enumerate() {
        match next_byte(reader) {
            Some(b'\n') => return Some(Ok(n)),
            Some(byte) => *slot = byte,
            None => return if n == 0 { None } else { Some(Err(Broken)) },
        }
    }
    Some(Err(Broken))
}

// As many bytes as there are, up to the length of `bytes`. By `read`, since `read_exact` tells nothing of what it took where it fails.
#[tactic(auto, using(crate::proofs::Laws::given_more))]
fn read_first<R: Read>(reader: &mut R, bytes: &mut [u8]) -> usize
    ensures { GivesFirst (R.remaining reader.old) (R.remaining reader.new) bytes.new result }
{
    let mut done = 0;
    while done < bytes.len() {
        match reader.read(&mut bytes[done..]) {
            Ok(0) | Err(_) => break,
            Ok(n) => done += n,
        }
    }
    done
}

// The line in front of a block, with line feeds behind it, as many bytes, or `None` at the end.
fn read_block<R: Read>(reader: &mut R, block: &mut [u8]) -> Option<Result<usize, Broken>>
    ensures { GivesBlock (R.remaining reader.old) (R.remaining reader.new) block.new result }
{
    match read_first(reader, block) {
        0 => None,
        n if n < block.len() => Some(Err(Broken)),
        _ => Some(Ok(fields::find(block, 0, b'\n'))),
    }
}

/// A line's numbers, if it is `N` of them.
#[tactic(auto, using(crate::proofs::Laws::heading))]
pub fn numbers_in<const N: usize>(line: &[u8]) -> Option<[u64; N]>
    ensures { result ≡ exactly N (numbers_of (split comma line.now)) }
{
    let mut numbers = [0; N];
    let mut at = 0;
    for number in numbers.iter_mut() {
        let (value, next) = fields::number(line, at)?;
        *number = value;
        at = next;
    }
    if at <= line.len() {
        return None;
    }
    Some(numbers)
}

/// The next head, a line of `N` numbers, or `None` at the end.
pub fn line_head<const N: usize, R: Read>(reader: &mut R) -> Option<Result<[u64; N], Broken>>
    ensures { LineHead (R.remaining reader.old) (R.remaining reader.new) N result }
{
    let mut line = [0; 128];
    match read_line(reader, &mut line)? {
        Ok(n) => Some(numbers_in(&line[..n]).ok_or(Broken)),
        Err(e) => Some(Err(e)),
    }
}

/// The next head, such a line in a block of `size` bytes.
pub fn block_head<const N: usize, R: Read>(
    reader: &mut R,
    size: usize,
) -> Option<Result<[u64; N], Broken>>
    ensures { BlockHead (R.remaining reader.old) (R.remaining reader.new) size N result }
{
    let mut line = [0; 128];
    if line.len() < size {
        return Some(Err(Broken));
    }
    let block = &mut line[..size];
    match read_block(reader, block)? {
        Ok(n) => Some(numbers_in(&block[..n]).ok_or(Broken)),
        Err(e) => Some(Err(e)),
    }
}

/// Runs the cases of an input, as far as `next` tells of one whether it held; a million at most.
pub fn run<R: Read, F: FnMut(&mut R) -> Option<bool>>(reader: &mut R, mut next: F) -> Tally
    requires { F.IsAlwaysCallable next }
    ensures ran { result.ran ≤ 1000000 }
    ensures failed { result.failed ≤ result.ran }
{
    let mut tally = Tally::default();
    for _ in 0..1_000_000u64 {
        let Some(held) = next(reader) else {
            break;
        };
        tally.count(held);
    }
    tally
}

// What byte i of a buffer is filled with.
#[tactic(auto, unfolding(crate::specs::Cases::mark))]
fn mark(i: usize) -> u8
    ensures { result ≡ mark_of i }
{
    ((i % 256 * 31 + 7) % 256) as u8
}

/// Before a call.
#[tactic(auto, using(crate::proofs::Laws::filled), unfolding(crate::specs::Cases::filling))]
pub fn fill(buffer: &mut [u8])
    ensures { buffer.new ≡ filling (length buffer.old) }
{
    for (i, byte) in buffer.iter_mut().enumerate() {
        *byte = mark(i);
    }
}

/// Whether all bytes from `from` on are as they were filled.
#[tactic(auto, using(crate::proofs::Laws::kept_end, crate::proofs::Laws::kept_other, crate::proofs::Laws::kept_more))]
pub fn untouched(buffer: &[u8], from: usize) -> bool
    ensures { result ≡ kept buffer.now from }
{
    for i in from..buffer.len() {
        if buffer[i] != mark(i) {
            return false;
        }
    }
    true
}

// The line of a refusal, and its length. `Refused` has this text as its `Display`, but what a `write!` wrote is known only where it is
// `Ok`, and no contract says that it is. Here and below a refusal is its number and line, since that is all that the crates' enums share.
fn print_refusal(shown: &mut [u8], number: u64, line: u64) -> usize
    requires { 64 ≤ length shown.old }
    ensures { Printed number line shown.new result }
{
    let mut to = Writer::new(shown);
    to.bytes(b"refused,");
    to.number(number);
    to.put(b',');
    to.number(line);
    to.put(b'\n');
    to.at
}

// Whether a refusal is the one expected.
fn is_refusal(number: u64, line: u64, expected: &[u8]) -> bool
    ensures { result ≡ same_of (refusal number line) expected.now }
{
    let mut shown = [0; 64];
    let n = print_refusal(&mut shown, number, line);
    fields::same(&shown[..n], expected)
}

/// Whether a refusal is the one expected, and nothing is written.
pub fn refused(number: u64, line: u64, expected: &[u8], buffer: &[u8]) -> bool
    ensures { Refuses number line expected.now buffer.now result }
{
    is_refusal(number, line, expected) && untouched(buffer, 0)
}

/// Whether the first n bytes are those expected, and nothing is written behind them.
pub fn accepted(n: usize, expected: &[u8], buffer: &[u8]) -> bool
    ensures { Accepts n expected.now buffer.now result }
{
    if buffer.len() < n {
        return false;
    }
    fields::same(&buffer[..n], expected) && untouched(buffer, n)
}

/// Whether an answer is the one expected, of a call that was lent a filled buffer.
pub fn judged<R: Numbered + Drop>(
    answer: Result<usize, Refused<R>>,
    expected: &[u8],
    buffer: &[u8],
) -> bool
    ensures { Judges R.number_of answer expected.now buffer.now result }
{
    match answer {
        Ok(n) => accepted(n, expected, buffer),
        Err(e) => refused(e.refusal.number(), e.line, expected, buffer),
    }
}

/// Whether a case holds that is lent the first `room` bytes of a buffer, and the others stay as they are.
pub fn within<F: FnOnce(&mut [u8]) -> bool>(buffer: &mut [u8], room: usize, holds: F) -> bool
    requires { F.IsAlwaysCallable holds }
    ensures { HoldsWithin F.FnOnce holds room result }
{
    if buffer.len() < room {
        return false;
    }
    fill(buffer);
    holds(&mut buffer[..room]) && untouched(buffer, room)
}
