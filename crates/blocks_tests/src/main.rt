// Runs the three calls on cases with known answers and compares every byte of the output. Standard input has, for each, a header of 32
// bytes, `CALL,LENGTH,ROOM,NUMBER,LINE` and line feeds behind it, then the input and what the output must hold after the call.
// Prints how many ran and how many were answered otherwise.
#![tactic(auto)]

ghost use Rattle.std.specs.Prelude.{◌≡◌, length};
ghost use Rattle.blocks.specs.Shown.{outcome, Answers};
ghost use Rattle.blocks_tests.specs.Asked.{turned, fits, Holds};

use answers::{Numbered, Refused};
use blocks::Refusal;
use std::io::{self, Read};

// The call is its number in a case's head: one match, and an enum would be one more match of as many arms.
fn answer(call: u64, input: &[u8], output: &mut [u8]) -> Result<usize, Refused<Refusal>>
    ensures { Answers (turned call) input.now output.old output.new result }
{
    match call {
        0 => blocks::transpose(input, output),
        1 => blocks::transpose_back(input, output),
        _ => blocks::mirror(input, output),
    }
}

// The answer's number and line, or the length that was accepted. They are numbers as in the head, where 0 stands for no refusal.
fn answered(number: u64, line: u64, length: usize, answer: Result<usize, Refused<Refusal>>) -> bool
    ensures { result ≡ fits number line length (outcome answer) }
{
    match answer {
        Ok(n) => number == 0 && n == length,
        Err(e) => e.refusal.number() == number && e.line == line,
    }
}

#[tactic(auto, using(crate::proofs::Laws::holds_so))]
fn holds(
    call: u64,
    number: u64,
    line: u64,
    input: &[u8],
    output: &mut [u8],
    expected: &[u8],
) -> bool
    ensures { Holds call number line input.now (length output.old) expected.now result }
{
    cases::fill(output);
    let a = answer(call, input, output);
    answered(number, line, input.len(), a) && fields::same(output, expected)
}

// Whether a case holds, over the first `room` bytes of an output. The arrays come first, since behind an exit compiled code fills them twice.
fn case<R: Read>(reader: &mut R, head: [u64; 5]) -> bool {
    let mut input = [0; 320];
    let mut output = [0; 320];
    let mut expected = [0; 320];
    let [call, length, room, number, line] = head;
    let room = room as usize;
    let Some(input) = cases::read(reader, &mut input, length as usize) else {
        return false;
    };
    let Some(expected) = cases::read(reader, &mut expected, room) else {
        return false;
    };
    let Some(output) = output.get_mut(..room) else {
        return false;
    };
    holds(call, number, line, input, output, expected)
}

// Whether the next case holds.
fn replay<R: Read>(reader: &mut R) -> Option<bool> {
    let Ok(head) = cases::block_head::<5, R>(reader, 32)? else {
        return Some(false);
    };
    Some(case(reader, head))
}

fn main(rt: HostRuntime) -> io::Result<()> {
    let tally = cases::run(&mut rt.stdin(), replay);
    tally.print(&rt, b"cases")
}
