// Replays texts of `done` lines on the entry and compares every byte of its answers. Standard input has, for each, a line
// `SIZE,ROOM,LENGTH`, then the text of SIZE bytes, and then the expected answer of LENGTH bytes: the annex, or the line
// `refused,NUMBER,LINE`. The entry is lent ROOM bytes. Prints how many ran and how many were answered otherwise.
#![tactic(auto)]

ghost use Rattle.std.specs.Prelude.{length};
ghost use Rattle.figures.specs.Lines.{answer};
ghost use Rattle.cases.specs.Cases.{Right};

use std::io::{self, Read};

fn holds(lines: &[u8], expected: &[u8], buffer: &mut [u8]) -> bool
    ensures { Right (answer lines.now (length buffer.old)) expected.now result }
{
    cases::fill(buffer);
    let answer = figures::figures(lines, buffer);
    cases::judged(answer, expected, buffer)
}

// The entry is lent the first `room` bytes, and the others stay as they are.
fn holds_within(lines: &[u8], expected: &[u8], buffer: &mut [u8], room: usize) -> bool
    ensures { Right (answer lines.now room) expected.now result }
{
    cases::within(buffer, room, |part| holds(lines, expected, part))
}

// Whether a text is answered so, behind its head. The arrays come first, since behind an exit compiled code fills them twice.
fn case<R: Read>(reader: &mut R, head: [u64; 3]) -> bool {
    let mut lines = [0; 32768];
    let mut expected = [0; 256];
    let mut buffer = [0; 256];
    let [size, room, length] = head;
    let Some(lines) = cases::read(reader, &mut lines, size as usize) else {
        return false;
    };
    let Some(expected) = cases::read(reader, &mut expected, length as usize) else {
        return false;
    };
    let room = room as usize;
    holds_within(lines, expected, &mut buffer, room)
}

// Whether the next text is answered so.
fn replay<R: Read>(reader: &mut R) -> Option<bool> {
    let Ok(head) = cases::line_head::<3, R>(reader)? else {
        return Some(false);
    };
    Some(case(reader, head))
}

fn main(rt: HostRuntime) -> io::Result<()> {
    let tally = cases::run(&mut rt.stdin(), replay);
    tally.print(&rt, b"texts")
}
