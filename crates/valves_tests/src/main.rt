// Replays valve maps on the two entry points and compares every byte of their answers. Standard input has, for each, a header of 48 bytes,
// `KIND,N,ROOM,LENGTH,LENGTH` and line feeds behind it, then the map and the expected answer: a ticket, or the line `refused,NUMBER,LINE`.
// KIND 0 is a mask, 1 a list; ROOM is the length of the lent buffer. Prints how many ran and how many were answered otherwise.
#![tactic(auto)]

ghost use Rattle.std.specs.Prelude.{length};
ghost use Rattle.cases.specs.Cases.{Right};
ghost use Rattle.valves.specs.Shown.{Answers};
ghost use Rattle.valves_tests.specs.Asked.{asked};

use answers::Refused;
use std::io::{self, Read};
use valves::Refusal;

// The kind is its number in a case's head, which names no kind but these two: one match, and an enum would be one more match of as many arms.
fn ticket(kind: u64, n: u64, map: &[u8], buffer: &mut [u8]) -> Result<usize, Refused<Refusal>>
    ensures { Answers (asked kind n map.now (length buffer.old)) buffer.old buffer.new result }
{
    match kind {
        0 => valves::mask_ticket(n, map, buffer),
        _ => valves::list_ticket(n, map, buffer),
    }
}

fn holds(kind: u64, n: u64, map: &[u8], expected: &[u8], buffer: &mut [u8]) -> bool
    ensures { Right (asked kind n map.now (length buffer.old)) expected.now result }
{
    cases::fill(buffer);
    let answer = ticket(kind, n, map, buffer);
    cases::judged(answer, expected, buffer)
}

// The entry is lent the first `room` bytes, and the others stay as they are.
fn holds_within(
    kind: u64,
    n: u64,
    map: &[u8],
    expected: &[u8],
    buffer: &mut [u8],
    room: usize,
) -> bool
    ensures { Right (asked kind n map.now room) expected.now result }
{
    cases::within(buffer, room, |part| holds(kind, n, map, expected, part))
}

// A map, behind its head. The arrays come first, since behind an exit compiled code fills them twice.
fn case<R: Read>(reader: &mut R, head: [u64; 5]) -> bool {
    let mut map = [0; 1024];
    let mut expected = [0; 256];
    let mut buffer = [0; 256];
    let [kind, n, room, size, answer] = head;
    let Some(map) = cases::read(reader, &mut map, size as usize) else {
        return false;
    };
    let Some(expected) = cases::read(reader, &mut expected, answer as usize) else {
        return false;
    };
    let room = room as usize;
    holds_within(kind, n, map, expected, &mut buffer, room)
}

// The next map.
fn replay<R: Read>(reader: &mut R) -> Option<bool> {
    let Ok(head) = cases::block_head::<5, R>(reader, 48)? else {
        return Some(false);
    };
    Some(case(reader, head))
}

fn main(rt: HostRuntime) -> io::Result<()> {
    let tally = cases::run(&mut rt.stdin(), replay);
    tally.print(&rt, b"maps")
}
