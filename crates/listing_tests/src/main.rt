// Replays tickets on the entry point and compares every byte of its answers. Standard input has, for each, a header of 16 bytes,
// `LENGTH,LENGTH` and line feeds behind it, then the ticket and the expected answer: a listing, or the line `refused,NUMBER,LINE`.
// An accepted ticket is lowered again into a buffer that just holds its listing, and into one that is a byte short.
// Prints how many ran and how many were answered otherwise.
#![tactic(auto)]

ghost use Rattle.std.specs.Prelude.{length};
ghost use Rattle.spec.specs.Answer.{answer};
ghost use Rattle.cases.specs.Cases.{Right};
ghost use Rattle.listing_tests.specs.Asked.{Roomy};

use std::io::{self, Read};

fn answered(ticket: &[u8], expected: &[u8], buffer: &mut [u8]) -> bool
    ensures { Right (answer ticket.now (length buffer.old)) expected.now result }
{
    cases::fill(buffer);
    let answer = compiler::lower(ticket, buffer);
    cases::judged(answer, expected, buffer)
}

// The entry is lent the first `room` bytes, and the others stay as they are.
fn answered_within(ticket: &[u8], expected: &[u8], buffer: &mut [u8], room: usize) -> bool
    ensures { Right (answer ticket.now room) expected.now result }
{
    cases::within(buffer, room, |part| answered(ticket, expected, part))
}

// Just enough room is enough, and a byte less is refused.
#[tactic(auto, using(crate::proofs::Laws::roomy_so, crate::proofs::Laws::roomy_not))]
fn roomy(ticket: &[u8], listing: &[u8], buffer: &mut [u8]) -> bool
    ensures { Roomy ticket.now listing.now result }
{
    let room = listing.len();
    if room == 0 {
        return false;
    }
    answered_within(ticket, listing, buffer, room)
        && answered_within(ticket, b"refused,28,0\n", buffer, room - 1)
}

fn holds(ticket: &[u8], expected: &[u8], buffer: &mut [u8]) -> bool
    ensures { Right (answer ticket.now (length buffer.old)) expected.now result }
{
    cases::fill(buffer);
    let answer = compiler::lower(ticket, buffer);
    cases::judged(answer, expected, buffer) && (answer.is_err() || roomy(ticket, expected, buffer))
}

// A ticket, behind its head. The arrays come first, since behind an exit compiled code fills them twice.
fn case<R: Read>(reader: &mut R, head: [u64; 2]) -> bool {
    let mut ticket = [0; 65540];
    let mut expected = [0; 65536];
    let mut buffer = [0; 65536];
    let [size, length] = head;
    let Some(ticket) = cases::read(reader, &mut ticket, size as usize) else {
        return false;
    };
    let Some(expected) = cases::read(reader, &mut expected, length as usize) else {
        return false;
    };
    holds(ticket, expected, &mut buffer)
}

// The next ticket.
fn replay<R: Read>(reader: &mut R) -> Option<bool> {
    let Ok(head) = cases::block_head::<2, R>(reader, 16)? else {
        return Some(false);
    };
    Some(case(reader, head))
}

fn main(rt: HostRuntime) -> io::Result<()> {
    let tally = cases::run(&mut rt.stdin(), replay);
    tally.print(&rt, b"tickets")
}
