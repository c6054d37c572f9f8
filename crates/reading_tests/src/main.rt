// Replays damaged and boundary tickets on the ticket reader. Standard input has, for each, a line `LENGTH,NUMBER,LINE` and then the
// ticket's bytes; NUMBER 0 says that reading accepts it. Prints how many ran and how many were answered otherwise.
#![tactic(auto)]

ghost use Rattle.spec.specs.Read.{read_ticket as ticket_read};
ghost use Rattle.reading_tests.specs.Asked.{Holds};

use answers::Numbered;
use line_checks::limits;
use std::io::{self, Read};
use ticket::ReadError;
use ticket::reading::read_ticket;

// Number and line are as in the head, where number 0 stands for no refusal.
fn holds(ticket: &[u8], number: u64, line: u64) -> bool
    ensures { Holds (ticket_read ticket.now) number line result }
{
    let mut rows = [0; limits::ROWS_LENGTH];
    let mut lists = [0; 32769];
    if 65538 < ticket.len() {
        return false;
    }
    match read_ticket(ticket, &mut rows, &mut lists) {
        Ok(_) => number == 0,
        Err(ReadError::Refused(e)) => e.refusal.number() == number && e.line == line,
        Err(ReadError::NoRoom) => false,
    }
}

// A ticket, behind its head. The array comes first, since behind an exit compiled code fills it twice.
fn case<R: Read>(reader: &mut R, head: [u64; 3]) -> bool {
    let mut ticket = [0; 65538];
    let [size, number, line] = head;
    let Some(ticket) = cases::read(reader, &mut ticket, size as usize) else {
        return false;
    };
    holds(ticket, number, line)
}

// The next ticket.
fn replay<R: Read>(reader: &mut R) -> Option<bool> {
    let Ok(head) = cases::line_head::<3, R>(reader)? else {
        return Some(false);
    };
    Some(case(reader, head))
}

fn main(rt: HostRuntime) -> io::Result<()> {
    let tally = cases::run(&mut rt.stdin(), replay);
    tally.print(&rt, b"tickets")
}
