// Asks for the lines of storages. Standard input has, for each case, a line `TICKET,LISTING,K,TEXT,FROM,TO` and then the bytes of both texts:
// TICKET and LISTING are their lengths; TEXT is 0 where the ticket holds the line, 1 where the listing does, 2 where neither does; FROM and
// TO are where it starts and where its line feed stands. Prints how many ran and how many were answered otherwise.
#![tactic(auto)]

ghost use Rattle.std.specs.Prelude.{◌≡◌};
ghost use Rattle.lines.specs.Lines.{storage_line};
ghost use Rattle.lines_tests.specs.Asked.{place_at, part_at, refusal_at, Gives, Holds};

use answers::Numbered;
use cases::Broken;
use lines::Place;
use std::io::{self, Read};

// The place that a case's head names: the text by its number, and in it from where to where.
fn expected(text: u64, from: u64, to: u64) -> Result<Option<Place>, Broken>
    ensures { result ≡ place_at text from to }
{
    let from = from as usize;
    let to = to as usize;
    match text {
        0 => Ok(Some(Place::Ticket(from, to))),
        1 => Ok(Some(Place::Listing(from, to))),
        2 => Ok(None),
        _ => Err(Broken),
    }
}

// The part handed back has these bytes, and the refusal its number, for line 0.
fn handed<'a>(ticket: &'a [u8], listing: &'a [u8], k: u64, bytes: &[u8], refusal: u64) -> bool
    ensures { Gives (storage_line ticket.now listing.now k) bytes.now refusal result }
{
    if !fields::same(lines::storage_part(ticket, listing, k), bytes) {
        return false;
    }
    match lines::storage_line(ticket, listing, k) {
        Ok(part) => refusal == 0 && fields::same(part, bytes),
        Err(e) => (e.refusal.number(), e.line) == (refusal, 0),
    }
}

// The part is what stands at the expected place; where none is expected, it is empty.
fn handed_at<'a>(ticket: &'a [u8], listing: &'a [u8], k: u64, place: Option<Place>) -> bool
    ensures { Gives (storage_line ticket.now listing.now k) (part_at ticket.now listing.now place) (refusal_at place) result }
{
    let part = match place {
        Some(Place::Ticket(from, to)) => ticket.get(from..to),
        Some(Place::Listing(from, to)) => listing.get(from..to),
        None => return handed(ticket, listing, k, b"", 34),
    };
    part.is_some_and(|bytes| handed(ticket, listing, k, bytes, 0))
}

fn holds<'a>(ticket: &'a [u8], listing: &'a [u8], k: u64, text: u64, from: u64, to: u64) -> bool
    ensures { Holds ticket.now listing.now k text from to result }
{
    let Ok(place) = expected(text, from, to) else {
        return false;
    };
    lines::storage_place(ticket, listing, k) == place && handed_at(ticket, listing, k, place)
}

// Whether a case holds, behind its head. The arrays come first, since behind an exit compiled code fills them twice.
fn case<R: Read>(reader: &mut R, head: [u64; 6]) -> bool {
    let mut ticket = [0; 65536];
    let mut listing = [0; 65536];
    let [a, b, k, text, from, to] = head;
    let Some(ticket) = cases::read(reader, &mut ticket, a as usize) else {
        return false;
    };
    let Some(listing) = cases::read(reader, &mut listing, b as usize) else {
        return false;
    };
    holds(ticket, listing, k, text, from, to)
}

// Whether the next case holds.
fn replay<R: Read>(reader: &mut R) -> Option<bool> {
    let Ok(head) = cases::line_head::<6, R>(reader)? else {
        return Some(false);
    };
    Some(case(reader, head))
}

fn main(rt: HostRuntime) -> io::Result<()> {
    let tally = cases::run(&mut rt.stdin(), replay);
    tally.print(&rt, b"cases")
}
