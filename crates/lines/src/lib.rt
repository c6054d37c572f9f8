// The line of one storage, as a part of the ticket or of the listing that was lent.
#![tactic(auto)]

ghost use Rattle.std.specs.Prelude.{◌≡◌};
ghost use Rattle.lines.specs.Lines.{nth_line, storage_start, storage_line};
ghost use Rattle.lines.specs.Handed.{refusal_number, span_of, place_of, part_of, Handed};

use answers::{Numbered, Refused};
use text::writer::Writer;

/// Where a line starts, where its line feed stands, and in which text.
#[derive(Clone, Copy, Debug, PartialEq, Eq)]
pub enum Place {
    Ticket(usize, usize),
    Listing(usize, usize),
}

/// Why no line is handed back.
#[derive(Clone, Copy, Debug, PartialEq, Eq)]
pub enum Refusal {
    NoLine,
}

impl Numbered for Refusal {
    ghost number_of = { refusal_number };

    // The format's numbers, by a match as for every enum of refusals (see `Numbered`).
    fn number(&self) -> u64 {
        match self {
            Refusal::NoLine => 34,
        }
    }
}

// Where the k-th line that begins with `start`, counted from 0, starts and ends. What no line feed ends is no line.
// The place is asked, which parts of the library's `split` do not tell: where a line ends is found by reading it, and no index is counted.
#[tactic(auto, using(crate::proofs::Laws::nth_laws))]
fn nth_line(text: &[u8], start: &[u8], k: u64) -> Option<(usize, usize)>
    ensures { result ≡ span_of (nth_line text.now start.now k) }
{
    let mut at = 0;
    let mut left = k;
    while at < text.len() {
        let end = fields::find(text, at, b'\n');
        if text.len() <= end {
            return None;
        }
        if text[at..end].starts_with(start) {
            if left == 0 {
                return Some((at, end));
            }
            left -= 1;
        }
        at = end + 1;
    }
    None
}

// `storage,k,`, printed once for all lines.
fn storage_start(bytes: &mut [u8; 32], k: u64) -> &[u8]
    ensures { result.now ≡ storage_start k }
{
    let mut out = Writer::new(bytes);
    out.bytes(b"storage,");
    out.number(k);
    out.put(b',');
    let len = out.at;
    &bytes[..len]
}

fn listing_line(listing: &[u8], k: u64) -> Option<(usize, usize)>
    ensures { result ≡ span_of (nth_line listing.now (storage_start k) 0) }
{
    let mut bytes = [0; 32];
    nth_line(listing, storage_start(&mut bytes, k), 0)
}

/// Where the line of storage k lies: the ticket's k-th that begins `s,`, else the listing's first that begins `storage,k,`.
#[tactic(auto, using(crate::proofs::Parts::place_laws), unfolding(crate::specs::Lines::storage_line))]
pub fn storage_place(ticket: &[u8], listing: &[u8], k: u64) -> Option<Place>
    ensures { result ≡ place_of (storage_line ticket.now listing.now k) }
{
    if let Some((from, to)) = nth_line(ticket, b"s,", k) {
        return Some(Place::Ticket(from, to));
    }
    listing_line(listing, k).map(|(from, to)| Place::Listing(from, to))
}

/// The line of storage k, without its line feed, as a part of the ticket or of the listing.
pub fn storage_line<'a>(
    ticket: &'a [u8],
    listing: &'a [u8],
    k: u64,
) -> Result<&'a [u8], Refused<Refusal>>
    ensures { Handed (storage_line ticket.now listing.now k) ticket.entry listing.entry result }
{
    match storage_place(ticket, listing, k) {
        Some(Place::Ticket(from, to)) => Ok(&ticket[from..to]),
        Some(Place::Listing(from, to)) => Ok(&listing[from..to]),
        None => Err(Refused {
            refusal: Refusal::NoLine,
            line: 0,
        }),
    }
}

/// The same part; where neither text holds the line, the empty part in front of the ticket.
pub fn storage_part<'a>(ticket: &'a [u8], listing: &'a [u8], k: u64) -> &'a [u8]
    ensures { part_of ticket.entry listing.entry result (storage_line ticket.now listing.now k) }
{
    match storage_line(ticket, listing, k) {
        Ok(part) => part,
        Err(_) => &ticket[..0],
    }
}
