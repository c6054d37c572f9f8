// Reading a ticket.
ghost use Rattle.std.specs.Prelude.{◌≡◌, ◌+◌, ◌*◌, ◌≤◌, ◌<◌, length};
ghost use Rattle.tables.specs.Tables.{row_of};
ghost use Rattle.spec.specs.Text.{split, line_feed};
ghost use Rattle.spec.specs.Read.{at_end, read_lines as lines_read, read_ticket as ticket_read, start};
ghost use Rattle.line_checks.specs.Rows.{Few, Held, RoomIs, reading_of};
ghost use Rattle.ticket.specs.Answers.{with_left, least_rows, left_of, Answered, Advance, Ready, SameReader, counts_by};

use crate::ReadError;
use crate::steps::step;
use answers::{Refusal, Refused};
use line_checks::limits;
use tables::{Counts, cell};

// The lesser of the line of row k, if nothing refers to it, and of those already seen.
fn with_row(rows: &[u64], base: u64, n: u64, k: u64, least: Option<u64>) -> Option<u64>
    requires { (base + n ≤ 65536) × (k < n) }
    ensures { result ≡ with_left rows.now (row_of base k) least }
{
    if cell(rows, base, n, k, 5, 0) != 0 {
        return least;
    }
    let line = cell(rows, base, n, k, 3, 0);
    Some(least.map_or(line, |other| line.min(other)))
}

// The least line of n rows that nothing refers to, or of those already seen.
#[tactic(auto, using(crate::proofs::ReadLaws::leaving))]
fn least_left(rows: &[u64], base: u64, n: u64, seen: Option<u64>) -> Option<u64>
    requires { base + n ≤ 65536 }
    ensures { result ≡ least_rows rows.now base 0 n seen }
{
    let mut least = seen;
    for k in (0..n).rev() {
        least = with_row(rows, base, n, k, least);
    }
    least
}

fn refused(refusal: Refusal, line: u64) -> ReadError
    ensures { result ≡ ReadError.Refused (record { refusal = refusal; line = line }) }
{
    ReadError::from(Refused { refusal, line })
}

// The text, where its next line begins, and what is read of it.
#[derive(Drop)]
pub struct Reader<'a> {
    pub text: &'a [u8],
    pub at: usize,
    pub rows: &'a mut [u64],
    pub lists: &'a mut [u64],
    pub counts: Counts,
}

impl Reader<'_> {
    // Whether there is a row more for each kind. One row of each takes 40 words, with those for keys.
    fn room(&self) -> bool
        ensures { RoomIs (length self.now.rows.now) self.now.counts result }
    {
        let n = self.rows.len() as u64 / 40;
        let counts = &self.counts;
        counts.types < n
            && counts.storages < n
            && counts.variables < n
            && counts.statics < n
            && counts.places < n
            && counts.nodes < n
    }

    // The next line, judged and added: the reader moves behind it.
    #[tactic(auto, using(crate::proofs::ReadLaws::advancing))]
    fn next_line(&mut self) -> Result<(), Refusal>
        requires { Ready self.old.text.now self.old.rows.now self.old.lists.now self.old.counts self.old.at }
        ensures same { SameReader self.old self.new }
        ensures line { Advance self.old.text.now self.old.rows.now self.old.lists.now self.new.rows.now self.new.lists.now self.old.counts self.old.at self.new.at (counts_by self.new.counts result) }
    {
        let end = fields::find(self.text, self.at, b'\n');
        if end == self.text.len() {
            return Err(Refusal::BadForm);
        }
        let text = &self.text[self.at..end];
        let counts = self.counts;
        self.counts = step(text, self.rows, self.lists, &counts)?;
        self.at = end + 1;
        Ok(())
    }

    // The root, which is the last node, is referred to by nothing.
    #[tactic(auto, using(crate::proofs::ReadLaws::last_less))]
    fn left_over(&self) -> Option<u64>
        requires { Few self.now.counts }
        ensures { result ≡ left_of self.now.rows.now self.now.counts }
    {
        let seen = least_left(self.rows, 5, self.counts.nodes.saturating_sub(1), None);
        least_left(self.rows, 4, self.counts.places, seen)
    }

    // The text's end: a line left over, or no node.
    #[tactic(auto, using(crate::proofs::ReadLaws::ending))]
    fn finish(&self) -> Result<Counts, ReadError>
        requires { Held self.now.rows.now self.now.counts × (self.now.counts.lines ≤ 65536) × (self.now.counts.used ≤ length self.now.lists.now) }
        ensures { Answered (at_end (reading_of self.now.rows.now self.now.lists.now self.now.counts)) self.now.rows.now self.now.lists.now result }
    {
        if let Some(line) = self.left_over() {
            return Err(refused(Refusal::NotOnce, line));
        }
        if self.counts.nodes == 0 {
            return Err(refused(Refusal::BadForm, self.counts.lines + 1));
        }
        Ok(self.counts)
    }
}

#[tactic(auto, using(crate::proofs::ReadLaws::lines_over))]
fn read_lines(text: &[u8], rows: &mut [u64], lists: &mut [u64]) -> Result<Counts, ReadError>
    requires { (length text.now ≤ length lists.old * 2) × (length text.now ≤ 65536) }
    ensures { Answered (lines_read (split line_feed text.now) start) rows.new lists.new result }
{
    let mut reader = Reader {
        text,
        at: 0,
        rows,
        lists,
        counts: Counts::default(),
    };
    // By what was read: a line's end is found as it is read, so there is no counted index.
    while reader.at < text.len() {
        if !reader.room() {
            return Err(ReadError::NoRoom);
        }
        let line = reader.counts.lines + 1;
        reader
            .next_line()
            .map_err(|refusal| refused(refusal, line))?;
    }
    reader.finish()
}

/// Any bytes into tables, or their refusal, or too little room for the tables.
#[tactic(auto, using(crate::proofs::ReadLaws::ticket_long, crate::proofs::ReadLaws::ticket_lines))]
pub fn read_ticket(text: &[u8], rows: &mut [u64], lists: &mut [u64]) -> Result<Counts, ReadError>
    requires { length text.now ≤ length lists.old * 2 }
    ensures { Answered (ticket_read text.now) rows.new lists.new result }
{
    if limits::TEXT_LIMIT < text.len() {
        return Err(refused(Refusal::LongText, 0));
    }
    read_lines(text, rows, lists)
}
