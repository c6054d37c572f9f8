// Figures for the tender annex: `done` lines into count, least, greatest, mean and population variance of what they count.
//
// One pass over the text keeps a few numbers for each column. The two lines are printed twice: over a byte of our own, which tells their
// length, and into the buffer once that is known to be long enough. So a refusal writes nothing.
#![tactic(auto)]

mod annex;

ghost use Rattle.std.specs.Prelude.{◌≡◌, ◌≤◌, ◌<◌, length};
ghost use Rattle.spec.specs.Text.{split, comma, line_feed};
ghost use Rattle.figures.specs.Lines.{count_limit, line_limit, done_of, read_from, answer};
ghost use Rattle.figures.specs.Totals.{with_number, with_line, no_lines, Small, Held, line_of, StepAt, onto, of_columns};
ghost use Rattle.figures.specs.Shown.{refusal_number, told, Answers};

use annex::Annex;
use answers::{Numbered, Refused};

/// Why there is no annex.
#[derive(Clone, Copy, Debug, PartialEq, Eq)]
pub enum Refusal {
    NoLines,
    ManyLines,
    BadLine,
    LongAnnex,
}

impl Numbered for Refusal {
    ghost number_of = { refusal_number };

    // The format's numbers: two share 41, so no discriminants.
    fn number(&self) -> u64 {
        match self {
            Refusal::NoLines | Refusal::ManyLines => 41,
            Refusal::BadLine => 42,
            Refusal::LongAnnex => 28,
        }
    }
}

/// What is kept of a column of numbers.
#[derive(Clone, Copy, Debug, PartialEq, Eq)]
pub struct Totals {
    pub count: u64,
    pub least: u64,
    pub greatest: u64,
    pub sum: u64,
    pub squares: u64,
}

/// Of instructions, and of new storages.
#[derive(Clone, Copy, Debug, PartialEq, Eq)]
pub struct Columns {
    pub instructions: Totals,
    pub storages: Totals,
}

const NOTHING: Totals = Totals {
    count: 0,
    least: 65535,
    greatest: 0,
    sum: 0,
    squares: 0,
};

impl Totals {
    // `Small` is asked of the call, and is no fact of the type: `with_number` (specs/Totals.antt) is of any totals and any number, large ones too.
    fn add(&mut self, x: u64)
        requires { (Small self.old.count self.old) × (self.old.count < line_limit) × (x ≤ count_limit) }
        ensures { self.new ≡ with_number self.old x }
    {
        self.count += 1;
        self.least = x.min(self.least);
        self.greatest = x.max(self.greatest);
        self.sum += x;
        self.squares += x * x;
    }
}

impl Columns {
    fn add(&mut self, instructions: u64, storages: u64)
        requires { (Small self.old.instructions.count self.old.instructions) × (Small self.old.storages.count self.old.storages) × (self.old.instructions.count < line_limit) × (self.old.storages.count < line_limit) × (instructions ≤ count_limit) × (storages ≤ count_limit) }
        ensures { self.new ≡ with_line self.old instructions storages }
    {
        self.instructions.add(instructions);
        self.storages.add(storages);
    }
}

// The instructions and new storages that a line without its line feed counts.
fn done_line(line: &[u8]) -> Option<(u64, u64)>
    ensures { line_of result ≡ done_of (split comma line.now) }
{
    let (_, first) = fields::word(line, 0, b"done")?;
    let (instructions, second) = fields::number(line, first)?;
    let (storages, third) = fields::number(line, second)?;
    let (_, end) = fields::number(line, third)?;
    if end <= line.len() {
        return None;
    }
    if instructions > 65535 || storages > 65535 {
        return None;
    }
    Some((instructions, storages))
}

// The same of the line at a position, and where the line behind it begins.
fn next_line(text: &[u8], at: usize) -> Option<(u64, u64, usize)>
    requires { at < length text.now }
    ensures { StepAt text.now at result }
{
    let end = fields::find(text, at, b'\n');
    if text.len() <= end {
        return None;
    }
    let (instructions, storages) = done_line(&text[at..end])?;
    Some((instructions, storages, end + 1))
}

// The lines of a text; line 1,001 is refused before it is read. Where a line ends is found by reading it: no index is counted.
fn count_lines(text: &[u8]) -> Result<Columns, Refused<Refusal>>
    ensures { told result ≡ onto no_lines (read_from 1 (split line_feed text.now)) }
{
    let mut columns = Columns {
        instructions: NOTHING,
        storages: NOTHING,
    };
    let mut line: u64 = 1;
    let mut at: usize = 0;
    while at < text.len() {
        if line > 1000 {
            return Err(Refused {
                refusal: Refusal::ManyLines,
                line,
            });
        }
        let Some((instructions, storages, next)) = next_line(text, at) else {
            return Err(Refused {
                refusal: Refusal::BadLine,
                line,
            });
        };
        columns.add(instructions, storages);
        line += 1;
        at = next;
    }
    Ok(columns)
}

fn figures_of(c: Columns, buffer: &mut [u8]) -> Result<usize, Refused<Refusal>>
    requires { Held c }
    ensures { Answers (of_columns (length buffer.old) c) buffer.old buffer.new result }
{
    match Annex::new(c) {
        Some(annex) => annex.write(buffer),
        None => Err(Refused {
            refusal: Refusal::NoLines,
            line: 0,
        }),
    }
}

/// The two lines of the annex in the buffer, or a refusal that writes nothing.
pub fn figures(lines: &[u8], buffer: &mut [u8]) -> Result<usize, Refused<Refusal>>
    ensures { Answers (answer lines.now (length buffer.old)) buffer.old buffer.new result }
{
    let columns = count_lines(lines)?;
    figures_of(columns, buffer)
}
