// The two lines of the annex, printed of what was kept of both columns.
ghost use Rattle.figures.specs.Totals.{Sound};

use super::{Columns, Refusal, Totals};
use answers::Refused;
use text::writer::Writer;

/// The columns of some lines.
#[derive(Clone, Copy)]
pub struct Annex {
    columns: Columns,
    ghost instructions: { Sound columns.instructions },
    ghost storages: { Sound columns.storages },
}

impl Annex {
    ghost use Rattle.std.specs.Prelude.{◌≡◌, MatchOption, length};
    ghost use Rattle.spec.specs.Answer.{fitted};
    ghost use Rattle.text.specs.Put.{Put};
    ghost use Rattle.text.specs.Writes.{Writes};
    ghost use Rattle.figures.specs.Totals.{Held, printed};
    ghost use Rattle.figures.specs.Shown.{Answers};

    /// None where no line was counted.
    pub fn new(columns: Columns) -> Option<Annex>
        requires { Held columns }
        ensures { MatchOption result (columns.instructions.count ≡ 0) (λ a. a.columns ≡ columns) }
    {
        if columns.instructions.count == 0 {
            return None;
        }
        Some(Annex { columns })
    }

    fn print(self, out: &mut Writer<'_>)
        ensures { Writes out.old (printed self.columns) out.new }
    {
        print_totals(out, self.columns.instructions);
        print_totals(out, self.columns.storages);
    }

    // Both lines from the buffer's start, and the position behind them.
    fn put(self, buffer: &mut [u8]) -> usize
        ensures { Put buffer.old 0 (printed self.columns) buffer.new result }
    {
        let mut out = Writer::new(buffer);
        self.print(&mut out);
        out.at
    }

    /// The length first, then the bytes.
    pub fn write(self, buffer: &mut [u8]) -> Result<usize, Refused<Refusal>>
        ensures { Answers (fitted (length buffer.old) (printed self.columns)) buffer.old buffer.new result }
    {
        let end = self.put(&mut [0; 1]);
        if buffer.len() < end {
            return Err(Refused {
                refusal: Refusal::LongAnnex,
                line: 0,
            });
        }
        self.put(buffer);
        Ok(end)
    }
}

ghost use Rattle.std.specs.Prelude.{◌≡◌, ◌∷◌, ◌<◌};
ghost use Rattle.spec.specs.Text.{digits, comma};
ghost use Rattle.text.specs.Writes.{Writes};
ghost use Rattle.figures.specs.Fraction.{gcd as gcd_of, lowest};
ghost use Rattle.figures.specs.Annex.{fraction};
ghost use Rattle.figures.specs.Totals.{figures_of};

// By Euclid's algorithm: what is left decides when it ends, and there is no count.
fn gcd(a: u64, b: u64) -> u64
    ensures { result ≡ gcd_of a b }
{
    let mut x = a;
    let mut y = b;
    while y != 0 {
        (x, y) = (y, x % y);
    }
    x
}

// A comma and a number.
fn print_field(out: &mut Writer<'_>, n: u64)
    ensures { Writes out.old (comma ∷ digits n) out.new }
{
    out.put(b',');
    out.number(n);
}

// The fraction a / b as a field.
fn print_fraction(out: &mut Writer<'_>, a: u64, b: u64)
    requires { 0 < b }
    ensures { Writes out.old (comma ∷ fraction (lowest a b)) out.new }
{
    let g = gcd(a, b);
    print_field(out, a / g);
    out.put(b'/');
    out.number(b / g);
}

// Count, least, greatest, mean and variance, and the line's end.
fn print_totals(out: &mut Writer<'_>, t: Totals)
    requires { Sound t }
    ensures { Writes out.old (figures_of t) out.new }
{
    let n = t.count;
    out.number(n);
    print_field(out, t.least);
    print_field(out, t.greatest);
    print_fraction(out, t.sum, n);
    print_fraction(out, n * t.squares - t.sum * t.sum, n * n);
    out.put(b'\n');
}
