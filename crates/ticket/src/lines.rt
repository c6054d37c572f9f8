// A line that passed its first tests, and the lines before it.
ghost use Rattle.std.specs.Prelude.{◌≡◌, true, ◌+◌, ◌≤◌, ◌<◌, length};
ghost use Rattle.tables.specs.Tables.{run};
ghost use Rattle.line_checks.specs.Rows.{Held, Roomy};
ghost use Rattle.line_checks.specs.Keys.{Keyed};
ghost use Rattle.line_checks.specs.Steps.{few_by_counts};

use line_forms::Form;
use tables::Counts;

// A line's form and numbers, and the rows, the numbers and the counts of the lines before it: there is room for its row.
#[derive(Drop)]
pub struct Line<'a> {
    pub rows: &'a mut [u64],
    pub lists: &'a [u64],
    pub counts: &'a Counts,
    pub form: Form,
    pub numbers: &'a [u64],
    pub ghost held: { Held rows.now counts.now },
    pub ghost roomy: { Roomy (length rows.now) counts.now },
    pub ghost keyed: { Keyed rows.now lists.now counts.now.types },
    pub ghost counted: { counts.now.lines < 65536 },
    pub ghost within: { counts.now.used + form.count ≤ length lists.now },
    pub ghost own: { numbers.now ≡ run lists.now counts.now.used form.count },
    pub ghost few: { few_by_counts form.kind counts.now ≡ true },
}
