// The words of the tables: a row stored, a row marked. Look-ups are those of crate `tables`, which has the layout.
ghost use Rattle.std.specs.Prelude.{◌+◌, ◌*◌, ◌≤◌, ◌<◌, length};
ghost use Rattle.line_checks.specs.Rows.{RowPut, MarkAt};

/// A row: a line's word, where its numbers start in the lists and how many they are, and three words more by its kind.
#[derive(Clone, Copy)]
pub struct Row {
    pub word: u64,
    pub start: usize,
    pub count: usize,
    pub third: u64,
    pub fourth: u64,
    pub fifth: u64,
}

// Row r anew.
pub fn put_row(rows: &mut [u64], r: u64, row: Row)
    requires { (r < 65536) × (r * 6 + 6 ≤ length rows.old) }
    ensures { RowPut rows.old rows.new r row }
{
    let at = r as usize * 6;
    rows[at..at + 6].copy_from_slice(&[
        row.word,
        row.start as u64,
        row.count as u64,
        row.third,
        row.fourth,
        row.fifth,
    ]);
}

// Marks row k of the n of a kind: false where it was marked.
pub fn mark(rows: &mut [u64], base: u64, n: u64, k: u64) -> bool
    requires { (base < 6) × (n ≤ 65536) × (n * 36 ≤ length rows.old) }
    ensures { MarkAt rows.old rows.new base n k result }
{
    if n <= k {
        return true;
    }
    let at = ((base + k * 6) * 6 + 5) as usize;
    if rows[at] != 0 {
        return false;
    }
    rows[at] = 1;
    true
}
