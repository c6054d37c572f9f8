// What is read of the types' rows: a number that no type has stands for a type of size 0 and weight 1.
ghost use Rattle.std.specs.Prelude.{◌≡◌, ◌≤◌};
ghost use Rattle.line_checks.specs.Types.{part_of};

use tables::cell;

// The words of a row that are added up: which of the two, as a parameter of the one sum over types.
#[derive(Clone, Copy)]
pub enum Part {
    Size,
    Weight,
}

/// The types' rows, and how many they are. `Lines` of tables has these look-ups too, over all counts, which would be copied for each line.
#[derive(Clone, Copy)]
pub struct Types<'a> {
    pub rows: &'a [u64],
    pub count: u64,
    ghost few: { count ≤ 65536 },
}

impl Types<'_> {
    pub fn part(self, part: Part, ty: u64) -> u64
        ensures { result ≡ part_of self.entry.rows.now self.entry.count part ty }
    {
        match part {
            Part::Size => cell(self.rows, 0, self.count, ty, 3, 0),
            Part::Weight => cell(self.rows, 0, self.count, ty, 4, 1),
        }
    }
}
