// The ticket: its lines as tables, the expression that they stand for, and its reading.
#![tactic(auto)]

ghost use Rattle.std.specs.Prelude.{◌≡◌, ◌+◌, ◌≤◌, length};
ghost use Rattle.tables.specs.Tables.{run};
ghost use Rattle.ticket.specs.declared.ReadError.{ReadError};

use answers::{Refusal, Refused};
use line_checks::Measure;
use line_forms::Form;
use tables::Counts;

mod adding;
mod lines;
pub mod reading;
mod steps;

// What is known of a line besides its form: what it measures if it is a type, its depth, and the sums over nodes with it.
#[derive(Clone, Copy)]
pub struct Extent {
    pub own: Measure,
    pub depth: u64,
    pub sums: Measure,
}

// A line's numbers, behind those in use.
#[tactic(auto, using(line_checks::proofs::MeasureLaws::slice_run))]
fn numbers_of<'a>(form: Form, lists: &'a [u64], counts: &Counts) -> &'a [u64]
    requires { counts.now.used + form.count ≤ length lists.now }
    ensures { result.now ≡ run lists.now counts.now.used form.count }
{
    &lists[counts.used..counts.used + form.count]
}

/// Why a ticket is not read: it is refused, or the rows lent are too few for its lines. No `Option`: both are errors.
#[derive(Clone, Copy, Debug, PartialEq, Eq)]
pub enum ReadError {
    Refused(Refused<Refusal>),
    NoRoom,
}

impl From<Refused<Refusal>> for ReadError {
    ghost from_gives = { λ refused e. e ≡ ReadError.Refused refused };

    fn from(refused: Refused<Refusal>) -> Self {
        ReadError::Refused(refused)
    }
}
