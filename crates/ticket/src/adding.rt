// A line added to the tables.
ghost use Rattle.std.specs.Prelude.{◌≡◌};
ghost use Rattle.ticket.specs.Grown.{row_of_line, line_row, counted, LinePut, Added};
ghost use Rattle.ticket.specs.Lines.{SameLine};

use crate::Extent;
use crate::lines::Line;
use line_checks::checks::rank;
use line_checks::keys::note;
use line_checks::rows::{Row, put_row};
use line_checks::words::TypeWord;
use line_forms::LineKind;
use tables::{Counts, word as number};

// The row that a line takes; a function line takes none.
fn next_row(line: &Line<'_>) -> Option<u64>
    ensures { result ≡ row_of_line line.now.form.kind line.now.counts.now }
{
    let counts = line.counts;
    match line.form.kind {
        LineKind::Functions => None,
        LineKind::Types => Some(counts.types * 6),
        LineKind::Storages => Some(1 + counts.storages * 6),
        LineKind::Variables => Some(2 + counts.variables * 6),
        LineKind::Statics => Some(3 + counts.statics * 6),
        LineKind::Places => Some(4 + counts.places * 6),
        LineKind::Nodes => Some(5 + counts.nodes * 6),
    }
}

fn line_row(line: &Line<'_>, e: Extent) -> Row
    ensures { result ≡ line_row line.now.form line.now.counts.now e }
{
    let form = line.form;
    let (third, fourth, fifth) = match form.kind {
        LineKind::Types => (e.own.size, e.own.weight, e.depth),
        LineKind::Places | LineKind::Nodes => (line.counts.lines + 1, e.depth, 0),
        _ => (0, 0, 0),
    };
    Row {
        word: form.word,
        start: line.counts.used,
        count: form.count,
        third,
        fourth,
        fifth,
    }
}

// A type's key is noted, and a line's row stored.
fn put_line(line: &mut Line<'_>, e: Extent)
    ensures same { SameLine line.old line.new }
    ensures put { LinePut line.old.rows.now line.new.rows.now line.old.form line.old.numbers.now line.old.counts.now e }
{
    let Some(r) = next_row(line) else {
        return;
    };
    let row = line_row(line, e);
    if let LineKind::Types = line.form.kind {
        let word = TypeWord::from(line.form.word).number();
        note(line.rows, word, line.numbers);
    }
    put_row(line.rows, r, row);
}

// One line more of its kind.
fn counted(line: &Line<'_>) -> Counts
    ensures { result ≡ counted line.now.form.kind line.now.counts.now line.now.numbers.now }
{
    let counts = *line.counts;
    match line.form.kind {
        LineKind::Functions => Counts {
            function: number(line.numbers, 0),
            next: number(line.numbers, 1),
            ..counts
        },
        LineKind::Types => Counts {
            types: counts.types + 1,
            ..counts
        },
        LineKind::Storages => Counts {
            storages: counts.storages + 1,
            ..counts
        },
        LineKind::Variables => Counts {
            variables: counts.variables + 1,
            ..counts
        },
        LineKind::Statics => Counts {
            statics: counts.statics + 1,
            ..counts
        },
        LineKind::Places => Counts {
            places: counts.places + 1,
            ..counts
        },
        LineKind::Nodes => Counts {
            nodes: counts.nodes + 1,
            ..counts
        },
    }
}

// A line's row stored, and the counts with it.
pub fn add(line: &mut Line<'_>, e: Extent) -> Counts
    ensures same { SameLine line.old line.new }
    ensures added { Added line.old.rows.now line.new.rows.now line.old.lists.now line.old.form line.old.counts.now e result }
{
    let form = line.form;
    let counts = Counts {
        used: line.counts.used + form.count,
        stage: rank(form.kind) + 1,
        lines: line.counts.lines + 1,
        sizes: e.sums.size,
        weights: e.sums.weight,
        ..counted(line)
    };
    put_line(line, e);
    counts
}
