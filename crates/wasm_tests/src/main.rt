// Runs the tests of the WebAssembly specification on the functions of the crate numerics, and worked examples at other widths. Standard input
// has tables: a line with a table's name, one with how many cases it has, and for each case a line of five numbers, the operation, its three
// arguments and the result. Prints for each table how many cases ran and how many failed.
#![tactic(auto)]

ghost use Rattle.std.specs.Prelude.{◌≡◌, slice_index};
ghost use Rattle.wasm_tests.specs.Answers.{answer_of, is};

mod ops;
mod outcomes;

use cases::Tally;
use std::io::{self, Read};

fn holds(case: &[u64; 5]) -> bool
    ensures { result ≡ is (answer_of (slice_index case.now 0) (slice_index case.now 1) (slice_index case.now 2) (slice_index case.now 3)) (slice_index case.now 4) }
{
    let [op, x, y, z, expected] = *case;
    outcomes::answer(op, x, y, z) == Some(expected)
}

// Every case of a table is run; a line that is none fails.
fn run<R: Read>(reader: &mut R, count: u64) -> Tally
    ensures { result.ran ≡ count }
{
    let mut tally = Tally::default();
    for _ in 0..count {
        let held = match cases::line_head(reader) {
            Some(Ok(case)) => holds(&case),
            _ => false,
        };
        tally.count(held);
    }
    tally
}

// Whether there is a next table.
fn table<R: Read>(rt: &impl Print, reader: &mut R) -> io::Result<bool> {
    let mut name = [0; 128];
    let Some(Ok(n)) = cases::read_line(reader, &mut name) else {
        return Ok(false);
    };
    let Some(Ok(head)) = cases::line_head::<1, R>(reader) else {
        return Ok(false);
    };
    let tally = run(reader, head[0]);
    rt.write_all(&name[..n])?;
    rt.write_all(b": ")?;
    tally.print(rt, b"cases")?;
    Ok(true)
}

fn main(rt: HostRuntime) -> io::Result<()> {
    let mut reader = rt.stdin();
    for _ in 0..1000 {
        if !table(&rt, &mut reader)? {
            break;
        }
    }
    Ok(())
}
