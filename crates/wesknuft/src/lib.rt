// `compiler::lower_in` with its answer in numbers, for programs in C and Rust: crates/wesknuft_c exports it.
#![tactic(auto)]

ghost use Rattle.std.specs.Prelude.{length};
ghost use Rattle.spec.specs.Answer.{answer};
ghost use Rattle.compiler.specs.Lent.{Short, FewRows};
ghost use Rattle.wesknuft.specs.Told.{TellsIn};

use answers::Numbered;
use ticket::ReadError;

// 1 where the ticket is accepted: then `size` is the listing's length; 0 where it is refused: then `number` and `line` are the refusal's; 2 where
// the words lent are too few. What does not apply is 0.
// Numbers for the answer, and a parameter for each slice: the C interface has neither `Result` nor a struct of slices.
pub fn wesknuft_lower_in(
    ticket: &[u8],
    buffer: &mut [u8],
    rows: &mut [u64],
    lists: &mut [u64],
    stack: &mut [u64],
    narrowed: &mut [u64],
    code: &mut [u8],
    store: &mut [u8],
    size: &mut usize,
    number: &mut u64,
    line: &mut u64,
) -> u64
    ensures { TellsIn (answer ticket.now (length buffer.old)) (Short ticket.now (length lists.old) (length narrowed.old) (length stack.old)) (FewRows (length rows.old)) buffer.old buffer.new result size.new number.new line.new }
{
    match compiler::lower_in(ticket, buffer, rows, lists, stack, narrowed, code, store) {
        Ok(end) => {
            *size = end;
            *number = 0;
            *line = 0;
            1
        }
        Err(ReadError::Refused(e)) => {
            *size = 0;
            *number = e.refusal.number();
            *line = e.line;
            0
        }
        Err(ReadError::NoRoom) => {
            *size = 0;
            *number = 0;
            *line = 0;
            2
        }
    }
}
