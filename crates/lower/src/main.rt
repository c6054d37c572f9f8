// `lower`: a ticket on standard input; its listing, or `refused,NUMBER,LINE`, on standard output.
// At most 65,537 bytes are read: a ticket over 65,536 bytes is refused by its length alone, so no more of it is needed.
// Where a read or a write fails, standard error names the stream, and main returns the error.
#![tactic(auto)]

ghost use Rattle.std.specs.Prelude.{◌≤◌, length, IfOk};

use std::io::{self, Read};

// Reads until the input ends or the text is full: a longer input is not held whole.
fn read_text<R: Read>(reader: &mut R, text: &mut [u8]) -> io::Result<usize>
    ensures { IfOk result (λ n. n ≤ length text.new) }
{
    let mut at = 0;
    // It goes by what each read gave, so there is no counted index.
    while at < text.len() {
        let n = reader.read(&mut text[at..])?;
        if n == 0 {
            break;
        }
        at += n;
    }
    Ok(at)
}

// A text over 65,536 bytes is refused by its length alone.
fn respond(rt: &impl Print, ticket: &[u8]) -> io::Result<()> {
    let mut buffer = [0u8; 65536];
    match compiler::lower(ticket, &mut buffer) {
        Ok(n) => rt.write_all(&buffer[..n]),
        Err(refused) => println!(rt; "{refused}"),
    }
}

// Says on standard error which stream failed.
fn fail(rt: &impl Eprint, what: &str, e: io::Error) -> io::Result<()> {
    eprintln!(rt; "lower: {what}")?;
    Err(e)
}

// The text and the listing stand in arrays as long as they can be: there is no heap.
fn main(rt: HostRuntime) -> io::Result<()> {
    let mut text = [0u8; 65537];
    let n = match read_text(&mut rt.stdin(), &mut text) {
        Ok(n) => n,
        Err(e) => return fail(&rt, "standard input", e),
    };
    match respond(&rt, &text[..n]) {
        Ok(()) => Ok(()),
        Err(e) => fail(&rt, "standard output", e),
    }
}
