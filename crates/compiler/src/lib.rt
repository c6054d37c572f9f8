// The public entry: a ticket's text into the listing of its lowering, in a lent buffer.
//
// The work is done in slices that the caller lends; only the words for keys and a mark for each storage are cleared.
#![tactic(auto)]

ghost use Rattle.std.specs.Prelude.{◌≡◌, ◌*◌, ◌≤◌, length};
ghost use Rattle.spec.specs.Lower.{lowered};
ghost use Rattle.spec.specs.Answer.{answer, of_lowering};
ghost use Rattle.tables.specs.Ticket.{ticket_of};
ghost use Rattle.answers.specs.Answers.{Answers};
ghost use Rattle.compiler.specs.Tries.{Tries};
ghost use Rattle.compiler.specs.Lent.{FewWords, FewRead, FewRows, Short};
ghost use Rattle.sections.specs.Sections.{all_weights};

use answers::{Refusal, Refused};
use line_checks::keys::key_lines;
use line_checks::limits;
use sections::Lent;
use tables::{Lines, Tables};
use ticket::ReadError;
use ticket::reading::read_ticket;

// The records of all nodes' values.
#[tactic(auto, using(crate::proofs::Laws::sum_none, crate::proofs::Laws::sum_more, crate::proofs::Laws::sum_all, crate::proofs::Laws::sum_small, crate::proofs::Laws::weight_is))]
fn weights(tables: &Tables<'_>) -> u64
    ensures { result ≡ all_weights (ticket_of tables.now.lines) }
{
    let mut sum = 0;
    for k in 0..tables.lines.counts.nodes {
        sum += tables.lines.type_weight(tables.lines.node_type(k));
    }
    sum
}

// The words for keys, behind the rows: what stands in them makes reading slow, and not wrong.
fn clear_keys(rows: &mut [u64]) {
    let at = rows.len() / 40 * 36;
    let end = at + key_lines(rows.len()) * 4;
    rows[at..end].fill(0);
}

// What was read: it takes a mark for each storage, and eight words for each record.
#[tactic(auto, using(crate::proofs::Laws::tries_ok, crate::proofs::Laws::tries_err, sections::proofs::Laws::storage_count))]
fn lower_read(tables: &Tables<'_>, lent: Lent<'_>, buffer: &mut [u8]) -> Result<usize, ReadError>
    ensures { Tries (of_lowering (ticket_of tables.now.lines) (length buffer.old) (lowered (ticket_of tables.now.lines))) (FewWords (ticket_of tables.now.lines) (length lent.entry.narrowed.now) (length lent.entry.stack.now)) ⊥ buffer.old buffer.new result }
{
    let Lent {
        code,
        store,
        narrowed,
        stack,
    } = lent;
    let storages = tables.lines.counts.storages as usize;
    if narrowed.len() < storages {
        return Err(ReadError::NoRoom);
    }
    if (stack.len() as u64) / 8 < weights(tables) {
        return Err(ReadError::NoRoom);
    }
    let marks = &mut narrowed[..storages];
    marks.fill(0);
    let lent = Lent {
        code,
        store,
        narrowed: marks,
        stack,
    };
    let end = sections::lower_tables(tables, lent, buffer)?;
    Ok(end)
}

// The same of a text that the lists are long enough for.
#[tactic(auto, using(crate::proofs::Laws::text_read, crate::proofs::Laws::read_accepted, crate::proofs::Laws::tries_read, crate::proofs::Laws::tries_unread))]
fn lower_with(
    ticket: &[u8],
    buffer: &mut [u8],
    rows: &mut [u64],
    lists: &mut [u64],
    lent: Lent<'_>,
) -> Result<usize, ReadError>
    requires { length ticket.now ≤ length lists.old * 2 }
    ensures { Tries (answer ticket.now (length buffer.old)) (FewRead ticket.now (length lent.entry.narrowed.now) (length lent.entry.stack.now)) (FewRows (length rows.old)) buffer.old buffer.new result }
{
    if rows.len() < 40 {
        return Err(ReadError::NoRoom);
    }
    clear_keys(rows);
    let counts = read_ticket(ticket, rows, lists)?;
    let lines = Lines {
        rows,
        lists,
        counts,
    };
    let tables = Tables { lines };
    lower_read(&tables, lent, buffer)
}

// The listing of the ticket's lowering, in the buffer, and its length; or the refusal's number and line, and nothing is written; or that
// words lent are too few, and nothing is written. All the work is done in what is lent, and whatever stood there is of no account: a word of
// `lists` for two bytes of text; 8 of `stack` for each record of the nodes' values, and one of `narrowed` for each storage of a ticket that
// reading accepts; where `rows` has 41,000, these are too few exactly then. With fewer they can be too few too: there are 40 for each line of
// the kind that has the most, and 40 more. 65,536 words of stack and 256 of narrowed are enough for every ticket.
// `code` and `store` may have any length: where they hold the listing's halves, the ticket is lowered once, else twice.
// Each slice is a parameter of its own, as C hands them.
#[tactic(auto, using(crate::proofs::Laws::answer_unread, crate::proofs::Laws::text_too_long, crate::proofs::Laws::tries_for, crate::proofs::Laws::unread_few))]
pub fn lower_in(
    ticket: &[u8],
    buffer: &mut [u8],
    rows: &mut [u64],
    lists: &mut [u64],
    stack: &mut [u64],
    narrowed: &mut [u64],
    code: &mut [u8],
    store: &mut [u8],
) -> Result<usize, ReadError>
    ensures { Tries (answer ticket.now (length buffer.old)) (Short ticket.now (length lists.old) (length narrowed.old) (length stack.old)) (FewRows (length rows.old)) buffer.old buffer.new result }
{
    if limits::TEXT_LIMIT < ticket.len() {
        return Err(ReadError::Refused(Refused {
            refusal: Refusal::LongText,
            line: 0,
        }));
    }
    if lists.len() < ticket.len() - ticket.len() / 2 {
        return Err(ReadError::NoRoom);
    }
    let lent = Lent {
        code,
        store,
        narrowed,
        stack,
    };
    lower_with(ticket, buffer, rows, lists, lent)
}

// The same in few words of its own, as there is no heap: they are enough for most tickets. One function with const parameters for this
// and the next would tell six sizes by their places alone at each call, and be no plainer.
#[tactic(auto, using(crate::proofs::Laws::tries_any))]
fn lower_small(ticket: &[u8], buffer: &mut [u8]) -> Result<usize, ReadError>
    ensures { Tries (answer ticket.now (length buffer.old)) ⊥ (Unit {0}) buffer.old buffer.new result }
{
    let mut rows = [0u64; 1280];
    let mut lists = [0u64; 512];
    let mut stack = [0u64; 1024];
    let mut narrowed = [0u64; 32];
    let mut code = [0u8; 4096];
    let mut store = [0u8; 1024];
    lower_in(
        ticket,
        buffer,
        &mut rows,
        &mut lists,
        &mut stack,
        &mut narrowed,
        &mut code,
        &mut store,
    )
}

// The same in as many as are enough for every ticket.
fn lower_large(ticket: &[u8], buffer: &mut [u8]) -> Result<usize, Refused<Refusal>>
    ensures { Answers (answer ticket.now (length buffer.old)) buffer.old buffer.new result }
{
    let mut rows = [0u64; limits::ROWS_LENGTH];
    let mut lists = [0u64; limits::LISTS_LENGTH];
    let mut stack = [0u64; limits::STACK_LENGTH];
    let mut narrowed = [0u64; limits::MARKS_LENGTH];
    let mut code = [0u8; 65536];
    let mut store = [0u8; 32768];
    match lower_in(
        ticket,
        buffer,
        &mut rows,
        &mut lists,
        &mut stack,
        &mut narrowed,
        &mut code,
        &mut store,
    ) {
        Ok(end) => Ok(end),
        Err(ReadError::Refused(refused)) => Err(refused),
        // These words are enough for every ticket: any refusal may stand here.
        Err(ReadError::NoRoom) => Err(Refused {
            refusal: Refusal::LongText,
            line: 0,
        }),
    }
}

// The same with no words lent.
pub fn lower(ticket: &[u8], buffer: &mut [u8]) -> Result<usize, Refused<Refusal>>
    ensures { Answers (answer ticket.now (length buffer.old)) buffer.old buffer.new result }
{
    match lower_small(ticket, buffer) {
        Ok(end) => Ok(end),
        Err(ReadError::Refused(refused)) => Err(refused),
        Err(ReadError::NoRoom) => lower_large(ticket, buffer),
    }
}
