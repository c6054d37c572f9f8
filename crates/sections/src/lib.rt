// The listing of a ticket that is read, in two halves, in a lent buffer.
//
// The ticket is lowered over two lent slices, which finds every refusal and where each half of the listing ends. If the buffer is long
// enough, the listing is copied from them; one that they have no room for is made in the buffer, by lowering once more. So a refusal
// writes nothing.
#![tactic(auto)]

ghost use Rattle.std.specs.Prelude.{◌≡◌, ℕ, ◌+◌, ◌-◌, ◌≤◌, length, take, get_or, IfOk};
ghost use Rattle.std.proofs.lemmas.List.Edits.{sets};
ghost use Rattle.spec.specs.Lower.{lowered};
ghost use Rattle.spec.specs.Answer.{of_lowering};
ghost use Rattle.tables.specs.Ticket.{ticket_of};
ghost use Rattle.values.specs.Left.{MeetsValue};
ghost use Rattle.answers.specs.Answers.{Answers};
ghost use Rattle.sections.specs.Sections.{Ready, Starts, Printable, SameLent, Finished, Sectioned, Measures, ListingPut};

use answers::{Refusal, Refused};
use emission::Emitter;
use lowering::lower_expression;
use std::mem;
use tables::Tables;
use values::{Lowering, Value};

// The limit of that name in line_checks, which this crate does not lean on; another here would not prove.
const DEPTH_LIMIT: u64 = 64;

const TOO_LONG: Refused<Refusal> = Refused {
    refusal: Refusal::LongListing,
    line: 0,
};

/// Where the listing's halves end: the storages and narrowed ones; and behind them the instructions, the value and the last line.
#[derive(Clone, Copy, Debug, PartialEq, Eq)]
pub struct Sections {
    pub front: usize,
    pub end: usize,
}

/// The words lent to lower in: for the instructions, for the storages, a mark for each storage, and for the parts of values.
// What a slice ends as is known to its lender where a struct's own field holds it, and not where a struct within does (tried without this
// struct): so a run takes these out, and puts them back behind it. A refused one leaves none, so that they are enough for the tables is
// asked in each contract, and is no ghost field.
#[derive(Drop)]
pub struct Lent<'a> {
    pub code: &'a mut [u8],
    pub store: &'a mut [u8],
    pub narrowed: &'a mut [u64],
    pub stack: &'a mut [u64],
}

#[tactic(auto, using(crate::proofs::Laws::node_count, crate::proofs::Laws::root_meets))]
fn lower_root(tables: &Tables<'_>, l: &mut Lowering<'_>) -> Result<Value, Refused<Refusal>>
    requires { Starts (ticket_of tables.now.lines) l.old }
    ensures { MeetsValue l.old (lowered (ticket_of tables.now.lines)) l.new result }
{
    lower_expression(tables, l, tables.lines.counts.nodes - 1, DEPTH_LIMIT)
}

// Once all is lowered: narrowed storages are printed behind the storages, and the value and the last line behind the instructions.
#[tactic(auto, using(emission::specs::Appends::writes_long, emission::specs::Appends::writes_at, parts::specs::Records::are_records), unfolding(text::specs::Put::sat))]
fn finish(
    tables: &Tables<'_>,
    out: &mut Emitter<'_>,
    narrowed: &[u64],
    stack: &[u64],
    top: usize,
    value: Value,
) -> Sections
    requires { Printable tables.now.lines.counts.storages value stack.now top out.old }
    ensures { Finished tables.now.lines.counts.storages narrowed.now value stack.now top out.old out.new result }
{
    let older = tables.lines.counts.storages;
    printing::print_narrowed(&mut out.store, narrowed, older);
    printing::print_value(&mut out.code, value, &stack[..top]);
    let storages = out.storage - older;
    lir::print_done(&mut out.code, out.instructions, storages, out.temporary);
    let front = out.store.at;
    Sections {
        front,
        end: front.saturating_add(out.code.at),
    }
}

// Every refusal of lowering, or where the listing's halves end, with as much of them as the slices have room for.
fn run(tables: &Tables<'_>, lent: &mut Lent<'_>) -> Result<Sections, Refused<Refusal>>
    requires { (Ready (ticket_of tables.now.lines) lent.old.stack.now) × (tables.now.lines.counts.storages ≤ length lent.old.narrowed.now) × ((i : ℕ) → get_or lent.old.narrowed.now i 0 ≡ 0) }
    ensures measures { Measures (ticket_of tables.now.lines) lent.new.store.now lent.new.code.now result }
    ensures same { IfOk result (λ _. SameLent lent.old lent.new) }
{
    let none = Lent {
        code: &mut [],
        store: &mut [],
        narrowed: &mut [],
        stack: &mut [],
    };
    let Lent {
        code,
        store,
        narrowed,
        stack,
    } = mem::replace(lent, none);
    let mut l = Lowering {
        out: Emitter::new(
            code,
            store,
            tables.lines.counts.storages,
            tables.lines.counts.next,
        ),
        narrowed,
        stack,
        top: 0,
    };
    let value = lower_root(tables, &mut l)?;
    let Lowering {
        mut out,
        narrowed,
        stack,
        top,
    } = l;
    let m = finish(tables, &mut out, narrowed, stack, top, value);
    let Emitter { code, store, .. } = out;
    *lent = Lent {
        code: code.buf,
        store: store.buf,
        narrowed,
        stack,
    };
    Ok(m)
}

// The same over slices: these keep their lengths also where it is refused, and those of a struct don't.
fn measure(
    tables: &Tables<'_>,
    code: &mut [u8],
    store: &mut [u8],
    narrowed: &mut [u64],
    stack: &mut [u64],
) -> Result<Sections, Refused<Refusal>>
    requires { (Ready (ticket_of tables.now.lines) stack.old) × (tables.now.lines.counts.storages ≤ length narrowed.old) × ((i : ℕ) → get_or narrowed.old i 0 ≡ 0) }
    ensures { Measures (ticket_of tables.now.lines) store.new code.new result }
{
    let mut lent = Lent {
        code,
        store,
        narrowed,
        stack,
    };
    run(tables, &mut lent)
}

// The listing into a buffer that is long enough, both halves at a time: a run for each would print the value once more than it need be.
// What was lowered once is not refused.
// The whole buffer is split: where `buffer[..end]` is, it is not known what the buffer ends as.
fn write(
    tables: &Tables<'_>,
    narrowed: &mut [u64],
    stack: &mut [u64],
    buffer: &mut [u8],
    m: Sections,
)
    requires { (Ready (ticket_of tables.now.lines) stack.old) × (tables.now.lines.counts.storages ≤ length narrowed.old) × (Sectioned (ticket_of tables.now.lines) m) × (m.front ≤ m.end) × (m.end ≤ length buffer.old) }
    ensures { ListingPut (ticket_of tables.now.lines) buffer.old buffer.new }
{
    let Sections { front, end } = m;
    narrowed.fill(0);
    let (store, rest) = buffer.split_at_mut(front);
    let _ = measure(tables, &mut rest[..end - front], store, narrowed, stack);
}

// The library's copy would be C's memmove, which the archive for C then needs from outside.
fn copy_half(to: &mut [u8], from: &[u8])
    requires { length to.old ≡ length from.now }
    ensures { to.new ≡ from.now }
{
    for i in 0..from.len() {
        to[i] = from[i];
    }
}

// One half behind the other.
fn copy_halves(store: &[u8], code: &[u8], buffer: &mut [u8], front: usize, end: usize)
    requires { (front ≤ end) × (end ≤ length buffer.old) × (front ≤ length store.now) × (end - front ≤ length code.now) }
    ensures { buffer.new ≡ sets (sets buffer.old 0 (take front store.now)) front (take (end - front) code.now) }
{
    copy_half(&mut buffer[..front], &store[..front]);
    copy_half(&mut buffer[front..end], &code[..end - front]);
}

/// The listing of what was read, lowered and written, and its length.
#[tactic(auto, using(crate::proofs::Laws::ready_kept, crate::proofs::Laws::sectioned, crate::proofs::Laws::half_first, crate::proofs::Laws::answer_too_long))]
pub fn lower_tables(
    tables: &Tables<'_>,
    lent: Lent<'_>,
    buffer: &mut [u8],
) -> Result<usize, Refused<Refusal>>
    requires { (Ready (ticket_of tables.now.lines) lent.stack.now) × (tables.now.lines.counts.storages ≤ length lent.narrowed.now) × ((i : ℕ) → get_or lent.narrowed.now i 0 ≡ 0) }
    ensures { Answers (of_lowering (ticket_of tables.now.lines) (length buffer.old) (lowered (ticket_of tables.now.lines))) buffer.old buffer.new result }
{
    let Lent {
        code,
        store,
        narrowed,
        stack,
    } = lent;
    let m = measure(tables, code, store, narrowed, stack)?;
    let end = m.end;
    if buffer.len() < end {
        return Err(TOO_LONG);
    }
    if m.front <= store.len() && end - m.front <= code.len() {
        copy_halves(store, code, buffer, m.front, end);
    } else {
        write(tables, narrowed, stack, buffer, m);
    }
    Ok(end)
}
