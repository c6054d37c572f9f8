// `lower_select` over two values whose parts stand on the lent stack: an instruction for each of their operands.
#![tactic(auto)]

ghost use Rattle.std.specs.Prelude.{◌≡◌, ◌∷◌, ◌≤◌, ◌*◌, length};
ghost use Rattle.spec.specs.Select.{select_as_byte, select_piece, select_pieces};
ghost use Rattle.lir.specs.Abstract.{tab, byte_storage_of, bit_operand_of, Small};
ghost use Rattle.tables.specs.Ticket.{ticket_of};
ghost use Rattle.emission.specs.Appends.{Room};
ghost use Rattle.emission.specs.Emits.{Emits};
ghost use Rattle.emission.specs.Does.{Does, Meets};
ghost use Rattle.values.specs.Heads.{head_of, operands_of, Sound_value};
ghost use Rattle.values.specs.Left.{counters_in, Holds, SameMarks, MeetsValue};
ghost use Rattle.values.specs.Stack.{Stands, heads, selects};
ghost use Rattle.parts.specs.Operands.{operand_of};
ghost use Rattle.parts.specs.Records.{AreRecords, heads_in};
ghost use Rattle.reads.specs.Reading.{at_of, StepRoom};
ghost use Rattle.selects.specs.Selecting.{target_of, count_of, targets, byte_selected};

use answers::{Refusal, Refused};
use emission::Emitter;
use lir::{BitOperand, ByteStorage, Bytes, Destinations, InstructionKind, Purpose, StorageId};
use parts::{Operand, Operands};
use reads::At;
use tables::Tables;
use values::{Lowering, Repr, Value};

// What a select goes into: a bit, or the bytes of a temporary.
#[derive(Clone, Copy)]
enum Targets {
    Bit(StorageId),
    Bytes(Destinations),
}

impl Targets {
    ghost use Rattle.selects.specs.Selecting.{count_of};

    fn count(self) -> u64
        ensures { result ≡ count_of self }
    {
        match self {
            Targets::Bit(_) => 1,
            Targets::Bytes(to) => to.count,
        }
    }
}

// The whole of a temporary.
#[tactic(auto, unfolding(crate::specs::Selecting::targets))]
fn targets_of(storage: StorageId, ty: u64, size: u64) -> Targets
    ensures is { tab (target_of result) 0 (count_of result) ≡ targets storage.0 ty size }
    ensures few { size ≤ 1024 → count_of result ≤ 1024 }
{
    match ty {
        0 => Targets::Bit(storage),
        _ => Targets::Bytes(Destinations {
            storage,
            count: size,
        }),
    }
}

// ---------------------------------------------------------------- pieces

fn byte_of(to: Destinations, i: u64) -> ByteStorage
    ensures { result ≡ record { storage = to.storage; offset = i } }
{
    ByteStorage {
        storage: to.storage,
        offset: i,
    }
}

// Two bits for a byte: one of them is chosen into a new bit, and that becomes the byte.
fn select_as_byte(
    out: &mut Emitter<'_>,
    to: ByteStorage,
    c: BitOperand,
    t: BitOperand,
    f: BitOperand,
)
    requires { Room 2 out.old }
    ensures { Does 2 out.old (select_as_byte (bit_operand_of c) (byte_storage_of to) (bit_operand_of t) (bit_operand_of f)) tt out.new }
{
    let bit = out.allocate_bit_temporary(Purpose::SelectBool);
    out.emit(InstructionKind::SelectBit(bit, c, t, f));
    out.emit(InstructionKind::BitToByte(to, BitOperand::Storage(bit)));
}

// Operands of one kind into a destination of that kind, or two bits into a byte.
#[tactic(auto, using(crate::proofs::Laws::piece_made, crate::proofs::Laws::piece_unlike, crate::proofs::Laws::piece_done), unfolding(spec::specs::Select::select_piece))]
fn select_piece(
    out: &mut Emitter<'_>,
    to: Targets,
    i: u64,
    c: BitOperand,
    t: Operand,
    f: Operand,
) -> Result<(), Refusal>
    requires { Room 2 out.old }
    ensures { Meets 2 out.old (select_piece (bit_operand_of c) (target_of to i) (operand_of t) (operand_of f)) out.new result }
{
    match (to, t, f) {
        (Targets::Bit(to), Operand::Bit(x), Operand::Bit(y)) => {
            out.emit(InstructionKind::SelectBit(to, c, x, y));
        }
        (Targets::Bytes(to), Operand::Byte(x), Operand::Byte(y)) => {
            out.emit(InstructionKind::SelectByte(byte_of(to, i), c, x, y));
        }
        (Targets::Bytes(to), Operand::Bit(x), Operand::Bit(y)) => {
            select_as_byte(out, byte_of(to, i), c, x, y);
        }
        _ => return Err(Refusal::UnsupportedExpression),
    }
    Ok(())
}

// All destinations, as far as both sides go. By `next`, and no `zip`: the definition has a clause for the end of each side.
#[tactic(auto, using(crate::proofs::Laws::rest_all, crate::proofs::Laws::rest_room))]
fn select_pieces(
    out: &mut Emitter<'_>,
    to: Targets,
    c: BitOperand,
    left: &mut Operands<'_>,
    right: &mut Operands<'_>,
) -> Result<(), Refusal>
    requires { Room (2 * count_of to) out.old }
    ensures { Meets (2 * count_of to) out.old (select_pieces (bit_operand_of c) (tab (target_of to) 0 (count_of to)) left.old right.old) out.new result }
{
    for i in 0..to.count() {
        let Some(x) = left.next() else {
            return Ok(());
        };
        let Some(y) = right.next() else {
            return Ok(());
        };
        select_piece(out, to, i, c, x, y)?;
    }
    Ok(())
}

// The first n bytes of both sides. By `emit_each` the select over 680 bytes took half as long again.
#[tactic(auto, using(lir::specs::Tab::length_tab, emission::specs::Emits::room_emitted))]
fn select_bytes(out: &mut Emitter<'_>, to: StorageId, n: u64, c: BitOperand, t: Bytes, f: Bytes)
    requires { (Small t) × (Small f) × (Room n out.old) }
    ensures { Emits out.old (tab (byte_selected to.0 (bit_operand_of c) t f) 0 n) out.new }
{
    for i in 0..n {
        let byte = ByteStorage {
            storage: to,
            offset: i,
        };
        let (x, y) = (lir::byte_at(t, i), lir::byte_at(f, i));
        out.emit(InstructionKind::SelectByte(byte, c, x, y));
    }
}

// ---------------------------------------------------------------- two values

// All destinations. Two values of bytes alone have no records to look for.
#[tactic(auto, using(crate::proofs::Laws::pieces_bytes, crate::proofs::Laws::bytes_alone, crate::proofs::Laws::shortest))]
fn select_values(
    out: &mut Emitter<'_>,
    to: Targets,
    c: BitOperand,
    t: Value,
    first: &[u64],
    f: Value,
    second: &[u64],
) -> Result<(), Refusal>
    requires { (Sound_value t) × (Sound_value f) × (AreRecords first.now) × (AreRecords second.now) × (Room (2 * count_of to) out.old) }
    ensures { Meets (2 * count_of to) out.old (select_pieces (bit_operand_of c) (tab (target_of to) 0 (count_of to)) (operands_of (head_of t ∷ heads_in first.now)) (operands_of (head_of f ∷ heads_in second.now))) out.new result }
{
    if first.is_empty() && second.is_empty() {
        if let (Targets::Bytes(to), Repr::Bytes(x), Repr::Bytes(y)) = (to, t.repr, f.repr) {
            select_bytes(out, to.storage, to.count.min(x.total).min(y.total), c, x, y);
            return Ok(());
        }
    }
    let mut left = Operands::new(t, first);
    let mut right = Operands::new(f, second);
    select_pieces(out, to, c, &mut left, &mut right)
}

/// The parts of t stand from the top to `middle`, those of f from there to `end`; both are gone through before the temporary's parts are
/// stored there.
pub fn lower_select(
    tables: &Tables<'_>,
    l: &mut Lowering<'_>,
    c: BitOperand,
    t: Value,
    f: Value,
    middle: usize,
    end: usize,
    h: At,
) -> Result<Value, Refused<Refusal>>
    requires { (StepRoom (ticket_of tables.now.lines) h.node.0 h.ty l.old) × (Sound_value t) × (Sound_value f) × (Stands l.old.stack.now l.old.top middle) × (Stands l.old.stack.now middle end) × (l.old.top ≤ middle) × (middle ≤ end) × (end ≤ length l.old.stack.now) }
    ensures meets { MeetsValue l.old (selects (ticket_of tables.now.lines) (bit_operand_of c) t.ty (operands_of (head_of t ∷ heads l.old.stack.now l.old.top middle)) f.ty (operands_of (head_of f ∷ heads l.old.stack.now middle end)) h.ty (at_of h) (counters_in l.old)) l.new result }
    ensures holds { Holds l.old l.new }
    ensures marks { SameMarks l.old l.new }
{
    let size = tables.lines.type_size(h.ty);
    let to = l
        .out
        .allocate_temporary(h.ty, size)
        .map_err(|r| h.refuse(r))?;
    if t.ty != f.ty || t.ty != h.ty {
        return Err(h.refuse(Refusal::TypeMismatch));
    }
    let targets = targets_of(to, h.ty, size);
    // The parts are read while instructions are appended: the stack is taken out meanwhile.
    let top = l.top;
    let stack = std::mem::take(&mut l.stack);
    let first = &stack[top..middle];
    let second = &stack[middle..end];
    let selected = select_values(&mut l.out, targets, c, t, first, f, second);
    l.stack = stack;
    selected.map_err(|r| h.refuse(r))?;
    reads::read_temporary(tables, l, to, h.ty, h)
}
