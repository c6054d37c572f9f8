// Steps of a node over values that are lowered already. A step that looks at a value's head alone is given the head.
#![tactic(auto)]

ghost use Rattle.std.specs.Prelude.{◌≡◌, ℕ, ◌<◌, IfSome, Ok};
ghost use Rattle.std.specs.Option.{option_map};
ghost use Rattle.spec.specs.Hir as hir;
ghost use Rattle.spec.specs.Hir.{boolean, null_pointer};
ghost use Rattle.spec.specs.Ticket as ticket;
ghost use Rattle.spec.specs.Ticket.{Tables as Ticket, place_at};
ghost use Rattle.spec.specs.Readable.{TypesRight};
ghost use Rattle.spec.specs.Allocation.{type_size, odd_bits};
ghost use Rattle.spec.specs.Operands.{value_repr, repr_bytes, repr_bit};
ghost use Rattle.spec.specs.Operators.{compare_op};
ghost use Rattle.spec.specs.Conversions.{not_zero, value_as_bit, integer_to_bool, lower_compare};
ghost use Rattle.spec.specs.Lower.{lower_integer, lower_read, lower_expression};
ghost use Rattle.spec.specs.Places.{is_one};
ghost use Rattle.spec.specs.Select.{materialize_location_address, lower_static_address, lower_function_address, lower_address_of};
ghost use Rattle.lir.specs.Abstract.{bytes_of, bit_operand_of, compare_op_of, purpose_of, Small};
ghost use Rattle.tables.specs.Tables.{owner_at};
ghost use Rattle.tables.specs.Ticket.{ticket_of};
ghost use Rattle.emission.specs.Appends.{Room, Keeps};
ghost use Rattle.emission.specs.Forms.{HasWidth};
ghost use Rattle.emission.specs.Temporaries.{location};
ghost use Rattle.values.specs.declared.Lowering.{Lowering as State};
ghost use Rattle.values.specs.Heads.{head_of, flat_of, Sound_value};
ghost use Rattle.values.specs.Left.{counters_in, marked, Holds, SameMarks, SameStack, MeetsValue, MeetsBit};
ghost use Rattle.reads.specs.Reading.{at_of, TypeRoom};
ghost use Rattle.steps.specs.Steps.{constant_of, bool_in, pointer_in, narrowed_by, MeetsStorage};
ghost use Rattle.steps.specs.Temporaries.{masked, RoomFor, MeetsNew};

use answers::{Refusal, Refused};
use emission::Emitter;
use lir::{BitOperand, ByteStorage, Bytes, CompareOp, Destinations, Purpose, Source, StorageId};
use reads::At;
use tables::{Lines, Tables, TypeKind};
use values::{Lowering, Repr, Value};

// ---------------------------------------------------------------- what a value's head holds

// The Rust's `value_bytes` and `value_bit`. One function for both would be handed this match as a closure, and nothing would be left of it.

/// A value's bytes, if it has such.
pub fn value_bytes(v: Value) -> Option<Bytes>
    requires { Sound_value v }
    ensures bytes { repr_bytes (value_repr (flat_of (head_of v))) ≡ option_map bytes_of result }
    ensures small { IfSome result Small }
{
    match v.repr {
        Repr::Bytes(b) => Some(b),
        _ => None,
    }
}

/// A value's bit, if it has one.
pub fn value_bit(v: Value) -> Option<BitOperand>
    ensures { repr_bit (value_repr (flat_of (head_of v))) ≡ option_map bit_operand_of result }
{
    match v.repr {
        Repr::Bit(b) => Some(b),
        _ => None,
    }
}

// ---------------------------------------------------------------- constants

fn constant(ty: u64, v: u64, size: u64) -> Value
    ensures { result ≡ constant_of ty v size }
{
    Value {
        ty,
        repr: Repr::Bytes(Bytes {
            source: Source::Constant(v),
            count: size,
            total: size,
        }),
    }
}

/// A constant has 16 bytes at most.
#[tactic(auto, using(crate::proofs::Asks::told_stops, crate::proofs::Laws::integer_meets, crate::proofs::Laws::integer_refused))]
pub fn lower_integer(lines: &Lines<'_>, v: u64, ty: u64, h: At) -> Result<Value, Refused<Refusal>>
    ensures { (l : State) → MeetsValue l (lower_integer (ticket_of lines.now) v ty (at_of h) (counters_in l)) l result }
{
    let size = lines.type_size(ty);
    if 16 < size {
        return Err(h.refuse(Refusal::LongInteger));
    }
    Ok(constant(ty, v, size))
}

pub fn lower_null(h: At) -> Value
    ensures { (T : Ticket) (from : hir.At) (l : State) → MeetsValue l (lower_expression T (null_pointer (at_of h)) from (counters_in l)) l (Ok result) }
{
    constant(h.ty, 0, 2)
}

pub fn lower_bool(v: u64, h: At) -> Value
    ensures { (T : Ticket) (from : hir.At) (l : State) → MeetsValue l (lower_expression T (boolean (at_of h) v) from (counters_in l)) l (Ok result) }
{
    Value {
        ty: h.ty,
        repr: Repr::Bit(BitOperand::Constant(v)),
    }
}

// ---------------------------------------------------------------- widths

#[tactic(auto, using(crate::proofs::Laws::has_width, crate::proofs::Laws::no_width))]
pub fn integer_width(lines: &Lines<'_>, ty: u64) -> Option<u64>
    ensures { HasWidth (ticket_of lines.now) ty result }
{
    match lines.type_at(ty) {
        TypeKind::Bits(n) => Some(n),
        TypeKind::Pointer => Some(16),
        _ => None,
    }
}

/// How many bits of its last byte a type has; 0 where it has all of them. A pointer's width is a multiple of 8.
pub fn odd_bits(tables: &Tables<'_>, ty: u64) -> u64
    ensures is { odd_bits (ticket_of tables.now.lines) ty ≡ result }
    ensures few { result < 8 }
{
    integer_width(&tables.lines, ty).map_or(0, |width| width % 8)
}

// ---------------------------------------------------------------- a new temporary, filled by others

/// A new temporary of the node's type, which has bytes; a Bool has none.
pub fn byte_temporary(
    tables: &Tables<'_>,
    out: &mut Emitter<'_>,
    h: At,
) -> Result<Destinations, Refused<Refusal>>
    requires { Room 1 out.old }
    ensures meets { MeetsNew (ticket_of tables.now.lines) (at_of h) out.old out.new result }
    ensures keeps { Keeps out.old out.new }
{
    if h.ty == 0 {
        return Err(h.refuse(Refusal::UnsupportedExpression));
    }
    let count = tables.lines.type_size(h.ty);
    let storage = out
        .allocate_temporary(h.ty, count)
        .map_err(|r| h.refuse(r))?;
    Ok(Destinations { storage, count })
}

/// A temporary's value; its last byte keeps the odd bits of the node's type.
pub fn masked(
    tables: &Tables<'_>,
    l: &mut Lowering<'_>,
    d: Destinations,
    h: At,
) -> Result<Value, Refused<Refusal>>
    requires { (d.count ≡ type_size (ticket_of tables.now.lines) h.ty) × (RoomFor 1026 (ticket_of tables.now.lines) (at_of h) l.old) }
    ensures meets { MeetsValue l.old (masked (ticket_of tables.now.lines) (location d.storage.0 h.ty) (at_of h) (counters_in l.old)) l.new result }
    ensures holds { Holds l.old l.new }
    ensures marks { SameMarks l.old l.new }
{
    let odd = odd_bits(tables, h.ty);
    l.out.mask_location(d, odd);
    reads::read_temporary(tables, l, d.storage, h.ty, h)
}

// ---------------------------------------------------------------- bits

// The bit in a storage.
fn bool_value(id: StorageId) -> Value
    ensures { result ≡ bool_in id }
{
    Value {
        ty: 0,
        repr: Repr::Bit(BitOperand::Storage(id)),
    }
}

// Whether a number is not 0, as a new bit.
fn not_zero(
    lines: &Lines<'_>,
    l: &mut Lowering<'_>,
    purpose: Purpose,
    v: Value,
    h: At,
) -> Result<StorageId, Refused<Refusal>>
    requires { (Sound_value v) × (Room 2 l.old.out) }
    ensures meets { h.node.0 ≡ l.old.out.node.0 → MeetsStorage l.old (not_zero (ticket_of lines.now) (purpose_of purpose) (flat_of (head_of v)) (at_of h) (counters_in l.old)) l.new result }
    ensures holds { Holds l.old l.new }
    ensures marks { SameMarks l.old l.new }
    ensures stack { SameStack l.old l.new }
{
    let width = integer_width(lines, v.ty).ok_or(h.refuse(Refusal::UnsupportedType))?;
    let number = value_bytes(v).ok_or(h.refuse(Refusal::UnsupportedExpression))?;
    Ok(l.out.not_zero(purpose, width, number))
}

/// A value as a bit: its own, or whether it is not 0.
#[tactic(auto, using(values::specs::Laws::left_none, crate::proofs::Asks::shows_stops), unfolding(spec::specs::Conversions::value_as_bit))]
pub fn value_as_bit(
    lines: &Lines<'_>,
    l: &mut Lowering<'_>,
    v: Value,
    h: At,
) -> Result<BitOperand, Refused<Refusal>>
    requires { (Sound_value v) × (Room 2 l.old.out) }
    ensures meets { h.node.0 ≡ l.old.out.node.0 → MeetsBit l.old (value_as_bit (ticket_of lines.now) (flat_of (head_of v)) (at_of h) (counters_in l.old)) l.new result }
    ensures holds { Holds l.old l.new }
    ensures marks { SameMarks l.old l.new }
    ensures stack { SameStack l.old l.new }
{
    if let Some(b) = value_bit(v) {
        return Ok(b);
    }
    let id = not_zero(lines, l, Purpose::Condition, v, h)?;
    Ok(BitOperand::Storage(id))
}

pub fn integer_to_bool(
    lines: &Lines<'_>,
    l: &mut Lowering<'_>,
    v: Value,
    h: At,
) -> Result<Value, Refused<Refusal>>
    requires { (Sound_value v) × (Room 2 l.old.out) }
    ensures meets { h.node.0 ≡ l.old.out.node.0 → MeetsValue l.old (integer_to_bool (ticket_of lines.now) (flat_of (head_of v)) (at_of h) (counters_in l.old)) l.new result }
    ensures holds { Holds l.old l.new }
    ensures marks { SameMarks l.old l.new }
    ensures stack { SameStack l.old l.new }
{
    let id = not_zero(lines, l, Purpose::IntegerToBoolean, v, h)?;
    Ok(bool_value(id))
}

// ---------------------------------------------------------------- comparing

/// How numbers are compared, by the operator's number in the ticket; floats are not.
// A match on a number: operators stand by their numbers in the ticket's words, which are lent.
#[tactic(auto, using(crate::proofs::Laws::operators), unfolding(spec::specs::Operators::compare_op))]
pub fn compare_op(op: u64) -> Option<CompareOp>
    ensures { compare_op (ticket.compare_op op) ≡ option_map compare_op_of result }
{
    match op {
        0 => Some(CompareOp::Equal),
        1 => Some(CompareOp::NotEqual),
        2 => Some(CompareOp::LessThanSigned),
        3 => Some(CompareOp::LessThanUnsigned),
        4 => Some(CompareOp::LessThanOrEqualSigned),
        5 => Some(CompareOp::LessThanOrEqualUnsigned),
        6 => Some(CompareOp::GreaterThanSigned),
        7 => Some(CompareOp::GreaterThanUnsigned),
        8 => Some(CompareOp::GreaterThanOrEqualSigned),
        9 => Some(CompareOp::GreaterThanOrEqualUnsigned),
        10..=15 => None,
        _ => Some(CompareOp::Equal),
    }
}

/// The width is looked at before the operands, and the operator last.
pub fn lower_compare(
    lines: &Lines<'_>,
    l: &mut Lowering<'_>,
    op: u64,
    left: Value,
    right: Value,
    h: At,
) -> Result<Value, Refused<Refusal>>
    requires { (Sound_value left) × (Sound_value right) × (Room 2 l.old.out) }
    ensures meets { h.node.0 ≡ l.old.out.node.0 → MeetsValue l.old (lower_compare (ticket_of lines.now) (ticket.compare_op op) (flat_of (head_of left)) (flat_of (head_of right)) (at_of h) (counters_in l.old)) l.new result }
    ensures holds { Holds l.old l.new }
    ensures marks { SameMarks l.old l.new }
    ensures stack { SameStack l.old l.new }
{
    let width = integer_width(lines, left.ty).ok_or(h.refuse(Refusal::UnsupportedType))?;
    let a = value_bytes(left).ok_or(h.refuse(Refusal::UnsupportedExpression))?;
    let b = value_bytes(right).ok_or(h.refuse(Refusal::UnsupportedExpression))?;
    let op = compare_op(op).ok_or(h.refuse(Refusal::UnsupportedExpression))?;
    Ok(bool_value(l.out.compare(op, width, a, b)))
}

// ---------------------------------------------------------------- reading

/// The value of type ty that place line p leads to.
pub fn lower_read(
    tables: &Tables<'_>,
    l: &mut Lowering<'_>,
    depth: u64,
    p: u64,
    ty: u64,
    h: At,
) -> Result<Value, Refused<Refusal>>
    requires { TypeRoom (ticket_of tables.now.lines) h.node.0 ty 0 l.old }
    ensures meets { MeetsValue l.old (lower_read (ticket_of tables.now.lines) (place_at depth (ticket_of tables.now.lines) p) ty (at_of h) (counters_in l.old)) l.new result }
    ensures holds { Holds l.old l.new }
    ensures marks { SameMarks l.old l.new }
{
    let found = places::resolve_place(tables, depth, p, ty).map_err(|r| h.refuse(r))?;
    reads::read_location(tables, l, found, h)
}

// ---------------------------------------------------------------- addresses

/// The two bytes of a new pointer, as a value.
pub fn pointer_value(id: StorageId) -> Value
    ensures { result ≡ pointer_in id }
{
    Value {
        ty: 1,
        repr: Repr::Bytes(Bytes {
            source: Source::Storage(ByteStorage {
                storage: id,
                offset: 0,
            }),
            count: 2,
            total: 2,
        }),
    }
}

pub fn lower_function_address(l: &mut Lowering<'_>, f: u64) -> Value
    requires { Room 2 l.old.out }
    ensures meets { (T : Ticket) (h : hir.At) → TypesRight T → h.node ≡ l.old.out.node.0 → MeetsValue l.old (lower_function_address T f h (counters_in l.old)) l.new (Ok result) }
    ensures holds { Holds l.old l.new }
    ensures marks { SameMarks l.old l.new }
    ensures stack { SameStack l.old l.new }
{
    let pointer = addressing::allocate_pointer(&mut l.out);
    addressing::function_address(&mut l.out, pointer, f);
    pointer_value(pointer)
}

// Marks a storage of the function's own.
#[tactic(auto, using(crate::proofs::Pointers::narrow_in, crate::proofs::Pointers::narrow_out, crate::proofs::Pointers::narrow_not))]
fn narrow(lines: &Lines<'_>, narrowed: &mut [u64], s: StorageId)
    ensures { narrowed.new ≡ marked narrowed.old (narrowed_by (is_one (owner_at lines.now.rows.now lines.now.lists.now lines.now.counts s.0)) s.0) }
{
    if lines.storage_owner(s.0) == 1 {
        let at = s.0 as usize;
        if at < narrowed.len() {
            narrowed[at] = 1;
        }
    }
}

// The address of byte o of a storage, in a new pointer; a bit has none.
fn storage_address(
    lines: &Lines<'_>,
    l: &mut Lowering<'_>,
    storage: StorageId,
    bit: bool,
    o: u64,
    h: At,
) -> Result<Value, Refused<Refusal>>
    requires { Room 2 l.old.out }
    ensures meets { TypesRight (ticket_of lines.now) → h.node.0 ≡ l.old.out.node.0 → MeetsValue l.old (materialize_location_address (ticket_of lines.now) storage.0 bit o (at_of h) (counters_in l.old)) l.new result }
    ensures holds { Holds l.old l.new }
    ensures stack { SameStack l.old l.new }
{
    if bit {
        return Err(h.refuse(Refusal::InvalidPlace));
    }
    narrow(lines, l.narrowed, storage);
    let pointer = addressing::allocate_pointer(&mut l.out);
    addressing::address_of(&mut l.out, pointer, storage, o);
    Ok(pointer_value(pointer))
}

/// The static's own offset is not added.
pub fn lower_static_address(
    lines: &Lines<'_>,
    l: &mut Lowering<'_>,
    k: u64,
    o: u64,
    h: At,
) -> Result<Value, Refused<Refusal>>
    requires { Room 2 l.old.out }
    ensures meets { TypesRight (ticket_of lines.now) → h.node.0 ≡ l.old.out.node.0 → MeetsValue l.old (lower_static_address (ticket_of lines.now) k o (at_of h) (counters_in l.old)) l.new result }
    ensures holds { Holds l.old l.new }
    ensures stack { SameStack l.old l.new }
{
    let p = lines.static_at(k).ok_or(h.refuse(Refusal::UnknownPlace))?;
    storage_address(lines, l, StorageId(p.storage), p.bit == 1, o, h)
}

/// The address that place line p leads to.
pub fn lower_address_of(
    tables: &Tables<'_>,
    l: &mut Lowering<'_>,
    depth: u64,
    p: u64,
    h: At,
) -> Result<Value, Refused<Refusal>>
    requires { Room 2 l.old.out }
    ensures meets { h.node.0 ≡ l.old.out.node.0 → MeetsValue l.old (lower_address_of (ticket_of tables.now.lines) (place_at depth (ticket_of tables.now.lines) p) (at_of h) (counters_in l.old)) l.new result }
    ensures holds { Holds l.old l.new }
    ensures stack { SameStack l.old l.new }
{
    let base = places::resolve_addressed_place(tables, depth, p).map_err(|r| h.refuse(r))?;
    storage_address(&tables.lines, l, base.storage, base.bit, base.offset, h)
}
