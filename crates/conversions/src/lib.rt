// `lower_conversion` and `lower_pointer_offset`, over values that are lowered already. What is not a value's own bytes stands in a new
// temporary, which is filled, masked where its type has odd bits, and read.
#![tactic(auto)]

ghost use Rattle.std.specs.Prelude.{◌≡◌};
ghost use Rattle.spec.specs.Ticket as ticket;
ghost use Rattle.spec.specs.Ticket.{Tables as Ticket};
ghost use Rattle.spec.specs.Readable.{TypesRight};
ghost use Rattle.spec.specs.Operators.{conversion_form, reinterpreting};
ghost use Rattle.spec.specs.Conversions.{normalized_bytes, resized, sign_extended, boolean_to_integer, lower_conversion};
ghost use Rattle.spec.specs.Select.{lower_pointer_offset};
ghost use Rattle.lir.specs.Abstract.{bytes_of, Small};
ghost use Rattle.tables.specs.Ticket.{ticket_of};
ghost use Rattle.emission.specs.Appends.{Room};
ghost use Rattle.values.specs.Heads.{head_of, flat_of, Sound_value};
ghost use Rattle.values.specs.Left.{counters_in, Holds, SameMarks, SameStack, MeetsValue};
ghost use Rattle.reads.specs.Reading.{at_of, StepRoom};
ghost use Rattle.conversions.specs.Converting.{Resizes, form_of, Reinterprets, reinterpreted_of};

use answers::{Refusal, Refused};
use emission::Operands;
use lir::{Bytes, Destinations, InstructionKind, Purpose};
use reads::At;
use tables::{Lines, Tables};
use values::{Lowering, Repr, Value};

// How an operator converts: a variant for each arm of the `match` on it in the Rust's `lower_conversion`, so that the two can be held side
// by side. Asked twice: by `is_reinterpret` before the operand is lowered, and then by `lower_conversion`.
#[derive(Clone, Copy, PartialEq, Eq)]
pub enum Form {
    Resizing,
    ExtendingSign,
    Reinterpreting,
    FromBoolean,
    ToBoolean,
    OfFloat,
}

// ---------------------------------------------------------------- truncation and zero extension

/// Bytes left off behind the n-th, or zeros behind the last. A run that is longer than its bytes ends with them.
#[tactic(auto, using(crate::proofs::Laws::resizes))]
pub fn resize(b: Bytes, n: u64) -> Bytes
    ensures { Resizes b n result }
{
    Bytes {
        source: b.source,
        count: b.count.min(b.total),
        total: n,
    }
}

// Bytes as a value: themselves, or where the type has odd bits a copy without the others.
fn normalized_bytes(
    tables: &Tables<'_>,
    l: &mut Lowering<'_>,
    b: Bytes,
    h: At,
) -> Result<Value, Refused<Refusal>>
    requires { (Small b) × (StepRoom (ticket_of tables.now.lines) h.node.0 h.ty l.old) }
    ensures meets { MeetsValue l.old (normalized_bytes (ticket_of tables.now.lines) h.ty (bytes_of b) (at_of h) (counters_in l.old)) l.new result }
    ensures holds { Holds l.old l.new }
    ensures marks { SameMarks l.old l.new }
{
    if steps::odd_bits(tables, h.ty) == 0 {
        return Ok(Value {
            ty: h.ty,
            repr: Repr::Bytes(b),
        });
    }
    let to = steps::byte_temporary(tables, &mut l.out, h)?;
    l.out.each_byte(to, b, InstructionKind::CopyByte);
    steps::masked(tables, l, to, h)
}

#[tactic(auto, using(crate::proofs::Filled::size_fits))]
fn resized(
    tables: &Tables<'_>,
    l: &mut Lowering<'_>,
    v: Value,
    h: At,
) -> Result<Value, Refused<Refusal>>
    requires { (Sound_value v) × (StepRoom (ticket_of tables.now.lines) h.node.0 h.ty l.old) }
    ensures meets { MeetsValue l.old (resized (ticket_of tables.now.lines) (flat_of (head_of v)) h.ty (at_of h) (counters_in l.old)) l.new result }
    ensures holds { Holds l.old l.new }
    ensures marks { SameMarks l.old l.new }
{
    let b = steps::value_bytes(v).ok_or(h.refuse(Refusal::UnsupportedExpression))?;
    normalized_bytes(tables, l, resize(b, tables.lines.type_size(h.ty)), h)
}

// ---------------------------------------------------------------- sign extension, and from a Bool

// The width is looked at before the operand.
fn sign_extended(
    tables: &Tables<'_>,
    l: &mut Lowering<'_>,
    v: Value,
    h: At,
) -> Result<Value, Refused<Refusal>>
    requires { (Sound_value v) × (StepRoom (ticket_of tables.now.lines) h.node.0 h.ty l.old) }
    ensures meets { MeetsValue l.old (sign_extended (ticket_of tables.now.lines) (flat_of (head_of v)) h.ty (at_of h) (counters_in l.old)) l.new result }
    ensures holds { Holds l.old l.new }
    ensures marks { SameMarks l.old l.new }
{
    let width = steps::integer_width(&tables.lines, v.ty).ok_or(h.refuse(
        Refusal::UnsupportedType,
    ))?;
    let b = steps::value_bytes(v).ok_or(h.refuse(Refusal::UnsupportedExpression))?;
    let to = steps::byte_temporary(tables, &mut l.out, h)?;
    l.out.sign_extend(width, to, b);
    steps::masked(tables, l, to, h)
}

fn boolean_to_integer(
    tables: &Tables<'_>,
    l: &mut Lowering<'_>,
    v: Value,
    h: At,
) -> Result<Value, Refused<Refusal>>
    requires { StepRoom (ticket_of tables.now.lines) h.node.0 h.ty l.old }
    ensures meets { MeetsValue l.old (boolean_to_integer (ticket_of tables.now.lines) (flat_of (head_of v)) h.ty (at_of h) (counters_in l.old)) l.new result }
    ensures holds { Holds l.old l.new }
    ensures marks { SameMarks l.old l.new }
{
    let b = steps::value_bit(v).ok_or(h.refuse(Refusal::UnsupportedExpression))?;
    let to = steps::byte_temporary(tables, &mut l.out, h)?;
    l.out.bit_to_bytes(to, b);
    reads::read_temporary(tables, l, to.storage, h.ty, h)
}

// ---------------------------------------------------------------- all conversions

// By the operator's number in the ticket; a number behind the last counts as the first. A match on a number: operators stand by their
// numbers in the ticket's words, which are lent.
#[tactic(auto, using(crate::proofs::Laws::operators), unfolding(spec::specs::Operators::conversion_form))]
fn conversion_form(op: u64) -> Form
    ensures { conversion_form (ticket.conversion_op op) ≡ form_of result }
{
    match op {
        0 | 1 => Form::Resizing,
        2 => Form::ExtendingSign,
        3..=10 => Form::OfFloat,
        11 => Form::Reinterpreting,
        12 => Form::FromBoolean,
        13 => Form::ToBoolean,
        _ => Form::Resizing,
    }
}

/// Whether a conversion, by its operator's number in the ticket, is `reinterpreted`.
pub fn is_reinterpret(op: u64) -> bool
    ensures { Reinterprets op result }
{
    conversion_form(op) == Form::Reinterpreting
}

/// A value under a type of the same size; its parts stay where they are.
#[tactic(auto, unfolding(crate::specs::Converting::reinterpreted_of))]
pub fn reinterpreted(lines: &Lines<'_>, v: Value, h: At) -> Result<Value, Refused<Refusal>>
    ensures { result ≡ reinterpreted_of lines.now.rows.now lines.now.counts v h }
{
    if lines.type_size(v.ty) != lines.type_size(h.ty) {
        return Err(h.refuse(Refusal::TypeMismatch));
    }
    Ok(Value {
        ty: h.ty,
        repr: v.repr,
    })
}

/// Only a value under another type has parts; the other conversions look at its head alone.
#[tactic(auto, unfolding(spec::specs::Conversions::lower_conversion))]
pub fn lower_conversion(
    tables: &Tables<'_>,
    l: &mut Lowering<'_>,
    op: u64,
    v: Value,
    h: At,
) -> Result<Value, Refused<Refusal>>
    requires { (Sound_value v) × (StepRoom (ticket_of tables.now.lines) h.node.0 h.ty l.old) }
    ensures meets { (conversion_form (ticket.conversion_op op) ≡ reinterpreting → ⊥) → MeetsValue l.old (lower_conversion (ticket_of tables.now.lines) (ticket.conversion_op op) (flat_of (head_of v)) h.ty (at_of h) (counters_in l.old)) l.new result }
    ensures holds { Holds l.old l.new }
    ensures marks { SameMarks l.old l.new }
{
    match conversion_form(op) {
        Form::Resizing => resized(tables, l, v, h),
        Form::ExtendingSign => sign_extended(tables, l, v, h),
        Form::Reinterpreting => reinterpreted(&tables.lines, v, h),
        Form::FromBoolean => boolean_to_integer(tables, l, v, h),
        Form::ToBoolean => steps::integer_to_bool(&tables.lines, l, v, h),
        Form::OfFloat => Err(h.refuse(Refusal::UnsupportedExpression)),
    }
}

// ---------------------------------------------------------------- pointers

/// Two bytes added to two, as a new pointer. The base has two bytes at least, of which no more are looked at.
pub fn lower_pointer_offset(
    l: &mut Lowering<'_>,
    base: Value,
    offset: Value,
    h: At,
) -> Result<Value, Refused<Refusal>>
    requires { (Sound_value base) × (Sound_value offset) × (Room 4096 l.old.out) }
    ensures meets { (T : Ticket) → TypesRight T → h.node.0 ≡ l.old.out.node.0 → MeetsValue l.old (lower_pointer_offset T (flat_of (head_of base)) (flat_of (head_of offset)) (at_of h) (counters_in l.old)) l.new result }
    ensures holds { Holds l.old l.new }
    ensures marks { SameMarks l.old l.new }
    ensures stack { SameStack l.old l.new }
{
    let base = steps::value_bytes(base).ok_or(h.refuse(Refusal::UnsupportedExpression))?;
    let offset = steps::value_bytes(offset).ok_or(h.refuse(Refusal::UnsupportedExpression))?;
    if base.total < 2 {
        return Err(h.refuse(Refusal::ShortPointer));
    }
    let storage = addressing::allocate_pointer(&mut l.out);
    let carry = l.out.allocate_carry(Purpose::PointerCarry);
    let operands = Operands {
        to: Destinations { storage, count: 2 },
        left: resize(base, 2),
        right: resize(offset, 2),
    };
    l.out.carried_bytes(operands, carry, InstructionKind::Add);
    Ok(steps::pointer_value(storage))
}
