// `lower_integer_unary` and `lower_integer_binary`, over values that are lowered already: a new temporary is filled, masked and read.
#![tactic(auto)]

ghost use Rattle.std.specs.Prelude.{◌≡◌};
ghost use Rattle.spec.specs.Ticket as ticket;
ghost use Rattle.spec.specs.Operators.{unary_form, binary_form};
ghost use Rattle.spec.specs.Arithmetic.{lower_integer_unary, lower_integer_binary};
ghost use Rattle.tables.specs.Ticket.{ticket_of};
ghost use Rattle.emission.specs.Forms.{unary_form_of, binary_form_of};
ghost use Rattle.values.specs.Heads.{head_of, flat_of, Sound_value};
ghost use Rattle.values.specs.Left.{counters_in, Holds, SameMarks, MeetsValue};
ghost use Rattle.reads.specs.Reading.{at_of, StepRoom};

use answers::{Refusal, Refused};
use emission::{BinaryForm, Operands, UnaryForm};
use lir::{ByteBinaryOp, IntegerBinaryBytesOp, IntegerUnaryBytesOp, ShiftOp};
use reads::At;
use tables::Tables;
use values::{Lowering, Value};

// ---------------------------------------------------------------- operators by their numbers

// Matches on numbers: operators stand by their numbers in the ticket's words, which are lent.

#[tactic(auto, using(crate::proofs::Laws::unary_past), unfolding(spec::specs::Operators::unary_form))]
fn unary_form(op: u64) -> UnaryForm
    ensures { unary_form (ticket.integer_unary_op op) ≡ unary_form_of result }
{
    match op {
        0 => UnaryForm::Negating,
        1 => UnaryForm::Inverting,
        2 => UnaryForm::Counting(IntegerUnaryBytesOp::CountLeadingZeros),
        3 => UnaryForm::Counting(IntegerUnaryBytesOp::CountTrailingZeros),
        4 => UnaryForm::Counting(IntegerUnaryBytesOp::PopulationCount),
        _ => UnaryForm::Negating,
    }
}

#[tactic(auto, using(crate::proofs::Laws::binary_past), unfolding(spec::specs::Operators::binary_form))]
fn binary_form(op: u64) -> BinaryForm
    ensures { binary_form (ticket.integer_binary_op op) ≡ binary_form_of result }
{
    match op {
        0 => BinaryForm::Adding,
        1 => BinaryForm::Subtracting,
        2 => BinaryForm::Whole(IntegerBinaryBytesOp::Multiply),
        3 => BinaryForm::Whole(IntegerBinaryBytesOp::DivideSigned),
        4 => BinaryForm::Whole(IntegerBinaryBytesOp::DivideUnsigned),
        5 => BinaryForm::Whole(IntegerBinaryBytesOp::RemainderSigned),
        6 => BinaryForm::Whole(IntegerBinaryBytesOp::RemainderUnsigned),
        7 => BinaryForm::Bytewise(ByteBinaryOp::And),
        8 => BinaryForm::Bytewise(ByteBinaryOp::Or),
        9 => BinaryForm::Bytewise(ByteBinaryOp::Xor),
        10 => BinaryForm::Shifting(ShiftOp::Left),
        11 => BinaryForm::Shifting(ShiftOp::RightSigned),
        12 => BinaryForm::Shifting(ShiftOp::RightUnsigned),
        13 => BinaryForm::Shifting(ShiftOp::RotateLeft),
        14 => BinaryForm::Shifting(ShiftOp::RotateRight),
        15 => BinaryForm::Whole(IntegerBinaryBytesOp::SaturatingAddSigned),
        16 => BinaryForm::Whole(IntegerBinaryBytesOp::SaturatingAddUnsigned),
        17 => BinaryForm::Whole(IntegerBinaryBytesOp::SaturatingSubtractSigned),
        18 => BinaryForm::Whole(IntegerBinaryBytesOp::SaturatingSubtractUnsigned),
        _ => BinaryForm::Adding,
    }
}

// ---------------------------------------------------------------- their values

pub fn lower_integer_unary(
    tables: &Tables<'_>,
    l: &mut Lowering<'_>,
    op: u64,
    v: Value,
    h: At,
) -> Result<Value, Refused<Refusal>>
    requires { (Sound_value v) × (StepRoom (ticket_of tables.now.lines) h.node.0 h.ty l.old) }
    ensures meets { MeetsValue l.old (lower_integer_unary (ticket_of tables.now.lines) (ticket.integer_unary_op op) (flat_of (head_of v)) h.ty (at_of h) (counters_in l.old)) l.new result }
    ensures holds { Holds l.old l.new }
    ensures marks { SameMarks l.old l.new }
{
    let input = steps::value_bytes(v).ok_or(h.refuse(Refusal::UnsupportedExpression))?;
    let to = steps::byte_temporary(tables, &mut l.out, h)?;
    let width = steps::integer_width(&tables.lines, h.ty);
    l.out
        .unary_instructions(unary_form(op), width, to, input)
        .map_err(|r| h.refuse(r))?;
    steps::masked(tables, l, to, h)
}

/// The left operand is looked at before the right.
pub fn lower_integer_binary(
    tables: &Tables<'_>,
    l: &mut Lowering<'_>,
    op: u64,
    left: Value,
    right: Value,
    h: At,
) -> Result<Value, Refused<Refusal>>
    requires { (Sound_value left) × (Sound_value right) × (StepRoom (ticket_of tables.now.lines) h.node.0 h.ty l.old) }
    ensures meets { MeetsValue l.old (lower_integer_binary (ticket_of tables.now.lines) (ticket.integer_binary_op op) (flat_of (head_of left)) (flat_of (head_of right)) h.ty (at_of h) (counters_in l.old)) l.new result }
    ensures holds { Holds l.old l.new }
    ensures marks { SameMarks l.old l.new }
{
    let left = steps::value_bytes(left).ok_or(h.refuse(Refusal::UnsupportedExpression))?;
    let right = steps::value_bytes(right).ok_or(h.refuse(Refusal::UnsupportedExpression))?;
    let to = steps::byte_temporary(tables, &mut l.out, h)?;
    let width = steps::integer_width(&tables.lines, h.ty);
    let operands = Operands { to, left, right };
    l.out
        .binary_instructions(binary_form(op), width, operands)
        .map_err(|r| h.refuse(r))?;
    steps::masked(tables, l, operands.to, h)
}
