// Values whose parts stand on the lent stack: a part taken out, or another put in its place, and the operands one by one.
#![tactic(auto)]

ghost use Rattle.std.specs.Prelude.{◌≡◌, ◌∷◌, ◌++◌, [], ◌+◌, ◌-◌, ◌^◌, ◌≤◌, ◌<◌, length, take, drop, MatchOption, IfSome, slice_get, option_map};
ghost use Rattle.std.specs.List.{copy_within};
ghost use Rattle.values.specs.Heads.{head_of, records, skip, operands_of, Sound_value};
ghost use Rattle.values.specs.Stack.{heads, Stands, Extracts};
ghost use Rattle.parts.specs.Records.{AreRecords, heads_in};
ghost use Rattle.parts.specs.Extract.{Behind, PartAt};
ghost use Rattle.parts.specs.Insert.{Inserts, Insertable, PutWords};
ghost use Rattle.parts.specs.Operands.{operand_of, own};

use answers::Refusal;
use lir::{BitOperand, ByteOperand};
use std::marker::Model;
use values::{Repr, Value};

// ---------------------------------------------------------------- the parts of an aggregate

// How many records stand behind a value's head.
fn records_of(v: Value) -> u64
    ensures { result ≡ records (head_of v) }
{
    match v.repr {
        Repr::Aggregate(_, m) => m,
        _ => 0,
    }
}

// Where the records begin and end is asked call by call, here and below: two places in the lent stack, and no fact of a value or of the stack.

// The place behind the value at `at`. A head that counts more records than stand there ends where they end.
fn behind(stack: &[u64], at: usize, end: usize) -> usize
    requires { (at < end) × (end ≤ length stack.now) × Stands stack.now at end }
    ensures { Behind stack.now at end result }
{
    let own = records_of(values::value_at(stack, at));
    let most = ((end - at) / 8) as u64;
    at + 8 * own.saturating_add(1).min(most) as usize
}

// Where part i of the values from `top` to `end` stands.
#[tactic(auto, using(crate::proofs::Skips::skips))]
fn part_at(stack: &[u64], top: usize, end: usize, i: u64) -> Option<usize>
    requires { (top ≤ end) × (end ≤ length stack.now) × Stands stack.now top end }
    ensures { MatchOption result (skip i (heads stack.now top end) ≡ []) (PartAt stack.now top end i) }
{
    let mut at = top;
    for _ in 0..i {
        if at == end {
            return None;
        }
        at = behind(stack, at, end);
    }
    (at < end).then_some(at)
}

// Words moved by loops of our own, here and below: the library's moves would be C's memcpy and memmove, which the archive for C then needs
// from outside.

// The words from a to e moved down to b, the lowest first.
fn move_down(s: &mut [u64], a: usize, e: usize, b: usize)
    requires { (b ≤ a) × (a ≤ e) × (e ≤ length s.old) }
    ensures { s.new ≡ copy_within s.old a e b }
{
    for j in 0..e - a {
        s[b + j] = s[a + j];
    }
}

/// Part i of the aggregate v, whose parts stand from `top` to `end`: its own parts move down to `top`, and what they end at is the new top.
/// Refused where there is no such part.
pub fn extract(
    stack: &mut [u64],
    top: usize,
    end: usize,
    v: Value,
    i: u64,
) -> Result<(Value, usize), Refusal>
    requires { (top ≤ end) × (end ≤ length stack.old) × Stands stack.old top end }
    ensures { Extracts stack.old top end v i stack.new result }
{
    let Repr::Aggregate(_, _) = v.repr else {
        return Err(Refusal::UnsupportedExpression);
    };
    let at = part_at(stack, top, end, i).ok_or(Refusal::UnsupportedExpression)?;
    let part = values::value_at(stack, at);
    let to = behind(stack, at, end);
    move_down(stack, at + 8, to, top);
    Ok((part, top + (to - (at + 8))))
}

// The words before m and those from m on change places, with no room of their own: all turned round, and then each again.
fn turn(s: &mut [u64], m: usize)
    requires { m ≤ length s.old }
    ensures { s.new ≡ drop m s.old ++ take m s.old }
{
    let k = s.len() - m;
    s.reverse();
    s[..k].reverse();
    s[k..].reverse();
}

// The value from p to q replaced by x, whose parts stand from `mid` to `end`: they go before the words behind q, and all of these move
// down behind the new head, for which the old head's room serves.
fn put_part(stack: &mut [u64], p: usize, q: usize, mid: usize, end: usize, x: Value)
    requires { (p + 8 ≤ q) × (q ≤ mid) × (mid ≤ end) × (end ≤ length stack.old) }
    ensures { PutWords stack.old p q mid end x stack.new }
{
    turn(&mut stack[q..end], mid - q);
    move_down(stack, q, end, p + 8);
    values::store8(stack, p, values::value_words(x));
}

/// The aggregate v with x for its part i, as a value of type `ty`, and the new top. The parts of v stand from `top` to `mid`, those of x
/// from there to `end`. Refused where there is no such part.
pub fn insert(
    stack: &mut [u64],
    top: usize,
    mid: usize,
    end: usize,
    v: Value,
    i: u64,
    x: Value,
    ty: u64,
) -> Result<(Value, usize), Refusal>
    requires { Insertable stack.old top mid end x }
    ensures { Inserts stack.old top mid end v i x ty stack.new result }
{
    let Repr::Aggregate(n, _) = v.repr else {
        return Err(Refusal::UnsupportedExpression);
    };
    let p = part_at(stack, top, mid, i).ok_or(Refusal::UnsupportedExpression)?;
    let q = behind(stack, p, mid);
    put_part(stack, p, q, mid, end, x);
    let to = p + 8 + (end - q);
    let m = (to - top) / 8;
    let whole = Value {
        ty,
        repr: Repr::Aggregate(n, m as u64),
    };
    Ok((whole, to))
}

// ---------------------------------------------------------------- operands

/// An operand of a value.
#[derive(Clone, Copy, Debug, PartialEq, Eq)]
pub enum Operand {
    Bit(BitOperand),
    Byte(ByteOperand),
}

// Operand i of a record's own.
fn operand_at(v: Value, i: u64) -> Option<Operand>
    requires { Sound_value v }
    ensures gives { option_map operand_of result ≡ slice_get (own v) i }
    ensures fits { IfSome result (λ _. i + 1 < 2 ^ 64) }
{
    match v.repr {
        Repr::Bit(b) if i == 0 => Some(Operand::Bit(b)),
        Repr::Bytes(b) if i < b.total => Some(Operand::Byte(lir::byte_at(b, i))),
        _ => None,
    }
}

/// The operands of a value, one by one, seen as the list of those that are left: of one record those from `index` on, then those of the
/// records behind it.
#[derive(Debug, Drop)]
pub struct Operands<'a> {
    value: Value,
    index: u64,
    records: &'a [u64],
}

impl<'a> Model for Operands<'a> {
    ghost use Rattle.std.specs.Prelude.{List};
    ghost use Rattle.spec.specs.Lir.{ValueOperand};
    ghost use Rattle.parts.specs.Operands.{left_operands, Ready};

    ghost Value = { List ValueOperand };

    ghost view = { λ o. left_operands o.value o.index o.records.now };

    ghost invariant = { λ o. Ready o.value o.records.now };
}

impl<'a> Operands<'a> {
    /// Those of `value`, whose parts are `records`.
    pub fn new(value: Value, records: &'a [u64]) -> Operands<'a>
        requires sound { Sound_value value }
        requires records { AreRecords records.now }
        ensures { result ≡ operands_of (head_of value ∷ heads_in records.now) }
    {
        Operands {
            value,
            index: 0,
            records,
        }
    }
}

impl<'a> Iterator for Operands<'a> {
    ghost use Rattle.std.specs.Prelude.{length};
    ghost use Rattle.std.specs.Iterator.{at_most, YieldsFirstBy};
    ghost use Rattle.parts.specs.Operands.{operand_of};

    type Item = Operand;

    ghost next_gives = { YieldsFirstBy operand_of (λ left. left) };

    ghost remaining = { λ left. at_most (length left) };

    fn next(&mut self) -> Option<Operand> {
        loop {
            if let Some(operand) = operand_at(self.value, self.index) {
                self.index += 1;
                return Some(operand);
            }
            let records = self.records.get(8..)?;
            self.value = values::value_at(self.records, 0);
            self.index = 0;
            self.records = records;
        }
    }
}
