// Lowered values. A value's head goes by value; an aggregate's parts stand on a lent stack in pre-order, a record of 8 words each, and
// its head holds how many parts it has and how many records stand there for them.
#![tactic(auto)]

ghost use Rattle.std.specs.Prelude.{◌≡◌, ◌+◌, ◌<◌, ◌^◌, get_or};
ghost use Rattle.std.proofs.lemmas.List.Edits.{sets};
ghost use Rattle.values.specs.Left.{value_words};
ghost use Rattle.values.specs.Stack.{source_in, bit_in, value_at};

use emission::Emitter;
use lir::{BitOperand, ByteStorage, Bytes, Source, StorageId};

#[derive(Clone, Copy, Debug, PartialEq, Eq)]
pub enum Repr {
    Unit,
    Bit(BitOperand),
    Bytes(Bytes),
    Aggregate(u64, u64),
}

// That its bytes are `Small` is asked where they are read (`Sound_value`), and is no fact of the type: there is no heap, so values stand as
// words in a lent stack, and `value_at` answers a value for any words there, also for those that are no sound value's. A type with the
// fact would ask more of its callers, as of those of `value_words`.
#[derive(Clone, Copy, Debug, PartialEq, Eq)]
pub struct Value {
    pub ty: u64,
    pub repr: Repr,
}

/// What lowering writes to: the listing's texts, a mark for each older storage that was narrowed, and the parts of values on a stack, whose
/// free words begin at `top`.
// The tables are no field of it: lent shared beside it, they say by their type that no step changes them, where here each contract would
// have to say that they are the same behind it.
#[derive(Drop)]
pub struct Lowering<'a> {
    pub out: Emitter<'a>,
    pub narrowed: &'a mut [u64],
    pub stack: &'a mut [u64],
    pub top: usize,
}

// What a value is stands in its record's second word, and where a bit or bytes come from in the third: numbers, since the stack is lent
// as words, there being no heap. Other words stand for the last of each.
const UNIT: u64 = 0;

const BIT: u64 = 1;

const BYTES: u64 = 2;

const AGGREGATE: u64 = 3;

const CONSTANT: u64 = 0;

const STORAGE: u64 = 1;

/// A value's record.
// No `From`: eight words are no value of another form, and the name says what they are.
#[tactic(auto, unfolding(crate::specs::Left::value_words))]
pub fn value_words(v: Value) -> [u64; 8]
    ensures { result ≡ value_words v }
{
    let ty = v.ty;
    match v.repr {
        Repr::Unit => [ty, UNIT, 0, 0, 0, 0, 0, 0],
        Repr::Bit(BitOperand::Constant(n)) => [ty, BIT, CONSTANT, n, 0, 0, 0, 0],
        Repr::Bit(BitOperand::Storage(s)) => [ty, BIT, STORAGE, s.0, 0, 0, 0, 0],
        Repr::Bytes(b) => match b.source {
            Source::Constant(n) => [ty, BYTES, CONSTANT, n, 0, b.count, b.total, 0],
            Source::Storage(s) => {
                [
                    ty,
                    BYTES,
                    STORAGE,
                    s.storage.0,
                    s.offset,
                    b.count,
                    b.total,
                    0,
                ]
            }
        },
        Repr::Aggregate(n, m) => [ty, AGGREGATE, n, m, 0, 0, 0, 0],
    }
}

/// Stores a record; what has no room is dropped.
// Word by word: a copy of as many as there is room for would be C's memcpy, which the archive for C then needs from outside.
pub fn store8(stack: &mut [u64], at: usize, ws: [u64; 8])
    ensures { stack.new ≡ sets stack.old at ws }
{
    if at < stack.len() {
        for j in 0..8 {
            if at + j < stack.len() {
                stack[at + j] = ws[j];
            }
        }
    }
}

/// Word i, or 0 behind the end: as `word` of tables, which this crate has nothing else of.
pub fn word(s: &[u64], i: usize) -> u64
    ensures { result ≡ get_or s.now i 0 }
{
    s.get(i).copied().unwrap_or(0)
}

fn source_in(tag: u64, x: u64, offset: u64) -> Source
    ensures { result ≡ source_in tag x offset }
{
    match tag {
        CONSTANT => Source::Constant(x),
        _ => Source::Storage(ByteStorage {
            storage: StorageId(x),
            offset,
        }),
    }
}

fn bit_in(tag: u64, x: u64) -> BitOperand
    ensures { result ≡ bit_in tag x }
{
    match tag {
        CONSTANT => BitOperand::Constant(x),
        _ => BitOperand::Storage(StorageId(x)),
    }
}

/// The value whose record stands at a place of the stack.
#[tactic(auto, unfolding(crate::specs::Stack::value_at))]
pub fn value_at(stack: &[u64], at: usize) -> Value
    requires { at + 8 < 2 ^ 64 }
    ensures { result ≡ value_at stack.now at }
{
    let a = word(stack, at + 2);
    let b = word(stack, at + 3);
    let repr = match word(stack, at + 1) {
        UNIT => Repr::Unit,
        BIT => Repr::Bit(bit_in(a, b)),
        BYTES => Repr::Bytes(Bytes {
            source: source_in(a, b, word(stack, at + 4)),
            count: word(stack, at + 5),
            total: word(stack, at + 6),
        }),
        _ => Repr::Aggregate(a, b),
    };
    Value {
        ty: word(stack, at),
        repr,
    }
}
