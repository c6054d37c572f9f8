// The words that a ticket is read into, and look-ups into them. Each is total: past a table's end it answers what the definitions give
// for a number that no line has.
#![tactic(auto)]

ghost use Rattle.std.specs.Prelude.{◌≡◌, ◌+◌, ◌≤◌, ◌<◌, get_or};
ghost use Rattle.spec.specs.Ticket.{arg as arg_of};
ghost use Rattle.spec.specs.Operands.{nth};
ghost use Rattle.tables.specs.Tables.{cell, run, numbers_at, type_kind, type_kind_in, type_kind_at, size_at, weight_at, owner_at, placed_of, placed_at, variables_of, statics_of, place_kind, place_kind_at, node_kind, node_kind_in, node_kind_at, behind, node_type_at, node_line_at, Sized};

mod lookups;

pub use lookups::{Lines, Tables};

// How many lines of each kind there are, the numbers in use of the lists, and the state of reading. `stage` is 0 before the first line, else
// one more than the last line's rank: a number as in the definitions (`in_order`), which an `Option` would have to be turned into.
#[derive(Clone, Copy, Debug, Default, PartialEq, Eq)]
pub struct Counts {
    pub function: u64,
    pub next: u64,
    pub types: u64,
    pub storages: u64,
    pub variables: u64,
    pub statics: u64,
    pub places: u64,
    pub nodes: u64,
    pub used: usize,
    pub stage: u64,
    pub lines: u64,
    pub sizes: u64,
    pub weights: u64,
}

// A type's word and numbers. Struct and tuple: where their fields begin in the lists, and how many they are.
#[derive(Clone, Copy, Debug, PartialEq, Eq)]
pub enum TypeKind {
    Unit,
    Bool,
    Bits(u64),
    Float(u64),
    Pointer,
    Array(u64, u64),
    Struct(u64, u64),
    Tuple(u64, u64),
    Opaque(u64),
}

// A variable or a static. `bit` is the row's number, any one: that it is 0 or 1 is what reading finds, and no fact of a row.
#[derive(Clone, Copy, Debug, PartialEq, Eq)]
pub struct Placed {
    pub storage: u64,
    pub offset: u64,
    pub ty: u64,
    pub bit: u64,
}

// A place's word and numbers.
#[derive(Clone, Copy, Debug, PartialEq, Eq)]
pub enum PlaceKind {
    Variable(u64),
    Static(u64),
    Field(u64, u64),
    Element(u64, u64),
    Offset(u64, u64),
}

// A node's word and numbers. Aggregate: where its parts begin in the lists, and how many they are. An operator stays the row's number: the
// definitions' tables have it so (`node_args`), in range or not, and an enum would hold only those in range.
#[derive(Clone, Copy, Debug, PartialEq, Eq)]
pub enum NodeKind {
    Bool(u64),
    Int(u64),
    F32(u64),
    F64(u64),
    Null,
    StaticAddress(u64, u64),
    Function(u64),
    Read(u64),
    Unary(u64, u64),
    Binary(u64, u64, u64),
    Funary(u64),
    Fbinary(u64, u64),
    Compare(u64, u64, u64),
    Convert(u64, u64),
    Select(u64, u64, u64),
    Address(u64),
    Offset(u64, u64),
    Aggregate(u64, u64),
    Extract(u64, u64),
    Insert(u64, u64, u64),
}

// Word i, or 0 past the end.
pub fn word(s: &[u64], i: usize) -> u64
    ensures { result ≡ get_or s.now i 0 }
{
    s.get(i).copied().unwrap_or(0)
}

// `lists` and a place in it, here and below: all lines' numbers stand in one lent slice, since there is no heap, and a row holds where a line's
// start and how many they are. These may lead past the slice's end, so no part of it is taken.
//
// Word i of a list that begins at `start`. A sum that would wrap is past the end.
pub fn list_at(lists: &[u64], start: u64, i: u64) -> u64
    ensures { result ≡ get_or lists.now (start + i) 0 }
{
    match start.checked_add(i) {
        Some(at) => word(lists, at as usize),
        None => 0,
    }
}

// Word j of row k of the `count` rows of a kind, whose rows are every sixth from `base` on; `other` past the last. `base + count` is small
// enough for a row's place to be worked out. A struct of rows, base and count would be made for each look-up, five lines in place of one.
#[tactic(auto, using(crate::proofs::Laws::cells))]
pub fn cell(s: &[u64], base: u64, count: u64, k: u64, j: u64, other: u64) -> u64
    requires { (j < 6) × (base + count ≤ 1099511627776) }
    ensures { result ≡ cell s.now base count k j other }
{
    if k < count {
        let at = (base + k * 6) * 6 + j;
        word(s, at as usize)
    } else {
        other
    }
}

// Number i of the `count` that start at a place of the lists, 0 past them.
#[tactic(auto, using(crate::proofs::Laws::args))]
pub fn arg(lists: &[u64], start: u64, count: u64, i: u64) -> u64
    ensures { result ≡ arg_of (run lists.now start count) i }
{
    if count <= i {
        return 0;
    }
    list_at(lists, start, i)
}

// Number i of row k of the `count` rows from `base` on.
#[tactic(auto, unfolding(crate::specs::Tables::numbers_at))]
pub fn number(s: &[u64], lists: &[u64], base: u64, count: u64, k: u64, i: u64) -> u64
    requires { base + count ≤ 1099511627776 }
    ensures { result ≡ arg_of (numbers_at s.now lists.now base count k) i }
{
    let start = cell(s, base, count, k, 1, 0);
    let n = cell(s, base, count, k, 2, 0);
    arg(lists, start, n, i)
}

// A kind stands as a number in a row of lent words, so types, places and nodes have a match from numbers each.
//
// The type that a word's number stands for: n numbers from `start` on, a and b the first two of them.
#[tactic(auto, using(crate::proofs::Laws::type_kind_past), unfolding(crate::specs::Tables::type_kind))]
pub fn type_kind(w: u64, start: u64, n: u64, a: u64, b: u64) -> TypeKind
    ensures { result ≡ type_kind w start n a b }
{
    match w {
        0 => TypeKind::Unit,
        1 => TypeKind::Bool,
        2 => TypeKind::Bits(a),
        3 => TypeKind::Float(a),
        4 => TypeKind::Pointer,
        5 => TypeKind::Array(a, b),
        6 => TypeKind::Struct(start, n),
        7 => TypeKind::Tuple(start, n),
        8 => TypeKind::Opaque(a),
        _ => TypeKind::Unit,
    }
}

// The type of a word's number and n numbers of the lists.
#[tactic(auto, unfolding(crate::specs::Tables::type_kind_in))]
pub fn type_in(lists: &[u64], w: u64, start: u64, n: u64) -> TypeKind
    ensures { result ≡ type_kind_in lists.now w start n }
{
    let a = arg(lists, start, n, 0);
    let b = arg(lists, start, n, 1);
    type_kind(w, start, n, a, b)
}

// The variable or static of n numbers of the lists.
pub fn placed_in(lists: &[u64], start: u64, n: u64) -> Placed
    ensures { result ≡ placed_of (run lists.now start n) }
{
    Placed {
        storage: arg(lists, start, n, 0),
        offset: arg(lists, start, n, 1),
        ty: arg(lists, start, n, 2),
        bit: arg(lists, start, n, 3),
    }
}

// Row k of the `count` variables or statics from `base` on.
#[tactic(auto, unfolding(crate::specs::Tables::placed_at, crate::specs::Tables::numbers_at))]
pub fn placed_row(rows: &[u64], lists: &[u64], base: u64, count: u64, k: u64) -> Option<Placed>
    requires { base + count ≤ 1099511627776 }
    ensures { result ≡ placed_at rows.now lists.now base count k }
{
    if count <= k {
        return None;
    }
    let start = cell(rows, base, count, k, 1, 0);
    let n = cell(rows, base, count, k, 2, 0);
    Some(placed_in(lists, start, n))
}

// The place that a word's number and two numbers stand for.
#[tactic(auto, using(crate::proofs::Laws::place_kind_past), unfolding(crate::specs::Tables::place_kind))]
pub fn place_kind(w: u64, a: u64, b: u64) -> PlaceKind
    ensures { result ≡ place_kind w a b }
{
    match w {
        0 => PlaceKind::Variable(a),
        1 => PlaceKind::Static(a),
        2 => PlaceKind::Field(a, b),
        3 => PlaceKind::Element(a, b),
        4 => PlaceKind::Offset(a, b),
        _ => PlaceKind::Variable(a),
    }
}

// The node that a word's number stands for: n numbers from `start` on, a, b and c the first three of them.
#[tactic(auto, using(crate::proofs::Laws::node_kind_past), unfolding(crate::specs::Tables::node_kind))]
pub fn node_kind(w: u64, start: u64, n: u64, a: u64, b: u64, c: u64) -> NodeKind
    ensures { result ≡ node_kind w start n a b c }
{
    match w {
        0 => NodeKind::Bool(a),
        1 => NodeKind::Int(a),
        2 => NodeKind::F32(a),
        3 => NodeKind::F64(a),
        4 => NodeKind::Null,
        5 => NodeKind::StaticAddress(a, b),
        6 => NodeKind::Function(a),
        7 => NodeKind::Read(a),
        8 => NodeKind::Unary(a, b),
        9 => NodeKind::Binary(a, b, c),
        10 => NodeKind::Funary(a),
        11 => NodeKind::Fbinary(a, b),
        12 => NodeKind::Compare(a, b, c),
        13 => NodeKind::Convert(a, b),
        14 => NodeKind::Select(a, b, c),
        15 => NodeKind::Address(a),
        16 => NodeKind::Offset(a, b),
        17 => NodeKind::Aggregate(start, n),
        18 => NodeKind::Extract(a, b),
        19 => NodeKind::Insert(a, b, c),
        _ => NodeKind::Null,
    }
}

// The node of a word's number and n numbers of the lists.
#[tactic(auto, unfolding(crate::specs::Tables::node_kind_in))]
pub fn node_in(lists: &[u64], w: u64, start: u64, n: u64) -> NodeKind
    ensures { result ≡ node_kind_in lists.now w start n }
{
    let a = arg(lists, start, n, 0);
    let b = arg(lists, start, n, 1);
    let c = arg(lists, start, n, 2);
    node_kind(w, start, n, a, b, c)
}

// One number on, told without a sum that could wrap.
#[tactic(auto, unfolding(crate::specs::Tables::behind))]
fn behind(lists: &[u64], start: u64) -> u64
    ensures { result ≡ behind lists.now start }
{
    let at = start as usize;
    if at < lists.len() { start + 1 } else { start }
}
