// `read_bytes_as_type` and `read_location`: a storage's bytes as a value of a type. Only a Bool appends something, a bit and the
// instruction that fills it.
#![tactic(auto)]

ghost use Rattle.std.specs.Prelude.{◌≡◌, ◌+◌, ◌≤◌, Ok};
ghost use Rattle.spec.specs.Hir as hir;
ghost use Rattle.spec.specs.Ticket.{Tables as Ticket};
ghost use Rattle.spec.specs.ReadBytes.{read_bool_byte, read_plain, read_fields, read_bytes_as_type, read_location};
ghost use Rattle.emission.specs.Appends.{Room};
ghost use Rattle.emission.specs.Temporaries.{location};
ghost use Rattle.tables.specs.Ticket.{ticket_of};
ghost use Rattle.places.specs.Abstract.{location_from};
ghost use Rattle.values.specs.declared.Lowering.{Lowering as Lowers};
ghost use Rattle.values.specs.Left.{counters_in, Holds, SameMarks, MeetsValue, MeetsList};
ghost use Rattle.reads.specs.Reading.{at_of, part_type, part_types, size_of, TypeRoom, PartsRoom};

use answers::{Refusal, Refused};
use lir::{
    BitOperand, ByteOperand, ByteStorage, Bytes, InstructionKind, NodeId, Purpose, Source,
    StorageId,
};
use places::Location;
use tables::{Tables, TypeKind};
use values::{Lowering, Repr, Value};

// The limit of that name in line_checks, which this crate does not lean on; another here would not prove.
const TYPE_DEPTH_LIMIT: u64 = 16;

/// The node whose own step it is. Its number is that of the emitter too, as a premise of each step says: what refuses has no emitter at hand,
/// and what appends no `At`.
#[derive(Clone, Copy, Debug, PartialEq, Eq)]
pub struct At {
    pub line: u64,
    pub node: NodeId,
    pub ty: u64,
}

impl At {
    /// A refusal is told for the node's line.
    pub fn refuse(self, refusal: Refusal) -> Refused<Refusal>
        ensures { result ≡ record { refusal = refusal; line = self.line } }
    {
        Refused {
            refusal,
            line: self.line,
        }
    }
}

// The types of an aggregate's parts: an array's, all one; or a struct's and a tuple's, from a place in the lists on.
#[derive(Clone, Copy)]
pub enum Parts {
    Elements(u64),
    Fields(u64),
}

impl Parts {
    // The type of part i.
    fn ty(self, tables: &Tables<'_>, i: u64) -> u64
        ensures { result ≡ part_type tables.now.lines.lists.now self i }
    {
        match self {
            Parts::Elements(ty) => ty,
            Parts::Fields(start) => tables.lines.list_at(start, i),
        }
    }
}

// A byte that is a Bool, as a new bit.
fn read_bool(l: &mut Lowering<'_>, storage: StorageId, ty: u64, o: u64) -> Value
    requires { Room 2 l.old.out }
    ensures meets { (T : Ticket) (h : hir.At) → h.node ≡ l.old.out.node.0 → MeetsValue l.old (read_bool_byte T storage.0 ty o h (counters_in l.old)) l.new (Ok result) }
    ensures holds { Holds l.old l.new }
    ensures marks { SameMarks l.old l.new }
{
    let id = l.out.allocate_bit_temporary(Purpose::ReadBool);
    let from = ByteStorage { storage, offset: o };
    l.out
        .emit(InstructionKind::ByteToBit(id, ByteOperand::Storage(from)));
    Value {
        ty,
        repr: Repr::Bit(BitOperand::Storage(id)),
    }
}

// Bytes that stand where they are.
#[tactic(auto, using(tables::proofs::Laws::size_here, crate::proofs::Laws::plain_meets, crate::proofs::Lines::size_at_of))]
fn read_plain(tables: &Tables<'_>, storage: StorageId, ty: u64, o: u64) -> Value
    requires { o + size_of (ticket_of tables.now.lines) ty ≤ 4294967296 }
    ensures { (l : Lowers) (h : hir.At) → MeetsValue l (read_plain (ticket_of tables.now.lines) storage.0 ty o h (counters_in l)) l (Ok result) }
{
    let size = tables.lines.type_size(ty);
    Value {
        ty,
        repr: Repr::Bytes(Bytes {
            source: Source::Storage(ByteStorage { storage, offset: o }),
            count: size,
            total: size,
        }),
    }
}

/// Storage `storage` read from byte o on as the type ty. Types refer to less deep ones; `depth` falls with each.
#[cycle(read_bytes_as_type_read_parts)]
pub fn read_bytes_as_type(
    tables: &Tables<'_>,
    l: &mut Lowering<'_>,
    storage: StorageId,
    ty: u64,
    o: u64,
    depth: u64,
    h: At,
) -> Result<Value, Refused<Refusal>>
    requires { TypeRoom (ticket_of tables.now.lines) h.node.0 ty o l.old }
    ensures meets { MeetsValue l.old (read_bytes_as_type (ticket_of tables.now.lines) depth storage.0 ty o (at_of h) (counters_in l.old)) l.new result }
    ensures holds { Holds l.old l.new }
    ensures marks { SameMarks l.old l.new }
{
    if depth == 0 {
        return Err(h.refuse(Refusal::UnsupportedType));
    }
    let (parts, n) = match tables.lines.type_at(ty) {
        TypeKind::Unit => {
            return Ok(Value {
                ty,
                repr: Repr::Unit,
            });
        }
        TypeKind::Bool => return Ok(read_bool(l, storage, ty, o)),
        TypeKind::Bits(_) | TypeKind::Pointer | TypeKind::Opaque(_) => {
            return Ok(read_plain(tables, storage, ty, o));
        }
        TypeKind::Float(_) => return Err(h.refuse(Refusal::UnsupportedType)),
        TypeKind::Array(element, n) => (Parts::Elements(element), n),
        TypeKind::Struct(start, n) | TypeKind::Tuple(start, n) => (Parts::Fields(start), n),
    };
    let top = l.top;
    read_parts(tables, l, storage, parts, n, o, depth - 1, h)?;
    let records = (l.top - top) / 8;
    Ok(Value {
        ty,
        repr: Repr::Aggregate(n, records as u64),
    })
}

// An aggregate's n parts, each read behind the one before: elements of an array, or fields of a struct or a tuple.
#[cycle(read_bytes_as_type_read_parts)]
fn read_parts(
    tables: &Tables<'_>,
    l: &mut Lowering<'_>,
    storage: StorageId,
    parts: Parts,
    n: u64,
    o: u64,
    depth: u64,
    h: At,
) -> Result<(), Refused<Refusal>>
    requires { PartsRoom (ticket_of tables.now.lines) h.node.0 (part_types tables.now.lines.lists.now parts 0 n) o l.old }
    ensures meets { MeetsList n l.old (read_fields (ticket_of tables.now.lines) (λ t p. read_bytes_as_type (ticket_of tables.now.lines) depth storage.0 t p) o (part_types tables.now.lines.lists.now parts 0 n) (at_of h) (counters_in l.old)) l.new result }
    ensures holds { Holds l.old l.new }
    ensures marks { SameMarks l.old l.new }
{
    let mut at = o;
    for i in 0..n {
        let ty = parts.ty(tables, i);
        let top = l.top;
        l.top += 8;
        let head = read_bytes_as_type(tables, l, storage, ty, at, depth, h)?;
        values::store8(l.stack, top, values::value_words(head));
        at += tables.lines.type_size(ty);
    }
    Ok(())
}

/// A location's value: a bit, or the bytes that stand there.
pub fn read_location(
    tables: &Tables<'_>,
    l: &mut Lowering<'_>,
    location: Location,
    h: At,
) -> Result<Value, Refused<Refusal>>
    requires { TypeRoom (ticket_of tables.now.lines) h.node.0 location.ty location.offset l.old }
    ensures meets { MeetsValue l.old (read_location (ticket_of tables.now.lines) (location_from location) (at_of h) (counters_in l.old)) l.new result }
    ensures holds { Holds l.old l.new }
    ensures marks { SameMarks l.old l.new }
{
    if location.bit {
        return Ok(Value {
            ty: location.ty,
            repr: Repr::Bit(BitOperand::Storage(location.storage)),
        });
    }
    read_bytes_as_type(
        tables,
        l,
        location.storage,
        location.ty,
        location.offset,
        TYPE_DEPTH_LIMIT,
        h,
    )
}

/// A temporary's value, of its whole storage.
pub fn read_temporary(
    tables: &Tables<'_>,
    l: &mut Lowering<'_>,
    storage: StorageId,
    ty: u64,
    h: At,
) -> Result<Value, Refused<Refusal>>
    requires { TypeRoom (ticket_of tables.now.lines) h.node.0 ty 0 l.old }
    ensures meets { MeetsValue l.old (read_location (ticket_of tables.now.lines) (location storage.0 ty) (at_of h) (counters_in l.old)) l.new result }
    ensures holds { Holds l.old l.new }
    ensures marks { SameMarks l.old l.new }
{
    let location = Location {
        storage,
        offset: 0,
        ty,
        bit: ty == 0,
    };
    read_location(tables, l, location, h)
}
