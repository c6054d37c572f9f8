// Places: where a place line leads, in the Rust's steps. Nothing is appended; the answer is a location or a refusal.
#![tactic(auto)]

ghost use Rattle.std.specs.Prelude.{◌≡◌, List, ℕ, ◌≤◌, ◌+◌, ◌*◌, IfSome, IfOk};
ghost use Rattle.std.specs.Option.{ForSome, option_map};
ghost use Rattle.spec.specs.Limits.{offset_limit, type_size_limit};
ghost use Rattle.spec.specs.Ticket.{Tables as Ticket, type_size_by, expr_at, sum};
ghost use Rattle.spec.specs.Allocation.{type_size};
ghost use Rattle.spec.specs.Places.{constant_usize, fields_of, array_of, field_offset, element_offset, within, with_type, location_in};
ghost use Rattle.tables.specs.Tables.{run, type_word, type_args, placed_line};
ghost use Rattle.tables.specs.Ticket.{ticket_of};
ghost use Rattle.places.specs.Answers.{outcome_of};
ghost use Rattle.places.specs.Abstract.{run_of, array_from, part_from, base_from, location_from, typed_base, part_step, rest_step, part_located, placed_step, placed_located, base_at, location_at, IsHeld};

use answers::Refusal;
use lir::StorageId;
use tables::{NodeKind, PlaceKind, Placed, Tables, TypeKind};

mod found;

pub use found::{Base, Location, Part};

const OFFSET_LIMIT: u64 = 65535;

/// An index or an offset of a place is looked at, and never lowered.
pub fn constant_usize(tables: &Tables<'_>, depth: u64, e: u64) -> Option<u64>
    ensures { constant_usize (expr_at depth (ticket_of tables.now.lines) e) ≡ result }
{
    if depth == 0 {
        return None;
    }
    match tables.lines.node_at(e) {
        NodeKind::Int(n) => Some(n),
        _ => None,
    }
}

// A struct's or tuple's fields: where they begin in the lists, and how many they are.
fn fields_of(kind: TypeKind) -> Option<(u64, u64)>
    ensures fields { (lists : List ℕ) → fields_of (type_word kind) (type_args lists kind) ≡ option_map (run_of lists) result }
    ensures size { (lists : List ℕ) (size : ℕ → ℕ) → IfSome result (λ f. type_size_by size (type_word kind) (type_args lists kind) ≡ sum size (run lists f.0 f.1)) }
{
    match kind {
        TypeKind::Struct(start, count) | TypeKind::Tuple(start, count) => Some((start, count)),
        _ => None,
    }
}

// An array's element type and length.
fn array_of(kind: TypeKind) -> Option<(u64, u64)>
    ensures array { (lists : List ℕ) → array_of (type_word kind) (type_args lists kind) ≡ option_map array_from result }
    ensures size { (lists : List ℕ) (size : ℕ → ℕ) → IfSome result (λ a. type_size_by size (type_word kind) (type_args lists kind) ≡ size a.0 * a.1) }
{
    match kind {
        TypeKind::Array(element, length) => Some((element, length)),
        _ => None,
    }
}

// The sizes of the first n fields, added up.
#[tactic(auto, using(crate::proofs::Facts::sums))]
fn sizes_before(tables: &Tables<'_>, start: u64, n: u64) -> u64
    requires { sum (type_size (ticket_of tables.now.lines)) (run tables.now.lines.lists.now start n) ≤ type_size_limit }
    ensures { result ≡ sum (type_size (ticket_of tables.now.lines)) (run tables.now.lines.lists.now start n) }
{
    let mut total = 0;
    for i in 0..n {
        total += tables.lines.type_size(tables.lines.list_at(start, i));
    }
    total
}

#[tactic(auto, using(crate::proofs::Facts::parts), unfolding(spec::specs::Places::field_offset, spec::specs::Monad::or_refuse))]
pub fn field_offset(tables: &Tables<'_>, kind: TypeKind, i: u64) -> Result<Part, Refusal>
    requires { IsHeld tables.now kind }
    ensures { field_offset (ticket_of tables.now.lines) (type_word kind) (type_args tables.now.lines.lists.now kind) i ≡ outcome_of part_from result }
{
    let (start, count) = fields_of(kind).ok_or(Refusal::InvalidPlace)?;
    if count <= i {
        return Err(Refusal::InvalidPlace);
    }
    let offset = sizes_before(tables, start, i);
    let ty = tables.lines.list_at(start, i);
    Ok(Part { offset, ty })
}

/// An array's element at a constant index inside it.
#[tactic(auto, using(crate::proofs::Facts::parts), unfolding(spec::specs::Places::element_offset, spec::specs::Monad::or_refuse, spec::specs::Monad::require))]
pub fn element_offset(
    tables: &Tables<'_>,
    kind: TypeKind,
    depth: u64,
    e: u64,
) -> Result<Part, Refusal>
    requires { IsHeld tables.now kind }
    ensures { element_offset (ticket_of tables.now.lines) (type_word kind) (type_args tables.now.lines.lists.now kind) (expr_at depth (ticket_of tables.now.lines) e) ≡ outcome_of part_from result }
{
    let (element, length) = array_of(kind).ok_or(Refusal::InvalidPlace)?;
    let index = constant_usize(tables, depth, e).ok_or(Refusal::InvalidPlace)?;
    if length <= index {
        return Err(Refusal::InvalidPlace);
    }
    let size = tables.lines.type_size(element);
    Ok(Part {
        offset: index * size,
        ty: element,
    })
}

// Where n bytes behind an offset are, told before the sum could wrap.
#[tactic(auto, using(crate::proofs::Laws::steps))]
fn within(offset: u64, n: u64) -> Result<u64, Refusal>
    ensures step { within (offset + n) ≡ outcome_of (λ _. tt) result }
    ensures sum { IfOk result (λ o. o ≡ offset + n) }
    ensures near { IfOk result (λ o. o ≤ offset_limit) }
{
    match offset.checked_add(n) {
        Some(o) if o <= OFFSET_LIMIT => Ok(o),
        _ => Err(Refusal::FarOffset),
    }
}

// A base whose type is a line's.
fn typed_base(tables: &Tables<'_>, storage: StorageId, offset: u64, ty: u64, bit: bool) -> Base
    requires { offset ≤ offset_limit }
    ensures base { base_from tables.now.lines.lists.now result ≡ typed_base (ticket_of tables.now.lines) storage.0 offset ty bit }
    ensures held { IsHeld tables.now result.kind }
{
    Base {
        storage,
        offset,
        kind: tables.lines.type_at(ty),
        size: tables.lines.type_size(ty),
        bit,
    }
}

// A variable's or a static's base.
#[tactic(auto, using(crate::proofs::Laws::steps), unfolding(spec::specs::Places::base_of, spec::specs::Monad::or_refuse))]
fn placed_base(tables: &Tables<'_>, found: Option<Placed>) -> Result<Base, Refusal>
    requires { ForSome found (λ p. p.offset ≤ offset_limit) }
    ensures step { placed_step (ticket_of tables.now.lines) (option_map placed_line found) ≡ outcome_of (base_from tables.now.lines.lists.now) result }
    ensures held { IfOk result (λ b. IsHeld tables.now b.kind) }
{
    let p = found.ok_or(Refusal::UnknownPlace)?;
    Ok(typed_base(tables, StorageId(p.storage), p.offset, p.ty, p.bit == 1))
}

#[tactic(auto, using(crate::proofs::Laws::steps), unfolding(spec::specs::Places::part_of))]
fn part_base(tables: &Tables<'_>, base: Base, part: Part) -> Result<Base, Refusal>
    ensures step { part_step (ticket_of tables.now.lines) (base_from tables.now.lines.lists.now base) (part_from part) ≡ outcome_of (base_from tables.now.lines.lists.now) result }
    ensures held { IfOk result (λ b. IsHeld tables.now b.kind) }
{
    let offset = within(base.offset, part.offset)?;
    Ok(typed_base(tables, base.storage, offset, part.ty, false))
}

// What is left of a base n bytes on.
#[tactic(auto, using(crate::proofs::Laws::steps), unfolding(spec::specs::Places::opaque_rest))]
fn rest_base(base: Base, n: u64) -> Result<Base, Refusal>
    ensures step { (T : Ticket) (lists : List ℕ) → rest_step T (base_from lists base) n ≡ outcome_of (base_from lists) result }
    ensures opaque { IfOk result (λ b. b.kind ≡ TypeKind.Opaque b.size) }
{
    let offset = within(base.offset, n)?;
    let size = base.size.saturating_sub(n);
    Ok(Base {
        storage: base.storage,
        offset,
        kind: TypeKind::Opaque(size),
        size,
        bit: false,
    })
}

/// Place line p as a base, `depth` lines deep at most.
#[tactic(auto, using(crate::proofs::Facts::led), unfolding(spec::specs::Places::resolve_place_base, spec::specs::Monad::or_refuse))]
pub fn resolve_place_base(tables: &Tables<'_>, depth: u64, p: u64) -> Result<Base, Refusal>
    ensures step { base_at (ticket_of tables.now.lines) depth p ≡ outcome_of (base_from tables.now.lines.lists.now) result }
    ensures held { IfOk result (λ b. IsHeld tables.now b.kind) }
{
    if depth == 0 {
        return placed_base(tables, tables.lines.variable_at(0));
    }
    match tables.lines.place_at(p) {
        PlaceKind::Variable(k) => placed_base(tables, tables.lines.variable_at(k)),
        PlaceKind::Static(k) => placed_base(tables, tables.lines.static_at(k)),
        PlaceKind::Field(q, i) => {
            let base = resolve_place_base(tables, depth - 1, q)?;
            let part = field_offset(tables, base.kind, i)?;
            part_base(tables, base, part)
        }
        PlaceKind::Element(q, e) => {
            let base = resolve_place_base(tables, depth - 1, q)?;
            let part = element_offset(tables, base.kind, depth - 1, e)?;
            part_base(tables, base, part)
        }
        PlaceKind::Offset(q, e) => {
            let base = resolve_place_base(tables, depth - 1, q)?;
            let n = constant_usize(tables, depth - 1, e).ok_or(Refusal::InvalidPlace)?;
            rest_base(base, n)
        }
    }
}

#[tactic(auto, using(crate::proofs::Laws::steps), unfolding(spec::specs::Places::with_type, spec::specs::Monad::require))]
pub fn with_type(found: Placed, ty: u64) -> Result<Location, Refusal>
    requires { found.offset ≤ offset_limit }
    ensures at { (T : Ticket) → with_type T ty (placed_line found) ≡ outcome_of location_from result }
    ensures near { IfOk result (λ x. x.offset ≤ offset_limit) }
{
    if found.ty != ty {
        return Err(Refusal::TypeMismatch);
    }
    Ok(Location {
        storage: StorageId(found.storage),
        offset: found.offset,
        ty,
        bit: found.bit == 1,
    })
}

// A variable's or a static's location.
#[tactic(auto, using(crate::proofs::Laws::steps), unfolding(spec::specs::Monad::or_refuse))]
fn placed_location(found: Option<Placed>, ty: u64) -> Result<Location, Refusal>
    requires { ForSome found (λ p. p.offset ≤ offset_limit) }
    ensures at { (T : Ticket) → placed_located T ty (option_map placed_line found) ≡ outcome_of location_from result }
    ensures near { IfOk result (λ x. x.offset ≤ offset_limit) }
{
    let p = found.ok_or(Refusal::UnknownPlace)?;
    with_type(p, ty)
}

#[tactic(auto, using(crate::proofs::Laws::steps), unfolding(spec::specs::Places::location_in))]
fn location_in(base: Base, o: u64, ty: u64) -> Result<Location, Refusal>
    ensures at { (T : Ticket) (lists : List ℕ) → location_in T (base_from lists base) o ty ≡ outcome_of location_from result }
    ensures near { IfOk result (λ x. x.offset ≤ offset_limit) }
{
    let offset = within(base.offset, o)?;
    Ok(Location {
        storage: base.storage,
        offset,
        ty,
        bit: false,
    })
}

// 22 comes before 27.
#[tactic(auto, using(crate::proofs::Laws::steps), unfolding(spec::specs::Monad::require))]
fn part_location(base: Base, part: Part, ty: u64) -> Result<Location, Refusal>
    ensures at { (T : Ticket) (lists : List ℕ) → part_located T ty (base_from lists base) (part_from part) ≡ outcome_of location_from result }
    ensures near { IfOk result (λ x. x.offset ≤ offset_limit) }
{
    if part.ty != ty {
        return Err(Refusal::TypeMismatch);
    }
    location_in(base, part.offset, ty)
}

// The kinds stand here again, as in the definitions: one walk for both would need an enum of its ends, and a third definition.
/// Where a value of type ty stands that place line p leads to.
#[tactic(auto, using(crate::proofs::Facts::led), unfolding(spec::specs::Places::resolve_place, spec::specs::Monad::or_refuse))]
pub fn resolve_place(tables: &Tables<'_>, depth: u64, p: u64, ty: u64) -> Result<Location, Refusal>
    ensures at { location_at (ticket_of tables.now.lines) depth p ty ≡ outcome_of location_from result }
    ensures near { IfOk result (λ x. x.offset ≤ offset_limit) }
{
    if depth == 0 {
        return placed_location(tables.lines.variable_at(0), ty);
    }
    match tables.lines.place_at(p) {
        PlaceKind::Variable(k) => placed_location(tables.lines.variable_at(k), ty),
        PlaceKind::Static(k) => placed_location(tables.lines.static_at(k), ty),
        PlaceKind::Field(q, i) => {
            let base = resolve_place_base(tables, depth - 1, q)?;
            let part = field_offset(tables, base.kind, i)?;
            part_location(base, part, ty)
        }
        PlaceKind::Element(q, e) => {
            let base = resolve_place_base(tables, depth - 1, q)?;
            let part = element_offset(tables, base.kind, depth - 1, e)?;
            part_location(base, part, ty)
        }
        PlaceKind::Offset(q, e) => {
            let base = resolve_place_base(tables, depth - 1, q)?;
            let n = constant_usize(tables, depth - 1, e).ok_or(Refusal::InvalidPlace)?;
            location_in(base, n, ty)
        }
    }
}

/// The Rust answers a base and its offset again; a base holds its offset.
pub fn resolve_addressed_place(tables: &Tables<'_>, depth: u64, p: u64) -> Result<Base, Refusal>
    ensures step { base_at (ticket_of tables.now.lines) depth p ≡ outcome_of (base_from tables.now.lines.lists.now) result }
    ensures held { IfOk result (λ b. IsHeld tables.now b.kind) }
{
    resolve_place_base(tables, depth, p)
}
