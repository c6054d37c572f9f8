// `lower_expression` over numbered node lines: a node's operands first, and then its own step over what they left. An aggregate's parts
// stand on the lent stack, from the top that was there before the node.
#![tactic(auto)]

ghost use Rattle.std.specs.Prelude.{◌≡◌};
ghost use Rattle.spec.specs.Hir.{convert, select, aggregate, extract_element, insert_element};
ghost use Rattle.spec.specs.Ticket as ticket;
ghost use Rattle.spec.specs.Ticket.{expr_at, nowhere};
ghost use Rattle.spec.specs.Lower.{lower_expression};
ghost use Rattle.tables.specs.Tables.{tree_of};
ghost use Rattle.tables.specs.Ticket.{ticket_of};
ghost use Rattle.values.specs.Left.{counters_in, Holds, MeetsValue};
ghost use Rattle.reads.specs.Reading.{at_of};
ghost use Rattle.lowering.specs.Nodes.{kids, MeetsHead};
ghost use Rattle.lowering.specs.Rooms.{TreeRoom, NodeRoom};

use answers::{Refusal, Refused};
use lir::NodeId;
use reads::At;
use tables::{NodeKind, Tables};
use values::{Lowering, Repr, Value};

/// The node of line k, its tree as deep as `depth`.
#[cycle(lower)]
#[tactic(auto, using(tables::proofs::Laws::tree_none, values::specs::Left::shown_refused, reads::proofs::Laws::passed, crate::proofs::NodeLaws::found, crate::proofs::NodeLaws::found_room, crate::proofs::NodeLaws::meets_restored))]
pub fn lower_expression(
    tables: &Tables<'_>,
    l: &mut Lowering<'_>,
    k: u64,
    depth: u64,
) -> Result<Value, Refused<Refusal>>
    requires { TreeRoom (ticket_of tables.now.lines) (expr_at depth (ticket_of tables.now.lines) k) l.old }
    ensures meets { MeetsValue l.old (lower_expression (ticket_of tables.now.lines) (expr_at depth (ticket_of tables.now.lines) k) nowhere (counters_in l.old)) l.new result }
    ensures holds { Holds l.old l.new }
{
    if depth == 0 {
        return Ok(steps::lower_null(At {
            line: 0,
            node: NodeId(0),
            ty: 0,
        }));
    }
    let h = At {
        line: tables.lines.node_line(k),
        node: NodeId(k),
        ty: tables.lines.node_type(k),
    };
    let outer = l.out.node;
    l.out.node = h.node;
    let value = lower_node(tables, l, tables.lines.node_at(k), depth - 1, h)?;
    l.out.node = outer;
    Ok(value)
}

// A node by its kind. Floats have no bytes, and nothing is done with them.
#[cycle(lower)]
#[tactic(auto, using(steps::proofs::Asks::told_stops, steps::proofs::Asks::shows_stops, crate::proofs::NodeLaws::float_refused, crate::proofs::NodeLaws::operation_refused, crate::proofs::RoomLaws::read_room, crate::proofs::RoomLaws::one_room, crate::proofs::RoomLaws::two_room), unfolding(spec::specs::Lower::lower_expression, spec::specs::Readable::node_sum))]
fn lower_node(
    tables: &Tables<'_>,
    l: &mut Lowering<'_>,
    kind: NodeKind,
    depth: u64,
    h: At,
) -> Result<Value, Refused<Refusal>>
    requires { NodeRoom (ticket_of tables.now.lines) h.node.0 (tree_of (ticket_of tables.now.lines) tables.now.lines.lists.now depth (at_of h) kind) l.old }
    ensures meets { MeetsValue l.old (lower_expression (ticket_of tables.now.lines) (tree_of (ticket_of tables.now.lines) tables.now.lines.lists.now depth (at_of h) kind) nowhere (counters_in l.old)) l.new result }
    ensures holds { Holds l.old l.new }
{
    match kind {
        NodeKind::Bool(v) => Ok(steps::lower_bool(v, h)),
        NodeKind::Int(v) => steps::lower_integer(&tables.lines, v, h.ty, h),
        NodeKind::F32(_) | NodeKind::F64(_) => Err(h.refuse(Refusal::UnsupportedType)),
        NodeKind::Null => Ok(steps::lower_null(h)),
        NodeKind::StaticAddress(k, o) => steps::lower_static_address(&tables.lines, l, k, o, h),
        NodeKind::Function(f) => Ok(steps::lower_function_address(l, f)),
        NodeKind::Read(p) => steps::lower_read(tables, l, depth, p, h.ty, h),
        NodeKind::Unary(op, e) => {
            let operand = lower_head(tables, l, e, depth)?;
            arithmetic::lower_integer_unary(tables, l, op, operand, h)
        }
        NodeKind::Binary(op, a, b) => {
            let left = lower_head(tables, l, a, depth)?;
            let right = lower_head(tables, l, b, depth)?;
            arithmetic::lower_integer_binary(tables, l, op, left, right, h)
        }
        NodeKind::Funary(_) | NodeKind::Fbinary(_, _) => {
            Err(h.refuse(Refusal::UnsupportedExpression))
        }
        NodeKind::Compare(op, a, b) => {
            let left = lower_head(tables, l, a, depth)?;
            let right = lower_head(tables, l, b, depth)?;
            steps::lower_compare(&tables.lines, l, op, left, right, h)
        }
        NodeKind::Convert(op, e) => lower_conversion(tables, l, op, e, depth, h),
        NodeKind::Select(t, f, c) => lower_select(tables, l, t, f, c, depth, h),
        NodeKind::Address(p) => steps::lower_address_of(tables, l, depth, p, h),
        NodeKind::Offset(b, o) => {
            let base = lower_head(tables, l, b, depth)?;
            let offset = lower_head(tables, l, o, depth)?;
            conversions::lower_pointer_offset(l, base, offset, h)
        }
        NodeKind::Aggregate(start, n) => lower_aggregate(tables, l, start, n, depth, h),
        NodeKind::Extract(e, i) => lower_extract(tables, l, e, i, depth, h),
        NodeKind::Insert(e, i, w) => lower_insert(tables, l, e, i, w, depth, h),
    }
}

// A node for a step that looks at its value's head alone; the parts are let go.
#[cycle(lower)]
#[tactic(auto, using(crate::proofs::StepLaws::head_meets, crate::proofs::RoomLaws::tree_top))]
fn lower_head(
    tables: &Tables<'_>,
    l: &mut Lowering<'_>,
    k: u64,
    depth: u64,
) -> Result<Value, Refused<Refusal>>
    requires { TreeRoom (ticket_of tables.now.lines) (expr_at depth (ticket_of tables.now.lines) k) l.old }
    ensures meets { MeetsHead l.old (lower_expression (ticket_of tables.now.lines) (expr_at depth (ticket_of tables.now.lines) k) nowhere (counters_in l.old)) l.new result }
    ensures holds { Holds l.old l.new }
{
    let top = l.top;
    let value = lower_expression(tables, l, k, depth)?;
    l.top = top;
    Ok(value)
}

// A value under another type keeps its parts.
#[cycle(lower)]
#[tactic(auto, using(steps::proofs::Asks::shows_stops, crate::proofs::RoomLaws::one_room), unfolding(spec::specs::Readable::node_sum, spec::specs::Lower::lower_expression))]
fn lower_conversion(
    tables: &Tables<'_>,
    l: &mut Lowering<'_>,
    op: u64,
    e: u64,
    depth: u64,
    h: At,
) -> Result<Value, Refused<Refusal>>
    requires { NodeRoom (ticket_of tables.now.lines) h.node.0 (convert (at_of h) (ticket.conversion_op op) (expr_at depth (ticket_of tables.now.lines) e)) l.old }
    ensures meets { MeetsValue l.old (lower_expression (ticket_of tables.now.lines) (convert (at_of h) (ticket.conversion_op op) (expr_at depth (ticket_of tables.now.lines) e)) nowhere (counters_in l.old)) l.new result }
    ensures holds { Holds l.old l.new }
{
    if conversions::is_reinterpret(op) {
        let whole = lower_expression(tables, l, e, depth)?;
        return conversions::reinterpreted(&tables.lines, whole, h);
    }
    let operand = lower_head(tables, l, e, depth)?;
    conversions::lower_conversion(tables, l, op, operand, h)
}

// Both arms are lowered, and then the condition.
#[cycle(lower)]
#[tactic(auto, using(steps::proofs::Asks::shows_stops), unfolding(spec::specs::Lower::lower_expression))]
fn lower_select(
    tables: &Tables<'_>,
    l: &mut Lowering<'_>,
    t: u64,
    f: u64,
    c: u64,
    depth: u64,
    h: At,
) -> Result<Value, Refused<Refusal>>
    requires { NodeRoom (ticket_of tables.now.lines) h.node.0 (select (at_of h) (expr_at depth (ticket_of tables.now.lines) t) (expr_at depth (ticket_of tables.now.lines) f) (expr_at depth (ticket_of tables.now.lines) c)) l.old }
    ensures meets { MeetsValue l.old (lower_expression (ticket_of tables.now.lines) (select (at_of h) (expr_at depth (ticket_of tables.now.lines) t) (expr_at depth (ticket_of tables.now.lines) f) (expr_at depth (ticket_of tables.now.lines) c)) nowhere (counters_in l.old)) l.new result }
    ensures holds { Holds l.old l.new }
{
    let top = l.top;
    let yes = lower_expression(tables, l, t, depth)?;
    let middle = l.top;
    let no = lower_expression(tables, l, f, depth)?;
    let end = l.top;
    let condition = lower_head(tables, l, c, depth)?;
    let bit = steps::value_as_bit(&tables.lines, l, condition, h)?;
    l.top = top;
    selects::lower_select(tables, l, bit, yes, no, middle, end, h)
}

// The n nodes of a list, each above its own head's record.
#[cycle(lower)]
fn lower_aggregate(
    tables: &Tables<'_>,
    l: &mut Lowering<'_>,
    start: u64,
    n: u64,
    depth: u64,
    h: At,
) -> Result<Value, Refused<Refusal>>
    requires { NodeRoom (ticket_of tables.now.lines) h.node.0 (aggregate (at_of h) (kids (ticket_of tables.now.lines) tables.now.lines.lists.now depth start n)) l.old }
    ensures meets { MeetsValue l.old (lower_expression (ticket_of tables.now.lines) (aggregate (at_of h) (kids (ticket_of tables.now.lines) tables.now.lines.lists.now depth start n)) nowhere (counters_in l.old)) l.new result }
    ensures holds { Holds l.old l.new }
{
    let from = l.top;
    for i in 0..n {
        let top = l.top;
        l.top += 8;
        let part = lower_expression(tables, l, tables.lines.list_at(start, i), depth)?;
        values::store8(l.stack, top, values::value_words(part));
    }
    let records = (l.top - from) / 8;
    Ok(Value {
        ty: h.ty,
        repr: Repr::Aggregate(n, records as u64),
    })
}

// Part i of a node's value.
#[cycle(lower)]
#[tactic(auto, using(steps::proofs::Asks::shows_stops, crate::proofs::RoomLaws::one_room), unfolding(spec::specs::Readable::node_sum, spec::specs::Lower::lower_expression))]
fn lower_extract(
    tables: &Tables<'_>,
    l: &mut Lowering<'_>,
    e: u64,
    i: u64,
    depth: u64,
    h: At,
) -> Result<Value, Refused<Refusal>>
    requires { NodeRoom (ticket_of tables.now.lines) h.node.0 (extract_element (at_of h) (expr_at depth (ticket_of tables.now.lines) e) i) l.old }
    ensures meets { MeetsValue l.old (lower_expression (ticket_of tables.now.lines) (extract_element (at_of h) (expr_at depth (ticket_of tables.now.lines) e) i) nowhere (counters_in l.old)) l.new result }
    ensures holds { Holds l.old l.new }
{
    let top = l.top;
    let whole = lower_expression(tables, l, e, depth)?;
    let (part, end) = parts::extract(l.stack, top, l.top, whole, i).map_err(|r| h.refuse(r))?;
    l.top = end;
    Ok(part)
}

// A node's value with another's for its part i.
#[cycle(lower)]
#[tactic(auto, using(steps::proofs::Asks::shows_stops, crate::proofs::RoomLaws::two_room), unfolding(spec::specs::Readable::node_sum, spec::specs::Lower::lower_expression))]
fn lower_insert(
    tables: &Tables<'_>,
    l: &mut Lowering<'_>,
    e: u64,
    i: u64,
    w: u64,
    depth: u64,
    h: At,
) -> Result<Value, Refused<Refusal>>
    requires { NodeRoom (ticket_of tables.now.lines) h.node.0 (insert_element (at_of h) (expr_at depth (ticket_of tables.now.lines) e) i (expr_at depth (ticket_of tables.now.lines) w)) l.old }
    ensures meets { MeetsValue l.old (lower_expression (ticket_of tables.now.lines) (insert_element (at_of h) (expr_at depth (ticket_of tables.now.lines) e) i (expr_at depth (ticket_of tables.now.lines) w)) nowhere (counters_in l.old)) l.new result }
    ensures holds { Holds l.old l.new }
{
    let top = l.top;
    let whole = lower_expression(tables, l, e, depth)?;
    let middle = l.top;
    let part = lower_expression(tables, l, w, depth)?;
    let (changed, end) = parts::insert(l.stack, top, middle, l.top, whole, i, part, h.ty).map_err(
        |r| h.refuse(r),
    )?;
    l.top = end;
    Ok(changed)
}
