// The tests of a line, each for one refusal of document 01's table.
ghost use Rattle.std.specs.Prelude.{◌≡◌, ◌&&◌, length};
ghost use Rattle.spec.specs.Read.{all, rank as rank_of, in_order, in_range_of, in_range, length_fits, bit_fits, fields_fit, first_failed};
ghost use Rattle.line_forms.specs.Classes.{field_of, head_of};
ghost use Rattle.line_checks.specs.Rows.{Few, Roomy};
ghost use Rattle.line_checks.specs.Steps.{verdict_of, few_by_counts, earlier_in, earlier_arg, args_in, depth_in, Marking, MarkedOne, MarkedDeep, early_tests};

use crate::limits;
use crate::rows::mark;
use answers::Refusal;
use line_forms::{Class, Form, LineKind, rule_of};
use tables::{Counts, cell, word as number};

// 2: the order of kinds. Places and nodes are mixed, so it is no order of the kinds.
pub fn rank(kind: LineKind) -> u64
    ensures { result ≡ rank_of (head_of kind 0) }
{
    match kind {
        LineKind::Functions => 0,
        LineKind::Types => 1,
        LineKind::Storages => 2,
        LineKind::Variables => 3,
        LineKind::Statics => 4,
        LineKind::Places | LineKind::Nodes => 5,
    }
}

fn ordered(stage: u64, rank: u64) -> bool
    ensures { result ≡ in_order stage rank }
{
    match stage.checked_sub(1) {
        None => rank == 0,
        Some(last) => 1 <= rank && last <= rank,
    }
}

// 8: lines of a kind. A field of the counts for each kind, here and in crates/ticket: they are read by name as in the definitions.
fn few(kind: LineKind, counts: &Counts) -> bool
    ensures { result ≡ few_by_counts kind counts.now }
{
    match kind {
        LineKind::Functions => true,
        LineKind::Types => counts.types < limits::TYPE_LINES,
        LineKind::Storages => counts.storages < limits::STORAGE_LINES,
        LineKind::Variables => counts.variables < limits::VARIABLE_LINES,
        LineKind::Statics => counts.statics < limits::STATIC_LINES,
        LineKind::Places => counts.places < limits::PLACE_LINES,
        LineKind::Nodes => counts.nodes < limits::NODE_LINES,
    }
}

// 3: ranges, and 4: earlier lines.
fn in_range(class: Class, x: u64) -> bool
    ensures { result ≡ in_range_of (field_of class) x }
{
    match class {
        Class::Between(least, greatest) => (least..=greatest).contains(&x),
        Class::FloatWidth => x == 32 || x == 64,
        _ => true,
    }
}

fn is_earlier(class: Class, counts: &Counts, x: u64) -> bool
    ensures { result ≡ earlier_in counts.now (field_of class) x }
{
    match class {
        Class::Between(_, _) | Class::FloatWidth => true,
        Class::TypePart | Class::TypeLine => x < counts.types,
        Class::StorageLine => x < counts.storages,
        Class::PlaceLine => x < counts.places,
        Class::NodeLine => x < counts.nodes,
    }
}

// Whether numbers are within their ranges, and are earlier lines' numbers where they name lines.
#[derive(Clone, Copy)]
pub struct Seen {
    pub ranged: bool,
    pub earlier: bool,
}

impl Seen {
    // One number more.
    fn look(&mut self, class: Class, counts: &Counts, x: u64)
        ensures ranged { self.new.ranged ≡ (self.old.ranged && in_range_of (field_of class) x) }
        ensures earlier { self.new.earlier ≡ (self.old.earlier && earlier_in counts.now (field_of class) x) }
    {
        self.ranged &= in_range(class, x);
        self.earlier &= is_earlier(class, counts, x);
    }
}

// From field 4 on all are of one class.
#[tactic(auto, using(crate::proofs::CheckLaws::all_none), unfolding(crate::specs::Steps::args_in))]
fn look_over(form: Form, numbers: &[u64], counts: &Counts) -> Seen
    ensures { (result.ranged ≡ all in_range (args_in form.kind form.word numbers.now)) × (result.earlier ≡ all (earlier_arg counts.now) (args_in form.kind form.word numbers.now)) }
{
    let mut seen = Seen {
        ranged: true,
        earlier: true,
    };
    let rule = rule_of(form.kind, form.word);
    let (first, rest) = numbers.split_at(numbers.len().min(4));
    for (i, x) in first.iter().enumerate() {
        seen.look(rule.class(i as u64), counts, *x);
    }
    if !rest.is_empty() {
        let class = rule.class(4);
        for x in rest {
            seen.look(class, counts, *x);
        }
    }
    seen
}

// A storage's LENGTH by its KIND, and BIT by TYPE: numbers as they stand in a line.
fn length_fit(kind: u64, len: u64) -> bool
    ensures { result ≡ length_fits kind len }
{
    if kind == 2 { 1 <= len } else { len == 0 }
}

fn bit_fit(ty: u64, bit: u64) -> bool
    ensures { result ≡ bit_fits ty bit }
{
    bit == 0 || ty == 0
}

fn fields_fit(form: Form, numbers: &[u64]) -> bool
    ensures { result ≡ fields_fit (head_of form.kind form.word) numbers.now }
{
    match form.kind {
        LineKind::Storages => length_fit(number(numbers, 0), number(numbers, 1)),
        LineKind::Variables | LineKind::Statics => bit_fit(number(numbers, 2), number(numbers, 3)),
        _ => true,
    }
}

// 9: depth.
fn depth(class: Class, rows: &[u64], counts: &Counts, x: u64) -> u64
    requires { Few counts.now }
    ensures { result ≡ depth_in rows.now counts.now (field_of class) x }
{
    match class {
        Class::TypePart => cell(rows, 0, counts.types, x, 5, 1),
        Class::PlaceLine => cell(rows, 4, counts.places, x, 4, 0),
        Class::NodeLine => cell(rows, 5, counts.nodes, x, 4, 0),
        _ => 0,
    }
}

// 7: each line is referred to once.
fn mark_class(class: Class, rows: &mut [u64], counts: &Counts, x: u64) -> bool
    requires { Few counts.now × Roomy (length rows.old) counts.now }
    ensures { Marking rows.old rows.new counts.now (field_of class) x result }
{
    match class {
        Class::PlaceLine => mark(rows, 4, counts.places, x),
        Class::NodeLine => mark(rows, 5, counts.nodes, x),
        _ => true,
    }
}

// 7 and the depth, a number more.
fn mark_one(class: Class, rows: &mut [u64], counts: &Counts, x: u64, most: u64) -> Option<u64>
    requires { Few counts.now × Roomy (length rows.old) counts.now }
    ensures { MarkedOne rows.old rows.new counts.now (field_of class) x most result }
{
    if !mark_class(class, rows, counts, x) {
        return None;
    }
    Some(most.max(depth(class, rows, counts, x)))
}

/// The depth of what numbers refer to, or one of them refers to a line a second time.
// A free function: it asks less than a `Line` (crates/ticket) holds. It walks the numbers as `look_over` does: one walk for both would be
// handed a closure that changes the rows, and be no plainer.
#[tactic(auto, unfolding(crate::specs::Steps::args_in))]
pub fn mark_all(form: Form, rows: &mut [u64], numbers: &[u64], counts: &Counts) -> Option<u64>
    requires { Few counts.now × Roomy (length rows.old) counts.now }
    ensures { MarkedDeep rows.old rows.new counts.now (args_in form.kind form.word numbers.now) result }
{
    let rule = rule_of(form.kind, form.word);
    let mut most: u64 = 0;
    let (first, rest) = numbers.split_at(numbers.len().min(4));
    for (i, x) in first.iter().enumerate() {
        most = mark_one(rule.class(i as u64), rows, counts, *x, most)?;
    }
    if !rest.is_empty() {
        let class = rule.class(4);
        for x in rest {
            most = mark_one(class, rows, counts, *x, most)?;
        }
    }
    Some(most)
}

/// 2, 8, 3 and 4, in this order.
#[tactic(auto, unfolding(spec::specs::Read::first_failed))]
pub fn early(form: Form, numbers: &[u64], counts: &Counts) -> Result<(), Refusal>
    ensures { verdict_of result ≡ first_failed (early_tests form numbers.now counts.now) }
{
    if !ordered(counts.stage, rank(form.kind)) {
        return Err(Refusal::BadForm);
    }
    if !few(form.kind, counts) {
        return Err(Refusal::ManyLines);
    }
    let seen = look_over(form, numbers, counts);
    if !seen.ranged || !fields_fit(form, numbers) {
        return Err(Refusal::OutOfRange);
    }
    if !seen.earlier {
        return Err(Refusal::NotEarlier);
    }
    Ok(())
}
