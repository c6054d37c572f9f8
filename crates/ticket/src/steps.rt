// A line judged and added: refusals 5, 6, 7, 9 and 10.
ghost use Rattle.std.specs.Prelude.{◌≡◌, ◌+◌, ◌*◌, ◌≤◌, length};
ghost use Rattle.spec.specs.Forms.{line_of};
ghost use Rattle.spec.specs.Read.{right_start, step as step_from};
ghost use Rattle.line_checks.specs.Rows.{reading_of};
ghost use Rattle.line_checks.specs.Words.{word_of};
ghost use Rattle.line_checks.specs.Steps.{capped, args_in, deepest_in, MarkedDeep};
ghost use Rattle.ticket.specs.Judged.{Open, types_in, sized_in, allowed_in, added_in, sums_with, Judged, last_step, late_step, StepAt};
ghost use Rattle.ticket.specs.Lines.{SameLine};

use crate::adding::add;
use crate::lines::Line;
use crate::{Extent, numbers_of};
use answers::Refusal;
use line_checks::checks::{early, mark_all};
use line_checks::measures::{alike, measure, within};
use line_checks::types::{Part, Types};
use line_checks::words::TypeWord;
use line_checks::{Measure, limits};
use line_forms::{LineKind, line_form};
use tables::{Counts, word as number};

// 5: types 0 and 1 are bool and pointer.
fn right_start(k: u64, word: TypeWord) -> bool
    ensures { result ≡ right_start k (word_of word) }
{
    match k {
        0 => word == TypeWord::Bool,
        1 => word == TypeWord::Pointer,
        _ => true,
    }
}

fn types_right(line: &Line<'_>) -> bool
    ensures { result ≡ types_in line.now.rows.now line.now.lists.now line.now.counts.now line.now.form.kind line.now.form.word line.now.numbers.now }
{
    match line.form.kind {
        LineKind::Functions => true,
        LineKind::Types => {
            let word = TypeWord::from(line.form.word);
            !alike(line.rows, line.lists, line.counts, word, line.numbers)
                && right_start(line.counts.types, word)
        }
        _ => 2 <= line.counts.types,
    }
}

// 6: a type's size and weight.
fn sized(line: &Line<'_>) -> Option<Measure>
    ensures { result ≡ sized_in line.now.rows.now line.now.counts.now.types line.now.form.kind line.now.form.word line.now.numbers.now }
{
    match line.form.kind {
        LineKind::Types => {
            let types = Types {
                rows: line.rows,
                count: line.counts.types,
            };
            measure(types, TypeWord::from(line.form.word), line.numbers)
        }
        _ => Some(Measure::default()),
    }
}

impl Line<'_> {
    // 7: the depth of what its numbers refer to, or one of them refers to a line a second time.
    fn mark_all(&mut self) -> Option<u64>
        ensures same { SameLine self.old self.new }
        ensures marked { MarkedDeep self.old.rows.now self.new.rows.now self.old.counts.now (args_in self.old.form.kind self.old.form.word self.old.numbers.now) result }
    {
        mark_all(self.form, self.rows, self.numbers, self.counts)
    }
}

// 9: the depth allowed.
fn allowed(kind: LineKind) -> u64
    ensures { result ≡ allowed_in kind }
{
    match kind {
        LineKind::Types => limits::TYPE_DEPTH_LIMIT,
        _ => limits::DEPTH_LIMIT,
    }
}

// 10: what a line adds to the sums: what a node's type measures.
fn added(line: &Line<'_>) -> Measure
    ensures { result ≡ added_in line.now.rows.now line.now.counts.now.types line.now.form.kind line.now.numbers.now }
{
    match line.form.kind {
        LineKind::Nodes => {
            let types = Types {
                rows: line.rows,
                count: line.counts.types,
            };
            let ty = number(line.numbers, 0);
            Measure {
                size: types.part(Part::Size, ty),
                weight: types.part(Part::Weight, ty),
            }
        }
        _ => Measure::default(),
    }
}

// A sum with x, within a limit.
#[tactic(auto, using(line_checks::proofs::MeasureLaws::capping))]
fn total(sum: u64, x: u64, limit: u64) -> Option<u64>
    ensures { result ≡ capped limit (sum + x) }
{
    within(sum.checked_add(x)?, limit)
}

#[tactic(auto, using(line_checks::proofs::MeasureLaws::measuring))]
fn sums(counts: &Counts, added: Measure) -> Option<Measure>
    ensures { result ≡ sums_with counts.now added }
{
    let size = total(counts.sizes, added.size, limits::SIZE_SUM_LIMIT)?;
    let weight = total(counts.weights, added.weight, limits::WEIGHT_SUM_LIMIT)?;
    Some(Measure { size, weight })
}

// 9 and 10, and then the line is added.
#[tactic(auto, using(crate::proofs::JudgeLaws::left, crate::proofs::JudgeLaws::lasting))]
fn last(line: &mut Line<'_>, own: Measure, depth: u64) -> Result<Counts, Refusal>
    requires { depth ≡ deepest_in line.old.rows.now line.old.counts.now (args_in line.old.form.kind line.old.form.word line.old.numbers.now) }
    ensures same { SameLine line.old line.new }
    ensures judged { Judged (last_step line.old.rows.now line.old.lists.now line.old.counts.now line.old.form line.old.numbers.now own) line.new.rows.now line.old.lists.now line.old.counts.now line.old.form.count result }
{
    if allowed(line.form.kind) <= depth {
        return Err(Refusal::TooDeep);
    }
    let sums = sums(line.counts, added(line)).ok_or(Refusal::LargeSums)?;
    let depth = depth + 1;
    Ok(add(line, Extent { own, depth, sums }))
}

// 5, 6 and 7, and then the rest.
#[tactic(auto, using(crate::proofs::JudgeLaws::left, crate::proofs::JudgeLaws::lately))]
fn late(line: &mut Line<'_>) -> Result<Counts, Refusal>
    ensures same { SameLine line.old line.new }
    ensures judged { Judged (late_step line.old.rows.now line.old.lists.now line.old.counts.now line.old.form line.old.numbers.now) line.new.rows.now line.old.lists.now line.old.counts.now line.old.form.count result }
{
    if !types_right(line) {
        return Err(Refusal::BadTypes);
    }
    let own = sized(line).ok_or(Refusal::LargeType)?;
    let depth = line.mark_all().ok_or(Refusal::NotOnce)?;
    last(line, own, depth)
}

// The text of a line without its line feed.
#[tactic(auto, using(crate::proofs::JudgeLaws::left, crate::proofs::StepLaws::stepping))]
pub fn step(
    text: &[u8],
    rows: &mut [u64],
    lists: &mut [u64],
    counts: &Counts,
) -> Result<Counts, Refusal>
    requires { Open rows.old lists.old counts.now × (counts.now.used * 2 + length text.now ≤ length lists.old * 2) }
    ensures { StepAt (step_from (reading_of rows.old lists.old counts.now) (line_of text.now))
        text.now rows.new lists.new counts.now result }
{
    let form = line_form(text, lists, counts.used).ok_or(Refusal::BadForm)?;
    let numbers = numbers_of(form, lists, counts);
    early(form, numbers, counts)?;
    let mut line = Line {
        rows,
        lists,
        counts,
        form,
        numbers,
    };
    late(&mut line)
}
