// Types compared and measured: refusals 5 and 6.
ghost use Rattle.std.specs.Prelude.{◌≡◌, ◌+◌, ◌-◌, ◌*◌, ◌/◌, ◌≤◌, ◌<◌, length};
ghost use Rattle.tables.specs.Tables.{row_of};
ghost use Rattle.spec.specs.Limits.{type_size_limit, type_weight_limit};
ghost use Rattle.spec.specs.Ticket.{sum, type_size_by, weight_by};
ghost use Rattle.spec.specs.Read.{alike as alike_of};
ghost use Rattle.line_checks.specs.Rows.{Held, Roomy, row_at, section, type_row};
ghost use Rattle.line_checks.specs.Keys.{Keyed};
ghost use Rattle.line_checks.specs.Words.{word_of};
ghost use Rattle.line_checks.specs.Types.{part_of};
ghost use Rattle.line_checks.specs.Steps.{capped, measured, alike_to};

use crate::keys::known;
use crate::types::{Part, Types};
use crate::words::TypeWord;
use crate::{Measure, limits};
use tables::{Counts, cell, word as number};

// Whether type k has this word and these numbers.
#[tactic(auto, using(crate::proofs::MeasureLaws::row_ends))]
fn alike_row(
    rows: &[u64],
    lists: &[u64],
    counts: &Counts,
    k: u64,
    word: TypeWord,
    numbers: &[u64],
) -> bool
    requires { Held rows.now counts.now × (counts.now.used ≤ length lists.now) × (k < counts.now.types) }
    ensures { result ≡ alike_to (word_of word) numbers.now (type_row lists.now (row_at rows.now (row_of 0 k))) }
{
    if TypeWord::from(cell(rows, 0, counts.types, k, 0, 0)) != word {
        return false;
    }
    let start = cell(rows, 0, counts.types, k, 1, 0) as usize;
    let n = cell(rows, 0, counts.types, k, 2, 0) as usize;
    numbers == &lists[start..start + n]
}

/// 5: a type alike. Only a type whose key is known is compared with the others. No `==`: a type is a row of words, and its numbers are in
/// the lists.
// A free function: it asks less than a `Line` (crates/ticket) holds.
#[tactic(auto, using(crate::proofs::KeyLaws::unlike_known, crate::proofs::MeasureLaws::alike_start))]
pub fn alike(rows: &[u64], lists: &[u64], counts: &Counts, word: TypeWord, numbers: &[u64]) -> bool
    requires { Held rows.now counts.now × Roomy (length rows.now) counts.now × Keyed rows.now lists.now counts.now.types × (counts.now.used ≤ length lists.now) }
    ensures { result ≡ alike_of (word_of word) numbers.now (section (type_row lists.now) rows.now 0 counts.now.types) }
{
    if !known(rows, word.number(), numbers) {
        return false;
    }
    for k in 0..counts.types {
        if alike_row(rows, lists, counts, k, word, numbers) {
            return true;
        }
    }
    false
}

// A number within a limit.
#[tactic(auto, using(crate::proofs::MeasureLaws::capping))]
pub fn within(n: u64, limit: u64) -> Option<u64>
    ensures { result ≡ capped limit n }
{
    (n <= limit).then_some(n)
}

// The sum of a part of the types that numbers name.
#[tactic(auto, using(crate::proofs::MeasureLaws::summing, crate::proofs::MeasureLaws::capping))]
fn sum_within(types: Types<'_>, part: Part, numbers: &[u64], limit: u64) -> Option<u64>
    ensures { result ≡ capped limit (sum (part_of types.entry.rows.now types.entry.count part) numbers.now) }
{
    let mut total: u64 = 0;
    for ty in numbers {
        total = within(total.checked_add(types.part(part, *ty))?, limit)?;
    }
    Some(total)
}

// A product within a limit.
#[tactic(auto, using(crate::proofs::MeasureLaws::capping))]
fn product_within(a: u64, b: u64, limit: u64) -> Option<u64>
    ensures { result ≡ capped limit (a * b) }
{
    within(a.checked_mul(b)?, limit)
}

// The bits that the most bytes of a type hold.
const WIDTH_LIMIT: u64 = limits::TYPE_SIZE_LIMIT * 8;

// The whole bytes that hold so many bits, by a shift: a host may divide slowly.
fn whole_bytes(width: u64) -> u64
    requires { width ≤ type_size_limit * 8 }
    ensures { result ≡ (width + 7) / 8 }
{
    (width + 7) >> 3
}

#[tactic(auto, using(crate::proofs::MeasureLaws::capping))]
fn bits_size(width: u64) -> Option<u64>
    ensures { result ≡ capped type_size_limit ((width + 7) / 8) }
{
    let width = within(width, WIDTH_LIMIT)?;
    within(whole_bytes(width), limits::TYPE_SIZE_LIMIT)
}

// `type_size`, within the limit.
#[tactic(auto, using(crate::proofs::MeasureLaws::capping))]
fn size(types: Types<'_>, word: TypeWord, numbers: &[u64]) -> Option<u64>
    ensures { result ≡ capped type_size_limit (type_size_by (part_of types.entry.rows.now types.entry.count Part.Size) (word_of word) numbers.now) }
{
    let limit = limits::TYPE_SIZE_LIMIT;
    let first = number(numbers, 0);
    match word {
        TypeWord::Unit => Some(0),
        TypeWord::Bool => Some(1),
        TypeWord::Bits => bits_size(first),
        TypeWord::Float => within(first / 8, limit),
        TypeWord::Pointer => Some(2),
        TypeWord::Array => product_within(types.part(Part::Size, first), number(numbers, 1), limit),
        TypeWord::Struct | TypeWord::Tuple => sum_within(types, Part::Size, numbers, limit),
        TypeWord::Opaque => within(first, limit),
    }
}

// The weight of what a type is made of: its own without the one for itself.
#[tactic(auto, using(crate::proofs::MeasureLaws::capping))]
fn parts_weight(types: Types<'_>, word: TypeWord, numbers: &[u64]) -> Option<u64>
    ensures { result ≡ capped type_weight_limit (weight_by (part_of types.entry.rows.now types.entry.count Part.Weight) (word_of word) numbers.now - 1) }
{
    let limit = limits::TYPE_WEIGHT_LIMIT;
    match word {
        TypeWord::Array => product_within(
            number(numbers, 1),
            types.part(Part::Weight, number(numbers, 0)),
            limit,
        ),
        TypeWord::Struct | TypeWord::Tuple => sum_within(types, Part::Weight, numbers, limit),
        _ => Some(0),
    }
}

#[tactic(auto, using(crate::proofs::MeasureLaws::weighs, crate::proofs::MeasureLaws::capping))]
fn weight(types: Types<'_>, word: TypeWord, numbers: &[u64]) -> Option<u64>
    ensures { result ≡ capped type_weight_limit (weight_by (part_of types.entry.rows.now types.entry.count Part.Weight) (word_of word) numbers.now) }
{
    let parts = parts_weight(types, word, numbers)?;
    within(parts + 1, limits::TYPE_WEIGHT_LIMIT)
}

// 6: a type's size and weight.
#[tactic(auto, using(crate::proofs::MeasureLaws::measuring))]
pub fn measure(types: Types<'_>, word: TypeWord, numbers: &[u64]) -> Option<Measure>
    ensures { result ≡ measured (type_size_by (part_of types.entry.rows.now types.entry.count Part.Size) (word_of word) numbers.now)
        (weight_by (part_of types.entry.rows.now types.entry.count Part.Weight) (word_of word) numbers.now) }
{
    let size = size(types, word, numbers)?;
    let weight = weight(types, word, numbers)?;
    Some(Measure { size, weight })
}
