// Reading within one line: bytes up to a mark, decimal numbers, keywords, and the numbers to a line's end.
// A position in a line may stand one past its end: behind the last field.
#![tactic(auto)]

ghost use Rattle.std.specs.Prelude.{◌≡◌, ◌+◌, ◌*◌, ◌≤◌, length};
ghost use Rattle.spec.specs.Text.{number as number_of, same as same_of, split, comma};
ghost use Rattle.fields.specs.Fields.{Found, EndAt, digits_from, NumberAt, Listing, position, WordAt, Tried, Same, Digits, QuickAt, LoneAt};

/// Where the first b stands from a position on, or the end. No `position`: it counts from where it begins, and the answer is a place in the
/// whole text.
#[tactic(auto, using(crate::proofs::Marks::find_laws))]
pub fn find(s: &[u8], from: usize, b: u8) -> usize
    requires { from ≤ length s.now }
    ensures { Found s.now from b result }
{
    for i in from..s.len() {
        if s[i] == b {
            return i;
        }
    }
    s.len()
}

/// Whether two texts are the same: `==`, with a contract by the definition's own word.
#[tactic(auto, using(crate::proofs::Tabs::same_bytes))]
pub fn same(a: &[u8], b: &[u8]) -> bool
    ensures { result ≡ same_of a.now b.now }
{
    a == b
}

#[tactic(auto, using(crate::proofs::Decimals::digit_laws))]
fn digits(field: &[u8]) -> Option<u64>
    ensures { result ≡ digits_from 0 field.now }
{
    let mut value: u64 = 0;
    for byte in field {
        if !byte.is_ascii_digit() {
            return None;
        }
        value = value.checked_mul(10)?.checked_add(u64::from(*byte - b'0'))?;
    }
    Some(value)
}

/// A whole field as a number. No `FromStr` or `From`: a ticket's numbers have no sign and no leading 0, and the contract is the definition's.
#[tactic(auto, using(crate::proofs::Decimals::number_laws))]
pub fn field_number(field: &[u8]) -> Option<u64>
    ensures { result ≡ number_of field.now }
{
    if field.len() == 0 || field.len() > 1 && field[0] == b'0' {
        return None;
    }
    digits(field)
}

// Where the field at a position ends, if one stands there.
fn field_end(line: &[u8], at: usize) -> Option<usize>
    ensures { EndAt line.now at result }
{
    if line.len() < at {
        return None;
    }
    Some(find(line, at, b','))
}

// `any_number`, `word` and `word_tried` begin alike, by `field_end`; what they read of the field differs.
#[tactic(auto, using(crate::proofs::Lines::number_at))]
fn any_number(line: &[u8], at: usize) -> Option<(u64, usize)>
    ensures { NumberAt line.now at result }
{
    let end = field_end(line, at)?;
    Some((field_number(&line[at..end])?, end + 1))
}

// Digits that end at i, where neither none nor a 0 before others.
#[tactic(auto, using(crate::proofs::OnePass::quick_laws))]
fn whole(line: &[u8], at: usize, i: usize, value: u64) -> Option<(u64, usize)>
    requires { Digits line.now at i value × Found line.now at comma i }
    ensures { QuickAt line.now at result }
{
    if i == at {
        return None;
    }
    if i - at > 1 && line[at] == b'0' {
        return None;
    }
    Some((value, i + 1))
}

// A number of at most 18 digits in one pass; what this does not read, `any_number` judges.
#[tactic(auto, using(crate::proofs::OnePass::quick_laws))]
fn quick(line: &[u8], at: usize) -> Option<(u64, usize)>
    requires { at ≤ length line.now }
    ensures { QuickAt line.now at result }
{
    let mut value: u64 = 0;
    for i in at..line.len() {
        let byte = line[i];
        if byte == b',' {
            return whole(line, at, i, value);
        }
        if !byte.is_ascii_digit() {
            return None;
        }
        if 99_999_999_999_999_999 < value {
            return None;
        }
        value = value * 10 + u64::from(byte - b'0');
    }
    whole(line, at, line.len(), value)
}

/// The number at a position, and where the field behind it starts.
#[tactic(auto, using(crate::proofs::Lines::number_at))]
pub fn number(line: &[u8], at: usize) -> Option<(u64, usize)>
    ensures { NumberAt line.now at result }
{
    if line.len() < at {
        return None;
    }
    quick(line, at).or_else(|| any_number(line, at))
}

// A digit that is a whole field.
#[tactic(auto, using(crate::proofs::OnePass::lone_laws))]
fn lone(line: &[u8], at: usize) -> Option<u8>
    ensures { LoneAt line.now at result }
{
    let byte = *line.get(at)?;
    if !byte.is_ascii_digit() {
        return None;
    }
    if line.len() - at == 1 || line[at + 1] == b',' {
        Some(byte - b'0')
    } else {
        None
    }
}

/// How many numbers stand to the line's end; they go behind the first `used` of the lists, one lent slice for all lines, since there is no heap.
#[tactic(auto, using(crate::proofs::Lines::gone_laws))]
pub fn numbers(line: &[u8], at: usize, lists: &mut [u64], used: usize) -> Option<usize>
    requires { (used * 2 + length line.now ≤ at + length lists.old * 2) × (at ≤ length line.now + 1) }
    ensures { Listing line.now at lists.old lists.new used result }
{
    let mut n = 0;
    let mut from = at;
    // By what was read: the next field's place is known once this one is read, so there is no counted index.
    while from <= line.len() {
        let (value, next) = match lone(line, from) {
            Some(digit) => (u64::from(digit), from + 2),
            None => number(line, from)?,
        };
        lists[used + n] = value;
        from = next;
        n += 1;
    }
    Some(n)
}

/// The place of a field among words that commas part.
#[tactic(auto, using(crate::proofs::Lines::place_among))]
pub fn word_place(words: &[u8], field: &[u8]) -> Option<u64>
    ensures { result ≡ position field.now (split comma words.now) }
{
    let place = words
        .split(|byte| *byte == b',')
        .position(|word| same(word, field))?;
    Some(place as u64)
}

/// The place of the field at a position among the words, and where the field behind it starts.
#[tactic(auto, using(crate::proofs::Lines::word_at))]
pub fn word(line: &[u8], at: usize, words: &[u8]) -> Option<(u64, usize)>
    ensures { WordAt line.now words.now at result }
{
    let end = field_end(line, at)?;
    Some((word_place(words, &line[at..end])?, end + 1))
}

/// A word that is tried before the others: its place among them, and where it stands.
#[derive(Clone, Copy, Debug, PartialEq, Eq)]
pub struct Likely {
    pub place: u64,
    pub start: usize,
    pub end: usize,
}

// Whether a field is what stands where the word is.
fn stands(words: &[u8], field: &[u8], likely: Likely) -> bool
    ensures { Same words.now field.now likely.start likely.end result }
{
    match words.get(likely.start..likely.end) {
        Some(word) => same(word, field),
        None => false,
    }
}

#[tactic(auto, using(crate::proofs::Lines::tried_here))]
fn tried_place(words: &[u8], field: &[u8], likely: Likely) -> Option<u64>
    requires { Tried words.now likely.place likely.start likely.end }
    ensures { result ≡ position field.now (split comma words.now) }
{
    if stands(words, field, likely) {
        return Some(likely.place);
    }
    word_place(words, field)
}

/// As `word`, but one word is tried first.
#[tactic(auto, using(crate::proofs::Lines::word_at))]
pub fn word_tried(line: &[u8], at: usize, words: &[u8], likely: Likely) -> Option<(u64, usize)>
    requires { Tried words.now likely.place likely.start likely.end }
    ensures { WordAt line.now words.now at result }
{
    let end = field_end(line, at)?;
    Some((tried_place(words, &line[at..end], likely)?, end + 1))
}
