// Texts as bytes: decimal numbers, fields and lines.
#![tactic(auto)]

ghost use Rattle.std.specs.Prelude.{◌≡◌};
ghost use Rattle.text.specs.Field.{ends_field as ends, number_at, byte_at, next_number_at};
ghost use Rattle.text.specs.Step.{digit_of, Step};

pub mod writer;

fn ends_field(byte: u8) -> bool
    ensures { result ≡ ends byte }
{
    byte == b',' || byte == b'\n'
}

// A digit as a number.
fn digit_value(byte: u8) -> Option<u64>
    ensures { result ≡ digit_of byte }
{
    match byte {
        b'0'..=b'9' => Some(u64::from(byte - b'0')),
        _ => None,
    }
}

// A digit behind digits worth `value`, none of which is a 0 that begins.
#[tactic(auto, using(crate::proofs::Steps::steps))]
fn digit_step(value: u64, byte: u8) -> Option<u64>
    ensures { Step value byte result }
{
    let digit = digit_value(byte)?;
    if value == 0 {
        return None;
    }
    value.checked_mul(10)?.checked_add(digit)
}

/// The number in the field at a position, and the position behind that field.
#[tactic(auto, using(crate::proofs::Positions::positions))]
pub fn number(text: &[u8], at: usize) -> Option<(u64, usize)>
    ensures { result ≡ number_at text.now at }
{
    let mut value = digit_value(*text.get(at)?)?;
    for end in at + 1..text.len() {
        if ends_field(text[end]) {
            return Some((value, end));
        }
        value = digit_step(value, text[end])?;
    }
    Some((value, text.len()))
}

/// The position behind a byte that has to stand at a position.
#[tactic(auto, using(crate::proofs::Words::bytes_at))]
pub fn expect(text: &[u8], at: usize, byte: u8) -> Option<usize>
    ensures { result ≡ byte_at text.now at byte }
{
    if *text.get(at)? == byte {
        Some(at + 1)
    } else {
        None
    }
}

/// A comma at a position, and the number in the field behind it.
pub fn next_number(text: &[u8], at: usize) -> Option<(u64, usize)>
    ensures { result ≡ next_number_at text.now at }
{
    number(text, expect(text, at, b',')?)
}
