// Valve weeks by row: blocks of 64 bytes transposed between days and valves, and bytes mirrored.
#![tactic(auto)]

mod table;

ghost use Rattle.std.specs.Prelude.{◌≡◌, ◌+◌, ◌*◌, ◌^◌, ◌<◌, length};
ghost use Rattle.blocks.specs.Blocks.{transposed, transposed_back, all_mirrored};
ghost use Rattle.blocks.specs.Words.{exchanged, transposed_word, word_at, Spread, places_of};
ghost use Rattle.blocks.specs.Shown.{refusal_number, turned, Answers, Judged};

use answers::{Numbered, Refused};
use table::MIRRORED;

/// Why blocks are refused.
#[derive(Clone, Copy, Debug, PartialEq, Eq)]
pub enum Refusal {
    /// An input that is no whole number of blocks.
    Uneven,
    /// An output shorter than the input.
    Short,
}

impl Numbered for Refusal {
    ghost number_of = { refusal_number };

    // The format's numbers, by a match as for every enum of refusals (see `Numbered`).
    fn number(&self) -> u64 {
        match self {
            Refusal::Uneven => 39,
            Refusal::Short => 40,
        }
    }
}

// Whether the lengths of an input and its output are right.
#[tactic(auto, unfolding(crate::specs::Shown::of_tests))]
fn judge(length: usize, room: usize) -> Result<(), Refused<Refusal>>
    ensures { Judged length room result }
{
    if length % 64 != 0 {
        return Err(Refused {
            refusal: Refusal::Uneven,
            line: 0,
        });
    }
    if room < length {
        return Err(Refused {
            refusal: Refusal::Short,
            line: 0,
        });
    }
    Ok(())
}

// Eight places, one step apart.
#[derive(Clone, Copy)]
struct Places {
    first: usize,
    step: usize,
}

// Each bit p that the mask has changes places with bit p + distance.
#[tactic(auto, unfolding(crate::specs::Words::apart, crate::specs::Words::exchanged))]
fn exchange(word: u64, distance: u64, mask: u64) -> u64
    requires { distance < 64 }
    ensures { result ≡ exchanged word distance mask }
{
    let apart = (word ^ (word >> distance)) & mask;
    word ^ apart ^ (apart << distance)
}

// A word as a square of eight by eight bits, transposed: first in squares of two by two, then of four, then the whole.
#[tactic(auto, unfolding(crate::specs::Words::transposed_word))]
fn transpose_word(word: u64) -> u64
    ensures { result ≡ transposed_word word }
{
    let pairs = exchange(word, 7, 0x00aa_00aa_00aa_00aa);
    let fours = exchange(pairs, 14, 0x0000_cccc_0000_cccc);
    exchange(fours, 28, 0x0000_0000_f0f0_f0f0)
}

// The bytes at these places, the first lowest.
#[tactic(auto, using(crate::proofs::Words::inside, crate::proofs::Words::word_is))]
fn read_word(input: &[u8], from: Places) -> u64
    requires { from.first + from.step * 7 < length input.now }
    ensures { result ≡ word_at input.now from.first from.step }
{
    let mut bytes = [0; 8];
    for (i, byte) in bytes.iter_mut().enumerate() {
        *byte = input[from.first + from.step * i];
    }
    u64::from_le_bytes(bytes)
}

// The bytes of a word, the lowest first, to these places.
#[tactic(auto, using(crate::proofs::Words::inside, crate::proofs::Words::spread_none))]
fn write_word(output: &mut [u8], to: Places, word: u64)
    requires apart { 0 < to.step }
    requires inside { to.first + to.step * 7 < length output.old }
    ensures { Spread word to.first to.step 8 output.old output.new }
{
    for (i, byte) in word.to_le_bytes().iter().enumerate() {
        output[to.first + to.step * i] = *byte;
    }
}

// Which way blocks are transposed.
#[derive(Clone, Copy)]
enum Direction {
    ToValves,
    ToDays,
}

impl Direction {
    // Where square t is read and where it is written: one byte of each of eight days, and those of the same eight valves, one behind the other.
    fn places(self, t: usize) -> (Places, Places)
        requires { t < 2 ^ 60 }
        ensures { result ≡ places_of self t }
    {
        let days = Places {
            first: t / 8 * 64 + t % 8,
            step: 8,
        };
        let valves = Places {
            first: t * 8,
            step: 1,
        };
        match self {
            Direction::ToValves => (days, valves),
            Direction::ToDays => (valves, days),
        }
    }
}

// A square transposed is the same eight bytes the other way. Inlined, so that for each way the steps are constants.
#[inline(always)]
fn transpose_blocks(
    way: Direction,
    input: &[u8],
    output: &mut [u8],
) -> Result<usize, Refused<Refusal>>
    ensures { Answers (turned way) input.now output.old output.new result }
{
    judge(input.len(), output.len())?;
    for t in 0..input.len() / 8 {
        let (from, to) = way.places(t);
        let word = read_word(input, from);
        write_word(output, to, transpose_word(word));
    }
    Ok(input.len())
}

/// Each block by valve: byte v has valve v + 1, bit d for day d.
pub fn transpose(input: &[u8], output: &mut [u8]) -> Result<usize, Refused<Refusal>>
    ensures { Answers transposed input.now output.old output.new result }
{
    transpose_blocks(Direction::ToValves, input, output)
}

/// Each block by day again.
pub fn transpose_back(input: &[u8], output: &mut [u8]) -> Result<usize, Refused<Refusal>>
    ensures { Answers transposed_back input.now output.old output.new result }
{
    transpose_blocks(Direction::ToDays, input, output)
}

/// Each byte with its bits in the other order.
pub fn mirror(input: &[u8], output: &mut [u8]) -> Result<usize, Refused<Refusal>>
    ensures { Answers all_mirrored input.now output.old output.new result }
{
    judge(input.len(), output.len())?;
    for (k, byte) in input.iter().enumerate() {
        output[k] = MIRRORED[usize::from(*byte)];
    }
    Ok(input.len())
}
