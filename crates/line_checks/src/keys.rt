// Keys of types: whether a type like a new one may be there, without comparing it with each.
ghost use Rattle.std.specs.Prelude.{◌≡◌, ◌/◌, ◌≤◌, ◌<◌, length};
ghost use Rattle.line_checks.specs.Keys.{key_lines as keys_for, key_of, slot_of, stands as stands_of, has_key, noted};

use crate::limits;

// A number from a type's word and its numbers.
#[tactic(auto, using(crate::proofs::KeyLaws::keying))]
fn key(word: u64, numbers: &[u64]) -> u64
    ensures { (result ≡ key_of word numbers.now) × (result < 4294967296) }
{
    let mut h = word % 4294967296;
    for x in numbers {
        h = (h * 31 + x % 4294967296) % 4294967296;
    }
    h
}

// For how many lines there are words for keys: four for each, behind all rows.
#[tactic(auto, using(crate::proofs::KeyLaws::keys_least))]
pub fn key_lines(len: usize) -> usize
    ensures { (result ≡ keys_for len) × (result ≤ len / 40) }
{
    limits::KEY_LINES.min(len / 40)
}

// Where a key's word stands: five in each row behind those of lines, as marks are in the sixth. With fewer than 40 words there is none, and a
// line has 40 at least (`Roomy`).
#[tactic(auto, using(crate::proofs::KeyLaws::keys_some, crate::proofs::KeyLaws::slot_is))]
fn slot(len: usize, key: u64) -> usize
    requires { 40 ≤ len }
    ensures { (result ≡ slot_of len key) × (result < len) }
{
    let n = key_lines(len);
    let s = key as usize % (n * 3);
    (len / 40 * 6 + s / 5) * 6 + s % 5
}

// A key's word is 0 for no key, 1 for several, and 2 more than the key for one.
fn stands(word: u64, key: u64) -> bool
    requires { key < 4294967296 }
    ensures { result ≡ stands_of word key }
{
    word == 1 || word == key + 2
}

// Whether a type may have this word, by its number as it stands in a row, and these numbers.
#[tactic(auto, using(crate::proofs::KeyLaws::known_is))]
pub fn known(rows: &[u64], word: u64, numbers: &[u64]) -> bool
    requires { 40 ≤ length rows.now }
    ensures { result ≡ has_key rows.now (key_of word numbers.now) }
{
    let k = key(word, numbers);
    let at = slot(rows.len(), k);
    stands(rows[at], k)
}

// Notes that a type has this word and these numbers.
#[tactic(auto, using(crate::proofs::KeyLaws::noting))]
pub fn note(rows: &mut [u64], word: u64, numbers: &[u64])
    requires { 40 ≤ length rows.old }
    ensures { rows.new ≡ noted rows.old (key_of word numbers.now) }
{
    let k = key(word, numbers);
    let at = slot(rows.len(), k);
    rows[at] = if rows[at] == 0 { k + 2 } else { 1 };
}
