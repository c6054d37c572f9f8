// The tests of a line, and the words that they read and mark.
#![tactic(auto)]

pub mod checks;
pub mod keys;
pub mod limits;
pub mod measures;
pub mod rows;
pub mod types;
pub mod words;

/// A size and a weight: a type's, or a sum of them.
#[derive(Clone, Copy, Debug, Default, PartialEq, Eq)]
pub struct Measure {
    pub size: u64,
    pub weight: u64,
}
