// The answer of a function that fills a lent buffer: the length written, or the refusal and its line.
#![tactic(auto)]

ghost use Rattle.std.specs.Prelude.{◌≡◌, ℕ, Some};
ghost use Rattle.answers.specs.Refusals.{refusal_number, refusal_line};

use std::fmt;

/// Reasons that the sender is told by a number.
pub trait Numbered {
    ghost number_of: { Self → ℕ };

    // The numbers are the format's, and two reasons may share one, as two of figures share 41: so each enum has a match, and no discriminants.
    fn number(&self) -> u64
        ensures { result ≡ number_of self.now };
}

/// Why a ticket is refused.
#[derive(Clone, Copy, Debug, PartialEq, Eq)]
pub enum Refusal {
    LongText,
    BadForm,
    OutOfRange,
    NotEarlier,
    BadTypes,
    LargeType,
    NotOnce,
    ManyLines,
    TooDeep,
    LargeSums,
    UnknownPlace,
    InvalidPlace,
    TypeMismatch,
    UnsupportedType,
    UnsupportedExpression,
    ShortPointer,
    LongInteger,
    FarOffset,
    LongListing,
}

impl Numbered for Refusal {
    ghost number_of = { refusal_number };

    // The format's numbers, which leave out some.
    fn number(&self) -> u64 {
        match self {
            Refusal::LongText => 1,
            Refusal::BadForm => 2,
            Refusal::OutOfRange => 3,
            Refusal::NotEarlier => 4,
            Refusal::BadTypes => 5,
            Refusal::LargeType => 6,
            Refusal::NotOnce => 7,
            Refusal::ManyLines => 8,
            Refusal::TooDeep => 9,
            Refusal::LargeSums => 10,
            Refusal::UnknownPlace => 20,
            Refusal::InvalidPlace => 21,
            Refusal::TypeMismatch => 22,
            Refusal::UnsupportedType => 23,
            Refusal::UnsupportedExpression => 24,
            Refusal::ShortPointer => 25,
            Refusal::LongInteger => 26,
            Refusal::FarOffset => 27,
            Refusal::LongListing => 28,
        }
    }
}

/// Why, and the line that it is told for; 0 for the whole text.
#[derive(Clone, Copy, Debug, PartialEq, Eq, Drop)]
pub struct Refused<R> {
    pub refusal: R,
    pub line: u64,
}

impl<R: Numbered> fmt::Display for Refused<R> {
    ghost output = { λ e. Some (refusal_line (R.number_of e.refusal) e.line) };

    fn fmt<W: fmt::Write>(&self, f: &mut fmt::Formatter<W>) -> fmt::Result {
        let number = self.refusal.number();
        let line = self.line;
        write!(f, "refused,{number},{line}")
    }
}
