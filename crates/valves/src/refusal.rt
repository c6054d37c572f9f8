// Why a valve map has no ticket.
ghost use Rattle.std.specs.Prelude.{◌≡◌};
ghost use Rattle.valves.specs.Refusals.{refusal_number};

use answers::{Numbered, Refused};

/// Why a valve map has no ticket.
#[derive(Clone, Copy, Debug, PartialEq, Eq)]
pub enum Refusal {
    /// The board has other than 1 to 64 valves, or the map is not one of the board's.
    BadMap,
    /// The mask has other than eight bytes.
    BadMask,
    /// The ticket is longer than the buffer.
    LongTicket,
}

impl Numbered for Refusal {
    ghost number_of = { refusal_number };

    // The format's numbers, by a match as for every enum of refusals (see `Numbered`).
    fn number(&self) -> u64 {
        match self {
            Refusal::BadMap => 35,
            Refusal::BadMask => 36,
            Refusal::LongTicket => 28,
        }
    }
}

// It is told for the whole map.
impl From<Refusal> for Refused<Refusal> {
    ghost from_gives = { λ r e. e ≡ record { refusal = r; line = 0 } };

    fn from(refusal: Refusal) -> Refused<Refusal> {
        Refused { refusal, line: 0 }
    }
}
