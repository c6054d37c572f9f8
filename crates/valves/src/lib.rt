// Valve maps as tickets: the panel's mask of eight bytes or the phone's list of valve numbers becomes the ticket that opens those valves.
#![tactic(auto)]

mod board;
mod refusal;

ghost use Rattle.std.specs.Prelude.{length};
ghost use Rattle.valves.specs.Tickets.{mask_answer, list_answer};
ghost use Rattle.valves.specs.Shown.{Answers};

use answers::Refused;
use board::Board;
pub use refusal::Refusal;

/// The ticket for the panel's mask: eight bytes, the lowest first.
pub fn mask_ticket(n: u64, mask: &[u8], buffer: &mut [u8]) -> Result<usize, Refused<Refusal>>
    ensures { Answers (mask_answer n mask.now (length buffer.old)) buffer.old buffer.new result }
{
    let board = Board::new(n).ok_or(Refusal::BadMap)?;
    let mask = <[u8; 8]>::try_from(mask).map_err(|_| Refusal::BadMask)?;
    let m = board.mask_map(mask).ok_or(Refusal::BadMap)?;
    Ok(board.write(m, buffer)?)
}

/// The ticket for the phone's list: valve numbers with commas, strictly rising.
pub fn list_ticket(n: u64, list: &[u8], buffer: &mut [u8]) -> Result<usize, Refused<Refusal>>
    ensures { Answers (list_answer n list.now (length buffer.old)) buffer.old buffer.new result }
{
    let board = Board::new(n).ok_or(Refusal::BadMap)?;
    let m = board.list_map(list).ok_or(Refusal::BadMap)?;
    Ok(board.write(m, buffer)?)
}
