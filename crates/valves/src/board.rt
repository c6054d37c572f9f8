// A board's maps as numbers, in which valve v is bit v - 1, and the ticket that opens the valves of one.
ghost use Rattle.std.specs.Prelude.{◌≤◌};

use super::Refusal;
use text::writer::Writer;

/// A board of 1 to 64 valves.
#[derive(Clone, Copy)]
pub struct Board {
    valves: u64,
    ghost positive: { 1 ≤ valves },
    ghost fits: { valves ≤ 64 },
}

impl Board {
    ghost use Rattle.std.specs.Prelude.{◌≡◌, MatchOption, Some, ◌&&◌, false, nat_le, length};
    ghost use Rattle.text.specs.Put.{Put};
    ghost use Rattle.text.specs.Writes.{Writes};
    ghost use Rattle.valves.specs.Maps.{mask_valves, list_valves, board_map};
    ghost use Rattle.valves.specs.Tickets.{types_text, storage_text, ticket_text};
    ghost use Rattle.valves.specs.Shown.{Written};

    pub fn new(valves: u64) -> Option<Board>
        ensures { MatchOption result ((nat_le 1 valves && nat_le valves 64) ≡ false) (λ b. b.valves ≡ valves) }
    {
        match valves {
            1..=64 => Some(Board { valves }),
            _ => None,
        }
    }

    /// A mask's map: no bit from N on is set.
    #[tactic(auto, using(crate::proofs::Masks::mask_laws))]
    pub fn mask_map(self, mask: [u8; 8]) -> Option<u64>
        ensures { result ≡ board_map self.valves (Some (mask_valves mask)) }
    {
        let m = u64::from_le_bytes(mask);
        if self.valves < 64 && m >> self.valves != 0 {
            return None;
        }
        Some(m)
    }

    /// A list's map: each valve is above the last, and none is over N. A list of no bytes has no field.
    #[tactic(auto, using(crate::proofs::Lists::list_laws))]
    pub fn list_map(self, list: &[u8]) -> Option<u64>
        ensures { result ≡ board_map self.valves (list_valves list.now) }
    {
        if list.is_empty() {
            return Some(0);
        }
        let mut last = 0;
        let mut m: u64 = 0;
        for field in list.split(|byte| *byte == b',') {
            let v = fields::field_number(field)?;
            if v <= last || self.valves < v {
                return None;
            }
            m += 1 << (v - 1);
            last = v;
        }
        Some(m)
    }

    // The function and the types: bool, pointer and bits N.
    fn print_types(self, to: &mut Writer<'_>)
        ensures { Writes to.old (types_text self.valves) to.new }
    {
        to.bytes(b"f,0,0\nt,bool\nt,pointer\nt,bits,");
        to.number(self.valves);
        to.put(b'\n');
    }

    // The storage: the function's own, with just the bytes of the type.
    fn print_storage(self, to: &mut Writer<'_>)
        ensures { Writes to.old (storage_text self.valves) to.new }
    {
        to.bytes(b"s,2,");
        to.number(self.valves.div_ceil(8));
        to.bytes(b",1,36\n");
    }

    // Its three parts, one behind the other.
    fn print_ticket(self, m: u64, to: &mut Writer<'_>)
        ensures { Writes to.old (ticket_text self.valves m) to.new }
    {
        self.print_types(to);
        self.print_storage(to);
        print_nodes(to, m);
    }

    fn put(self, m: u64, buffer: &mut [u8]) -> usize
        ensures { Put buffer.old 0 (ticket_text self.valves m) buffer.new result }
    {
        let mut to = Writer::new(buffer);
        self.print_ticket(m, &mut to);
        to.at
    }

    /// The ticket, in a buffer that has room for it. It is printed over a byte of our own first, which finds its length: so a refusal writes nothing.
    pub fn write(self, m: u64, buffer: &mut [u8]) -> Result<usize, Refusal>
        ensures { Written (ticket_text self.valves m) buffer.old buffer.new result }
    {
        let end = self.put(m, &mut [0; 1]);
        if buffer.len() < end {
            return Err(Refusal::LongTicket);
        }
        Ok(self.put(m, buffer))
    }
}

ghost use Rattle.text.specs.Writes.{Writes};
ghost use Rattle.valves.specs.Tickets.{nodes_text};

// The variable's read, the map, and their OR.
fn print_nodes(to: &mut Writer<'_>, m: u64)
    ensures { Writes to.old (nodes_text m) to.new }
{
    to.bytes(b"v,0,0,2,0\np,variable,0\nn,2,read,0\nn,2,int,");
    to.number(m);
    to.bytes(b"\nn,2,binary,8,0,1\n");
}
