// The count of what ran and failed.
ghost use Rattle.cases.specs.Tally.{Counted};

use std::io;

/// How many cases ran, and how many of them failed.
#[derive(Clone, Copy, Debug, Default)]
pub struct Tally {
    pub ran: u64,
    pub failed: u64,
}

impl Tally {
    /// One case more.
    pub fn count(&mut self, held: bool)
        ensures { Counted self.old held self.new }
    {
        self.ran = self.ran.saturating_add(1);
        if !held {
            self.failed = self.failed.saturating_add(1);
        }
    }

    /// `N WHAT, M failed`, WHAT being any bytes. It has no `ensures`, since no clause can say what standard output takes.
    pub fn print(self, rt: &impl Print, what: &[u8]) -> io::Result<()> {
        print!(rt; "{} ", self.ran)?;
        rt.write_all(what)?;
        println!(rt; ", {} failed", self.failed)
    }
}
