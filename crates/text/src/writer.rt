// Text put behind what was written before. What has no room is dropped, and counted all the same.
ghost use Rattle.std.specs.Prelude.{◌≡◌, ◌∷◌, ◌++◌, [], ◌≤◌, ◌<◌};
ghost use Rattle.spec.specs.Text.{comma, digits};
ghost use Rattle.text.specs.Writes.{Writes};

/// A lent buffer, and the position behind what was put into it.
#[derive(Drop)]
pub struct Writer<'a> {
    pub buf: &'a mut [u8],
    pub at: usize,
}

impl<'a> Writer<'a> {
    pub fn new(buf: &'a mut [u8]) -> Writer<'a>
        ensures same { result.buf.ghost_name ≡ buf.entry.ghost_name }
        ensures buf { result.buf.now ≡ buf.old }
        ensures at { result.at ≡ 0 }
    {
        Writer { buf, at: 0 }
    }

    /// One byte.
    pub fn put(&mut self, b: u8)
        ensures { Writes self.old (b ∷ []) self.new }
    {
        let at = self.at;
        self.at = put(self.buf, at, b);
    }

    /// A number in decimal digits.
    pub fn number(&mut self, n: u64)
        ensures { Writes self.old (digits n) self.new }
    {
        let at = self.at;
        self.at = print_number(self.buf, at, n);
    }

    // Both go by buffer and position inside: by `put` and `number` a value of 8,192 bytes took a fourteenth longer to print.

    /// A comma and a number.
    pub fn field(&mut self, n: u64)
        ensures { Writes self.old (comma ∷ digits n) self.new }
    {
        let buf = &mut *self.buf;
        let next = put(buf, self.at, b',');
        self.at = print_number(buf, next, n);
    }

    /// A comma and two numbers with a byte between them.
    pub fn field_of_two(&mut self, n: u64, mark: u8, m: u64)
        ensures { Writes self.old (comma ∷ digits n ++ mark ∷ digits m) self.new }
    {
        let buf = &mut *self.buf;
        let p = put(buf, self.at, b',');
        let q = print_number(buf, p, n);
        let r = put(buf, q, mark);
        self.at = print_number(buf, r, m);
    }

    // The bytes of w one by one, where there is no room for all of them.
    fn each(&mut self, w: &[u8])
        ensures { Writes self.old w.now self.new }
    {
        for b in w {
            self.put(*b);
        }
    }

    /// The bytes of w, as one block where there is room for all of them.
    pub fn bytes(&mut self, w: &[u8])
        ensures { Writes self.old w.now self.new }
    {
        let at = self.at;
        if at < self.buf.len() && w.len() <= self.buf.len() - at {
            let next = at + w.len();
            self.buf[at..next].copy_from_slice(w);
            self.at = next;
            return;
        }
        self.each(w);
    }
}

ghost use Rattle.text.specs.Put.{Put};

// Buffer and position go side by side from here on: as methods, which keep the position in memory from digit to digit, a listing of many
// lines took up to 1.14 times as long.

// One byte; where there is no room it is dropped.
fn put(buf: &mut [u8], at: usize, b: u8) -> usize
    ensures { Put buf.old at (b ∷ []) buf.new result }
{
    if at < buf.len() {
        buf[at] = b;
    }
    at.saturating_add(1)
}

// A number of two digits.
fn print_two(buf: &mut [u8], at: usize, n: u64) -> usize
    requires { (10 ≤ n) × (n < 100) }
    ensures { Put buf.old at (digits n) buf.new result }
{
    let p = put(buf, at, b'0' + (n / 10) as u8);
    put(buf, p, b'0' + (n % 10) as u8)
}

// A number in decimal digits. Most have up to three, which by recursion alone take 1.6 times as long.
fn print_number(buf: &mut [u8], at: usize, n: u64) -> usize
    ensures { Put buf.old at (digits n) buf.new result }
{
    if n < 10 {
        return put(buf, at, b'0' + n as u8);
    }
    if n < 100 {
        return print_two(buf, at, n);
    }
    let front = n / 10;
    let next = if front < 100 {
        print_two(buf, at, front)
    } else {
        print_number(buf, at, front)
    };
    put(buf, next, b'0' + (n % 10) as u8)
}
