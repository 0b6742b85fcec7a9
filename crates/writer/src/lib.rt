// Writing bytes and numbers into lent bytes. What lies past the end of the bytes lent is counted and not written, so
// that one function tells how long a text is and writes it, and none asks that it fits.
#![tactic(auto)]

ghost use Rattle.std.specs.Prelude.{◌≡◌, [], ◌∷◌, ◌+◌, ◌-◌, ◌/◌, ◌%◌, ◌<◌, min, length};
ghost use Rattle.semantics.specs.Text.{decimal, decimal_z};
ghost use Rattle.writer.specs.Writing.{Put, limit};

// The byte of the last digit. 48 is '0'.
fn last_digit(n: usize) -> u8
    ensures { result ≡ 48 + n % 10 }
{
    (48 + n % 10) as u8
}

// The bytes lent, and the place that comes next.
#[derive(Drop)]
pub struct Writer<'a> {
    space: &'a mut [u8],
    at: usize,
    ghost short: { length space.now < limit },
}

impl<'a> Writer<'a> {
    ghost use Rattle.writer.specs.Writers.{Writes};

    pub fn new(space: &'a mut [u8]) -> Writer<'a>
        ensures same { result.space.ghost_name ≡ space.entry.ghost_name }
        ensures bytes { result.space.now ≡ space.old }
        ensures at { result.at ≡ 0 }
    {
        Writer { space, at: 0 }
    }

    // The same from a place on, which may lie past the end.
    pub fn from(space: &'a mut [u8], at: usize) -> Writer<'a>
        ensures same { result.space.ghost_name ≡ space.entry.ghost_name }
        ensures bytes { result.space.now ≡ space.old }
        ensures at { result.at ≡ at }
    {
        Writer { space, at }
    }

    // The place that comes next.
    pub fn at(&self) -> usize
        ensures { result ≡ self.now.at }
    {
        self.at
    }

    pub fn byte(&mut self, b: u8)
        ensures { Writes (b ∷ []) self.old self.new }
    {
        if self.at < self.space.len() {
            self.space[self.at] = b;
            self.at += 1;
        } else {
            self.at = self.at.saturating_add(1);
        }
    }

    // Bytes that may lie past the end, each tested.
    fn each(&mut self, s: &[u8])
        ensures { Writes s.now self.old self.new }
    {
        for b in s {
            self.byte(*b);
        }
    }

    // Bytes that fit are copied without a test for each.
    pub fn bytes(&mut self, s: &[u8])
        ensures { Writes s.now self.old self.new }
    {
        let end = self.at.saturating_add(s.len());
        if self.space.len() < end {
            return self.each(s);
        }
        self.space[self.at..end].copy_from_slice(s);
        self.at = end;
    }

    // The last digit but one, and the last, in one go: for each by itself a listing takes 3 % more instructions.
    fn two(&mut self, n: usize)
        ensures { Writes ((48 + n / 10 % 10) ∷ (48 + n % 10) ∷ []) self.old self.new }
    {
        self.bytes(&[last_digit(n / 10), last_digit(n)]);
    }

    fn below_hundred(&mut self, n: usize)
        requires { n < 100 }
        ensures { Writes (decimal n) self.old self.new }
    {
        if n < 10 {
            return self.byte(last_digit(n));
        }
        self.two(n);
    }

    // A number of any size, two digits at a time.
    #[cycle(large)]
    fn large(&mut self, n: usize)
        ensures { Writes (decimal n) self.old self.new }
    {
        if n < 100 {
            return self.below_hundred(n);
        }
        self.large(n / 100);
        self.two(n);
    }

    // The same without a call for each two digits where they are few, as they nearly always are.
    pub fn decimal(&mut self, n: usize)
        ensures { Writes (decimal n) self.old self.new }
    {
        if n < 100 {
            return self.below_hundred(n);
        }
        if n < 10_000 {
            self.below_hundred(n / 100);
            return self.two(n);
        }
        if n < 1_000_000 {
            self.below_hundred(n / 10_000);
            self.two(n / 100);
            return self.two(n);
        }
        self.large(n);
    }

    // A number with its sign: `-`, or none.
    pub fn signed(&mut self, z: i32)
        ensures { Writes (decimal_z z) self.old self.new }
    {
        if z < 0 {
            self.byte(b'-');
        }
        self.decimal(words::magnitude(z));
    }
}
