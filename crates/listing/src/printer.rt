// A printer: a lent slice, and how far it is written.
ghost use Rattle.std.specs.Prelude.{◌≡◌, ℕ, [], ◌∷◌, ◌++◌, ◌+◌, ◌*◌, ◌/◌, ◌≤◌, ◌<◌, length};
ghost use Rattle.lists.specs.Places as places;
ghost use Rattle.listing.specs.Decimal.{decimal, line};
ghost use Rattle.listing.specs.Printed.{step_line};
ghost use Rattle.listing.specs.Printing.{Prints};

// `out` is written up to `at`. (Not one type with `program`'s writer: that one is private to it, and all that they share is the copying of a slice.)
#[derive(Drop)]
pub struct Printer<'a> {
    pub out: &'a mut [u8],
    pub at: usize,
}

impl<'a> Printer<'a> {
    // The digits of n: those of n / 10, and the last one.
    fn decimal(&mut self, n: usize)
        requires { self.old.at + 20 ≤ length self.old.out.now }
        ensures { Prints self.old self.new (decimal n) }
    {
        if n < 10 {
            self.byte(b'0' + n as u8);
            return;
        }
        self.decimal(n / 10);
        self.byte(b'0' + (n % 10) as u8);
    }

    // One byte.
    fn byte(&mut self, byte: u8)
        requires { self.old.at < length self.old.out.now }
        ensures { Prints self.old self.new (byte ∷ []) }
    {
        self.out[self.at] = byte;
        self.at += 1;
    }

    // The bytes of a names line.
    pub fn bytes(&mut self, bytes: &[u8])
        requires { self.old.at + length bytes.now ≤ length self.old.out.now }
        ensures { Prints self.old self.new bytes.now }
    {
        let end = self.at + bytes.len();
        self.out[self.at..end].copy_from_slice(bytes);
        self.at = end;
    }

    // A line of numbers: one space between, and LF in place of the space behind the last.
    pub fn line(&mut self, numbers: &[usize])
        requires some { 0 < length numbers.now }
        requires in_bounds { self.old.at + 21 * length numbers.now ≤ length self.old.out.now }
        ensures { Prints self.old self.new (line numbers.now) }
    {
        for n in numbers {
            self.decimal(*n);
            self.byte(b' ');
        }
        self.out[self.at - 1] = b'\n';
    }

    // A line for each step.
    pub fn steps(&mut self, steps: &[u16])
        requires by_index { (i : ℕ) → places.at steps.now i < 1000 }
        requires steps_in_bounds { self.old.at + 16 * (length steps.now / 4) + 84 ≤ length self.old.out.now }
        ensures { Prints self.old self.new (places.joined (step_line steps.now) (length steps.now / 4)) }
    {
        let (steps, _) = steps.as_chunks::<4>();
        for &[kind, to, from, by] in steps {
            self.line(&[kind as usize, to as usize, from as usize, by as usize]);
        }
    }
}
