// A cursor over a line: it borrows the line's bytes, and holds the place of the next word.
ghost use Rattle.std.specs.Prelude.{◌≡◌, ◌≤◌};
ghost use Rattle.lines.specs.Words as specs;

use crate::numerals::number_at;

#[derive(Clone, Copy)]
pub struct Cursor<'a> {
    pub line: &'a [u8],
    pub at: usize,
}

impl<'a> Cursor<'a> {
    // A cursor at the start of a line.
    pub fn new(line: &'a [u8]) -> Cursor<'a>
        ensures { (result.line ≡ line.entry) × (result.at ≡ 0) }
    {
        Cursor { line, at: 0 }
    }

    // Reads the number at the cursor, which moves on to the next word. At a malformed word it stays.
    pub fn number(&mut self, most: usize) -> Option<usize>
        requires { most ≤ 9 }
        ensures value { result ≡ specs.value_at most self.old.line.now self.old.at }
        ensures place { self.new ≡ specs.advanced most self.old }
    {
        let numeral = number_at(self.line, self.at, most)?;
        self.at = numeral.next;
        Some(numeral.value)
    }
}
