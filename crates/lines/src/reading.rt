// Reading whole lines: a line of numbers, each of which is read once.
ghost use Rattle.std.specs.Prelude.{◌≡◌, true, ◌≤◌, length};
ghost use Rattle.lines.specs.Lines as lines;

use crate::cursor::Cursor;

// Reads a line of numbers of up to `most` digits by one cursor, each number once, into `out`. Whether it is a line of as many numbers as
// `out` has places; where it is not, what stands in `out` has no meaning. (In a lent slice, since nothing is allocated.)
#[tactic(auto, using(crate::proofs::LineLaws::too_long))]
pub fn read_line<'a, 'b>(line: &'a [u8], most: usize, out: &'b mut [usize]) -> bool
    requires { most ≤ 9 }
    ensures { (result ≡ lines.asks most (length out.old) line.now) × (result ≡ true → out.new ≡ lines.numbers line.now) }
{
    let mut cursor = Cursor::new(line);
    for place in out.iter_mut() {
        let Some(number) = cursor.number(most) else {
            return false;
        };
        *place = number;
    }
    line.len() < 1024 && line.len() < cursor.at
}
