// Reading numbers: the word that begins at a place of a line, and the number that it writes.
ghost use Rattle.std.specs.Prelude.{◌≡◌, true, ◌+◌, ◌≤◌, length};
ghost use Rattle.lines.specs.Lines as lines;
ghost use Rattle.lines.specs.Words as specs;

// A number that stands in a line, and the place where the next word begins.
#[derive(Clone, Copy)]
pub struct Numeral {
    pub value: usize,
    pub next: usize,
}

// How many bytes stand before the first byte c.
fn size_before(bytes: &[u8], c: u8) -> usize
    ensures { result ≡ length (specs.front (lines.cut_at c bytes.now)) }
{
    bytes.iter().position(|b| *b == c).unwrap_or(bytes.len())
}

// Where the piece that begins at `at` ends: at the next byte c, or where the bytes end.
pub fn piece_end(bytes: &[u8], at: usize, c: u8) -> usize
    ensures { result ≡ at + length (specs.piece c bytes.now at) }
{
    match bytes.get(at..) {
        Some(rest) => at + size_before(rest, c),
        None => at,
    }
}

// Whether each byte is a decimal digit.
fn all_digits(word: &[u8]) -> bool
    ensures { result ≡ lines.all_digits word.now }
{
    word.iter().all(|b| b.is_ascii_digit())
}

// Whether a word is a number: 1 to `most` digits, zero as `0` and otherwise no leading zero.
fn is_numeral(word: &[u8], most: usize) -> bool
    ensures { result ≡ lines.is_numeral most word.now }
{
    let size = word.len();
    1 <= size && size <= most && all_digits(word) && (size == 1 || word[0] != b'0')
}

// The number that up to nine digits write.
fn value(word: &[u8]) -> usize
    requires word_len_bound { length word.now ≤ 9 }
    requires word_value { lines.all_digits word.now ≡ true }
    ensures { result ≡ lines.number word.now }
{
    let mut v: usize = 0;
    for b in word {
        v = 10 * v + usize::from(*b - b'0');
    }
    v
}

// The number at a place: 1 to `most` digits, zero as `0` and otherwise no leading zero. Past the line's end there is none.
// (Not by `parse`, which takes a sign, leading zeros and any length.)
pub fn number_at(line: &[u8], at: usize, most: usize) -> Option<Numeral>
    requires { most ≤ 9 }
    ensures { result ≡ specs.numeral_at most line.now at }
{
    let end = piece_end(line, at, b' ');
    if end == at {
        return None;
    }
    let word = &line[at..end];
    if !is_numeral(word, most) {
        return None;
    }
    Some(Numeral {
        value: value(word),
        next: end + 1,
    })
}
