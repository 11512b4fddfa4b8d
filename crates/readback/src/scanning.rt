// The lines of a listing, read once: whether each is as its place asks, and its numbers.
ghost use Rattle.std.specs.Prelude.{◌≡◌, true, ◌+◌, ◌<◌, ◌≤◌, length, IfSome, IfOk, IfErr};
ghost use Rattle.lists.specs.Places.{placed};
ghost use Rattle.lines.specs.Words.{piece};
ghost use Rattle.readback.specs.Scanned as specs;

use lines::{piece_end, read_line};

// The first line that is malformed or missing.
#[derive(Clone, Copy)]
pub struct Malformed {
    pub line: usize,
}

// The numbers of a step behind the first `count` of `steps`. Answers how many stand there then; None where they do not fit, or did not
// before, and then what stands there has no meaning.
fn keep_step(v: &[usize], steps: &mut [u16], count: Option<usize>) -> Option<usize>
    requires v_len { length v.now ≡ 4 }
    requires count_in_bounds { IfSome count (λ k. k ≤ length steps.old) }
    ensures value { result ≡ specs.count_after v.now (length steps.old) count }
    ensures steps_after { IfSome count (λ k. specs.fits v.now (length steps.old) k ≡ true → steps.new ≡ placed steps.old k v.now) }
{
    let before = count?;
    let end = before + v.len();
    if steps.len() < end {
        return None;
    }
    for (i, number) in v.iter().enumerate() {
        steps[before + i] = u16::try_from(*number).ok()?;
    }
    Some(end)
}

// Where line `line`, which begins at `at`, has its LF.
fn line_end(text: &[u8], at: usize, line: usize) -> Result<usize, Malformed>
    requires { at ≤ length text.now }
    ensures ok { IfOk result (λ end. (end ≡ at + length (piece 10 text.now at)) × (end < length text.now)) }
    ensures err { IfErr result (λ bad. (bad.line ≡ line) × (at + length (piece 10 text.now at) ≡ length text.now)) }
{
    let end = piece_end(text, at, b'\n');
    if end == text.len() {
        return Err(Malformed { line });
    }
    Ok(end)
}

// The lines of steps, from line 4 on, which begins at `from`: their numbers into `steps`. Answers how many there are; None where they do not
// fit.
fn scan_steps(text: &[u8], from: usize, steps: &mut [u16]) -> Result<Option<usize>, Malformed>
    requires { from ≤ length text.now }
    ensures { specs.StepsScanned result text.now from steps.new }
{
    let mut count = Some(0);
    for (i, line) in text[from..].split_inclusive(|b| *b == b'\n').enumerate() {
        let malformed = Malformed { line: 4 + i };
        let Some(line) = line.strip_suffix(b"\n") else {
            return Err(malformed);
        };
        let mut v = [0usize; 4];
        if !read_line(line, 5, &mut v) {
            return Err(malformed);
        }
        count = keep_step(&v, steps, count);
    }
    Ok(count)
}

// All lines: names, figures, names, steps. The figures go into `figures`, the numbers of the steps into `steps`. Answers how many numbers there
// are; None where they do not fit.
pub fn scan_text(
    text: &[u8],
    figures: &mut [usize],
    steps: &mut [u16],
) -> Result<Option<usize>, Malformed>
    requires { length figures.old ≡ 3 }
    ensures { specs.Scanned result text.now figures.new steps.new }
{
    let first = line_end(text, 0, 1)?;
    if &text[..first] != b"bootstraps steps worst".as_slice() {
        return Err(Malformed { line: 1 });
    }
    let at = first + 1;
    let second = line_end(text, at, 2)?;
    if !read_line(&text[at..second], 7, figures) {
        return Err(Malformed { line: 2 });
    }
    let at = second + 1;
    let third = line_end(text, at, 3)?;
    if &text[at..third] != b"kind to from by".as_slice() {
        return Err(Malformed { line: 3 });
    }
    scan_steps(text, third + 1, steps)
}
