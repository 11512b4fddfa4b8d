// The test of reduced form in a single reading of the store: the rows one by one in order, row 0 first, each from its diagonal on. A state
// goes in with each row and comes out, and sees no row again; the answer is what it says after the last row.
ghost use Rattle.std.specs.Prelude.{◌≡◌, not, ◌+◌, ◌≤◌, ◌<◌, length, drop};
ghost use Rattle.lists.specs.Places.{tab};
ghost use Rattle.field.specs.Residues.{Modulus};
ghost use Rattle.plan.specs.Parts.{store_size};
ghost use Rattle.store.specs.Elimination.{is_reduced, cells};
ghost use Rattle.store.specs.Reading as specs;

use plan::Plan;

// One row more, with which all is settled that is ever asked of it: with nothing on its diagonal it has to be all zero, else its columns are counted.
// They stand in a lent slice: by value, 1,025 bytes would be copied in and out with each row. This function and what it calls have one caller each:
// with a second one they are not compiled into it, and the test takes up to 3.5 times as long.
fn take_row(sound: bool, tops: &mut [u8], row: &[u8], p: u8) -> bool
    requires row_len { length row.now ≡ length tops.old }
    requires row_nonzero { 0 < length row.now }
    ensures tops_after { specs.state_of result (drop 1 tops.new) ≡ specs.took p (specs.state_of sound tops.old) row.now }
    ensures tops_after_2 { tops.new ≡ specs.counted tops.old row.now }
{
    let above = tops[0];
    let first = row[0];
    if first == 0 {
        if !field::all_zero(row) {
            return false;
        }
        if above < p {
            return sound;
        }
        return false;
    }
    field::raise_row(tops, row);
    if above != 0 {
        return false;
    }
    if first != 1 {
        return false;
    }
    sound
}

// The rows one by one in order, from columns that are zero.
fn take_rows(tops: &mut [u8], store: &[u8], c: usize, p: u8) -> bool
    requires c_bound { c ≤ 1024 }
    requires store_len { length store.now ≡ store_size c }
    requires tops_value { tops.old ≡ tab (c + 1) (λ _. 0) }
    ensures tops_len { length tops.new ≡ c + 1 }
    ensures tops_after { specs.state_of result (drop c tops.new) ≡ specs.state_after p c (specs.row_of c store.now) c }
{
    let width = c + 1;
    let mut sound = true;
    let mut begin: usize = 0;
    // A while: as a `for`, compiled by rustc, the test of 1,000 columns with few rows took 1.3 times as long; all_zero is taken in another way.
    let mut q: usize = 0;
    while q < c {
        let end = begin + (width - q);
        sound = take_row(sound, &mut tops[q..width], &store[begin..end], p);
        begin = end;
        q += 1;
    }
    sound
}

// Whether the state after the last row says that the store is not damaged.
fn passes(store: &[u8], c: usize, p: u8) -> bool
    requires c_bound { c ≤ 1024 }
    requires store_len { length store.now ≡ store_size c }
    ensures { result ≡ not (specs.is_damaged p (specs.state_after p c (specs.row_of c store.now) c)) }
{
    // The columns end at a multiple of 16, of an array that, as compiled, begins at one. Then so does each piece of 16 bytes or more that a row is
    // raised in, and none crosses the end of a cache line.
    let mut tops = [0u8; Plan::COLUMNS + 16];
    let begin = 15 - c % 16;
    let last = begin + c;
    let end = last + 1;
    if !take_rows(&mut tops[begin..end], store, c, p) {
        return false;
    }
    tops[last] < p
}

// Whether a store is in reduced form modulo p.
pub fn is_reduced(store: &[u8], c: usize, p: u8) -> bool
    requires c_bound { c ≤ 1024 }
    requires modulus { Modulus p }
    requires store_len { length store.now ≡ store_size c }
    ensures { result ≡ is_reduced p c (cells c store.now) }
{
    passes(store, c, p)
}
