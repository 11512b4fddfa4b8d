// The test of reduced form of a store in the layout before C-16, as that of `store`: the rows one by one in order, each read once, with a state that
// goes in and comes out. A row has C + 1 bytes here; what lies left of its diagonal is to be zero, and from there on it is a row as the new layout
// keeps it. The step is its own, over `raise` and `all_below`: were it that of `store`, neither would be compiled into its caller.
ghost use Rattle.std.specs.Prelude.{◌≡◌, ◌+◌, ◌≤◌, ◌<◌, length, drop};
ghost use Rattle.lists.specs.Places.{tab};
ghost use Rattle.field.specs.Residues.{Modulus};
ghost use Rattle.plan.specs.Parts.{full_size};
ghost use Rattle.store.specs.Elimination.{is_reduced};
ghost use Rattle.store.specs.Reading.{state_of, counted};
ghost use Rattle.moves.specs.Moves.{full_cells};
ghost use Rattle.moves.specs.FullRows as specs;

use plan::Plan;

// One row more, row q, with the columns from its own on. With nothing on its diagonal it has to be all zero, from its first byte to its last.
fn take_full_row(sound: bool, tops: &mut [u8], row: &[u8], q: usize, p: u8) -> bool
    requires row_len { length row.now ≡ q + length tops.old }
    requires tops_nonzero { 0 < length tops.old }
    ensures tops_after { state_of result (drop 1 tops.new) ≡ specs.full_took p q (state_of sound tops.old) row.now }
    ensures tops_after_2 { tops.new ≡ counted tops.old (drop q row.now) }
{
    let above = tops[0];
    let first = row[q];
    if first == 0 {
        return field::all_below(row, 1) && above < p && sound;
    }
    field::raise(tops, &row[q..]);
    field::all_below(&row[..q], 1) && above == 0 && first == 1 && sound
}

// The rows one by one in order, from columns that are zero.
fn take_full_rows(tops: &mut [u8], full: &[u8], c: usize, p: u8) -> bool
    requires c_bound { c ≤ 1024 }
    requires full_len { length full.now ≡ full_size c }
    requires tops_value { tops.old ≡ tab (c + 1) (λ _. 0) }
    ensures tops_len { length tops.new ≡ c + 1 }
    ensures tops_after { state_of result (drop c tops.new) ≡ specs.full_after p c full.now c }
{
    let width = c + 1;
    let mut sound = true;
    for (q, row) in full.chunks_exact(width).enumerate() {
        sound = take_full_row(sound, &mut tops[q..width], row, q, p);
    }
    sound
}

// Whether a store in the layout before, C rows of C + 1 bytes, is in reduced form modulo p.
pub fn is_reduced_full(full: &[u8], c: usize, p: u8) -> bool
    requires c_bound { c ≤ 1024 }
    requires modulus { Modulus p }
    requires full_len { length full.now ≡ full_size c }
    ensures { result ≡ is_reduced p c (full_cells c full.now) }
{
    // One byte more than columns would do; with eight the array, as compiled, begins at a multiple of 16.
    let mut tops = [0u8; Plan::COLUMNS + 8];
    let width = c + 1;
    take_full_rows(&mut tops[..width], full, c, p) && tops[c] < p
}
