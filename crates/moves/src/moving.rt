// A store moved from one layout to the other, row by row (02, C-16).
ghost use Rattle.std.specs.Prelude.{◌≡◌, ◌++◌, ◌+◌, ◌≤◌, length, replicate};
ghost use Rattle.plan.specs.Parts.{store_size, full_size};
ghost use Rattle.moves.specs.Moves as specs;

// Bytes copied one by one: `copy_from_slice` of the library calls memmove, and an archive for C calls nothing but memcpy and memset.
fn copy_bytes(out: &mut [u8], bytes: &[u8])
    requires { length out.old ≡ length bytes.now }
    ensures { out.new ≡ bytes.now }
{
    for (j, byte) in bytes.iter().enumerate() {
        out[j] = *byte;
    }
}

// To the new layout: of each row the part from its diagonal on.
pub fn halve(full: &[u8], half: &mut [u8], c: usize)
    requires c_bound { c ≤ 1024 }
    requires full_len { length full.now ≡ full_size c }
    requires half_len { length half.old ≡ store_size c }
    ensures { half.new ≡ specs.halved c full.now }
{
    let width = c + 1;
    let mut to = 0;
    for (q, row) in full.chunks_exact(width).enumerate() {
        let end = to + (width - q);
        copy_bytes(&mut half[to..end], &row[q..]);
        to = end;
    }
}

// A row of the old layout: q zeros, and the part from its diagonal on.
fn widen_row(row: &mut [u8], part: &[u8], q: usize)
    requires { length row.old ≡ q + length part.now }
    ensures { row.new ≡ replicate q 0 ++ part.now }
{
    row[..q].fill(0);
    copy_bytes(&mut row[q..], part);
}

// To the old layout: each row with zeros left of its diagonal.
pub fn widen(half: &[u8], full: &mut [u8], c: usize)
    requires c_bound { c ≤ 1024 }
    requires half_len { length half.now ≡ store_size c }
    requires full_len { length full.old ≡ full_size c }
    ensures { full.new ≡ specs.widened c half.now }
{
    let width = c + 1;
    let mut from = 0;
    // By places: what chunks_exact_mut lent is known by its length alone once it is back.
    for q in 0..c {
        let from_end = from + (width - q);
        let to = q * width;
        let to_end = to + width;
        widen_row(&mut full[to..to_end], &half[from..from_end], q);
        from = from_end;
    }
}
