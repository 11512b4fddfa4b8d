// Rows of residues. Each loop body is `cell` or one sum, so that the loops become vector code.
ghost use Rattle.std.specs.Prelude.{◌≡◌, ℕ, ◌+◌, ◌-◌, ◌*◌, ◌≤◌, ◌<◌, ◌%◌, length, get_or};
ghost use Rattle.lists.specs.Places.{tab, at};
ghost use Rattle.field.specs.Residues.{Modulus, Residues};
ghost use Rattle.field.specs.Rows as specs;
ghost use Rattle.field.specs.Rows.{plus_nothing};

use crate::residues::{cell, reciprocal, remainder, wide_reciprocal};

// xs plus g times ys. With g = p - f it subtracts f times ys; g may be p itself, for f = 0.
pub fn add_multiple(xs: &mut [u8], ys: &[u8], g: u8, p: u8)
    requires modulus { Modulus p }
    requires ys_len { length ys.now ≡ length xs.old }
    requires residues { Residues p xs.old }
    requires residues_2 { Residues p ys.now }
    requires g_le_p { g ≤ p }
    ensures { xs.new ≡ specs.plus_multiple p g xs.old ys.now }
{
    let m = reciprocal(p);
    for (j, x) in xs.iter_mut().enumerate() {
        *x = cell(*x, ys[j], g, p, m);
    }
}

// g times ys, into out: a row scaled.
pub fn set_multiple(out: &mut [u8], ys: &[u8], g: u8, p: u8)
    requires modulus { Modulus p }
    requires ys_len { length ys.now ≡ length out.old }
    requires residues { Residues p ys.now }
    requires g_le_p { g ≤ p }
    ensures { out.new ≡ specs.multiple p g ys.now }
{
    let m = reciprocal(p);
    for (j, y) in ys.iter().enumerate() {
        out[j] = cell(0, *y, g, p, m);
    }
}

// The weighted sum of xs by ws, modulo p: products summed in 32 bits, reduced once at the end.
pub fn dot(ws: &[u8], xs: &[u8], p: u8) -> u8
    requires modulus { Modulus p }
    requires xs_len { length xs.now ≡ length ws.now }
    requires ws_len_bound { length ws.now ≤ 65536 }
    ensures { result ≡ specs.dot ws.now xs.now (length ws.now) % p }
{
    let total: u32 = ws.iter().zip(xs).map(|(w, x)| *w as u32 * *x as u32).sum();
    (total % p as u32) as u8
}

// A number in which products of two bytes are summed: one of 32 bits, or of 16, which take half the work.
pub trait Total: Copy {
    ghost zero: { Self };

    ghost has_room: { Self → ℕ → ℕ → Type 0 };

    ghost plus: { Self → ℕ → ℕ → Self };

    // The number plus g times y.
    fn plus_product(self, g: u8, y: u8) -> Self
        requires { has_room self g y }
        ensures { result ≡ plus self g y };

    ghost plus_none: { (x : Self) (y : ℕ) → plus x 0 y ≡ x };
}

impl Total for u32 {
    ghost zero = { 0 };

    ghost has_room = { λ x g y. x + g * y < 4294967296 };

    ghost plus = { λ x g y. x + g * y };

    ghost plus_none = { plus_nothing };

    fn plus_product(self, g: u8, y: u8) -> u32 {
        self + g as u32 * y as u32
    }
}

impl Total for u16 {
    ghost zero = { 0 };

    ghost has_room = { λ x g y. x + g * y < 65536 };

    ghost plus = { λ x g y. x + g * y };

    ghost plus_none = { plus_nothing };

    fn plus_product(self, g: u8, y: u8) -> u16 {
        self + g as u16 * y as u16
    }
}

// acc plus g times ys, not reduced, where each place has room for its own product.
pub fn accumulate<T: Total>(acc: &mut [T], ys: &[u8], g: u8)
    requires ys_len { length ys.now ≡ length acc.old }
    requires room { (j : ℕ) → T.has_room (get_or acc.old j T.zero) g (at ys.now j) }
    ensures { acc.new ≡ tab (length acc.old) (λ j. T.plus (get_or acc.old j T.zero) g (at ys.now j)) }
{
    if g == 0 {
        return;
    }
    for (j, total) in acc.iter_mut().enumerate() {
        *total = total.plus_product(g, ys[j]);
    }
}

// short added to acc, which has room for 16 bits more, and short zero again.
pub fn pour(acc: &mut [u32], short: &mut [u16])
    requires short_len { length short.old ≡ length acc.old }
    requires headroom { specs.Headroom 65535 acc.old }
    ensures acc_after { acc.new ≡ specs.plus_times 1 acc.old short.old }
    ensures short_after { short.new ≡ tab (length short.old) (λ _. 0) }
{
    for (j, total) in acc.iter_mut().enumerate() {
        *total += short[j] as u32;
        short[j] = 0;
    }
}

// acc modulo p, into out.
pub fn reduce(out: &mut [u8], acc: &[u32], p: u8)
    requires modulus { Modulus p }
    requires acc_len { length acc.now ≡ length out.old }
    ensures { out.new ≡ specs.remainders p acc.now }
{
    let m = wide_reciprocal(p);
    for (j, total) in acc.iter().enumerate() {
        out[j] = remainder(*total, p, m);
    }
}

// Whether each byte of xs is below p, by their maximum.
pub fn all_below(xs: &[u8], p: u8) -> bool
    requires { 0 < p }
    ensures { result ≡ specs.all_below p xs.now }
{
    xs.iter().fold(0, |top, x| top.max(*x)) < p
}

// The larger of tops and xs, place by place. Each place is stored to, so that the loop becomes vector code.
pub fn raise(tops: &mut [u8], xs: &[u8])
    requires { length xs.now ≡ length tops.old }
    ensures { tops.new ≡ specs.maxima tops.old xs.now }
{
    for (j, top) in tops.iter_mut().enumerate() {
        *top = (*top).max(xs[j]);
    }
}

// The same for whole pieces of N bytes, piece by piece. A loop of so many turns becomes a few vector instructions without a remainder.
fn raise_pieces<const N: usize>(tops: &mut [u8], xs: &[u8])
    requires n_nonzero { 0 < N }
    requires xs_len { length xs.now ≡ length tops.old }
    requires whole { length tops.old % N ≡ 0 }
    ensures { tops.new ≡ specs.maxima tops.old xs.now }
{
    for k in 0..tops.len() / N {
        let j = k * N;
        let e = j + N;
        raise(&mut tops[j..e], &xs[j..e]);
    }
}

// The same for a row of a store, cut into pieces of 64, 16 and 4 bytes from its end, what is left in front byte by byte: every row of a store ends in
// the same column, so what one row stores is loaded in the same pieces by the next.
pub fn raise_row(tops: &mut [u8], xs: &[u8])
    requires { length xs.now ≡ length tops.old }
    ensures { tops.new ≡ specs.maxima tops.old xs.now }
{
    let n = tops.len();
    let fours = n % 4;
    let sixteens = n % 16;
    let sixty_fours = n % 64;
    raise(&mut tops[..fours], &xs[..fours]);
    raise_pieces::<4>(&mut tops[fours..sixteens], &xs[fours..sixteens]);
    raise_pieces::<16>(&mut tops[sixteens..sixty_fours], &xs[sixteens..sixty_fours]);
    raise_pieces::<64>(&mut tops[sixty_fours..], &xs[sixty_fours..]);
}
