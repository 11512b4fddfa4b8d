// Filing an equation into a store in reduced form. A loop over the rows runs `begin` along, where column 0 of row q would stand: the row itself
// is kept from column q on, and the next one begins c - q behind.
ghost use Rattle.std.specs.Prelude.{◌≡◌, ℕ, ◌+◌, ◌-◌, ◌*◌, ◌%◌, ◌≤◌, ◌<◌, length, position, not, ◌==◌};
ghost use Rattle.lists.specs.Places.{tab, at};
ghost use Rattle.field.specs.Residues.{Modulus, Residues};
ghost use Rattle.field.specs.Rows.{plus_multiple, Headroom};
ghost use Rattle.plan.specs.Numbers.{columns};
ghost use Rattle.plan.specs.Lending.{whole};
ghost use Rattle.plan.specs.Parts.{store_size};
ghost use Rattle.store.specs.Elimination as specs;
ghost use Rattle.store.specs.Elimination.{row_start, cells, flat};
ghost use Rattle.store.specs.Stages as stages;
ghost use Rattle.store.specs.Stages.{Ready, Line, deferred, cleared};
ghost use Rattle.store.specs.Calls as calls;

use crate::against::Against;
use plan::{CheckedPlan, Plan, Refusal};

// What filing answers where it is not refused: the pivot column of a new equation, or an equation that the store implies already.
#[derive(Clone, Copy, Debug, PartialEq, Eq)]
pub enum Filed {
    New(usize),
    Implied,
}

// The opposite of a residue.
pub fn opposite(x: u8, p: u8) -> u8
    requires { x < p }
    ensures { result ≡ (p - x) % p }
{
    if x == 0 {
        return 0;
    }
    p - x
}

// The factor by which a row is added so that f times it is subtracted. A row that begins with 0 is zero, and nothing of it is added.
fn factor(f: u8, first: u8, p: u8) -> u8
    requires { f < p }
    ensures { result ≡ stages.factor p f first }
{
    if first == 0 {
        return 0;
    }
    opposite(f, p)
}

// Where short has no room for a row more, it is poured into acc. Answers for how many rows there is room.
fn make_room(acc: &mut [u32], short: &mut [u16], left: u32, rows: u32) -> u32
    requires short_len { length short.old ≡ length acc.old }
    requires headroom { Headroom 65535 acc.old }
    ensures { stages.Poured acc.old short.old left rows acc.new short.new result }
{
    if 0 < left {
        return left;
    }
    field::pour(acc, short);
    rows
}

impl Against<'_> {
    // The residual of e with nothing reduced yet: C products of two residues fit in 32 bits. Each row is added from its own column on.
    fn defer_wide(&self, acc: &mut [u32])
        requires { acc.old ≡ tab (self.now.c + 1) (λ _. 0) }
        ensures { acc.new ≡ tab (self.now.c + 1) (deferred self.now.p (cells self.now.c self.now.store.now) (at self.now.e.now) self.now.c) }
    {
        field::accumulate(acc, self.e, 1);
        let width = self.c + 1;
        let mut begin: usize = 0;
        for q in 0..self.c {
            let a = begin + q;
            let end = begin + width;
            let g = factor(self.e[q], self.store[a], self.p);
            field::accumulate(&mut acc[q..width], &self.store[a..end], g);
            begin += self.c - q;
        }
    }

    // The same for small p, where many rows fit in 16 bits: they are added there, and poured into acc before they could overflow.
    // (Not one function with `defer_wide`: there 32 bits hold all rows, so that nothing is counted or poured; for one over both a second list of
    // 1,025 numbers would be cleared and poured for nothing.)
    fn defer_short(&self, acc: &mut [u32], short: &mut [u16])
        requires acc_value { acc.old ≡ tab (self.now.c + 1) (λ _. 0) }
        requires short_value { short.old ≡ tab (self.now.c + 1) (λ _. 0) }
        ensures acc_after { acc.new ≡ tab (self.now.c + 1) (deferred self.now.p (cells self.now.c self.now.store.now) (at self.now.e.now) self.now.c) }
        ensures short_after { short.new ≡ tab (self.now.c + 1) (λ _. 0) }
    {
        field::accumulate(acc, self.e, 1);
        let rows = 65535 / ((self.p as u32) * (self.p as u32));
        let width = self.c + 1;
        let mut left = rows;
        let mut begin: usize = 0;
        for q in 0..self.c {
            left = make_room(acc, short, left, rows);
            let a = begin + q;
            let end = begin + width;
            let g = factor(self.e[q], self.store[a], self.p);
            field::accumulate(&mut short[q..width], &self.store[a..end], g);
            left -= 1;
            begin += self.c - q;
        }
        field::pour(acc, short);
    }

    // The residual of e with nothing reduced yet.
    fn defer(&self, acc: &mut [u32])
        requires { acc.old ≡ tab (self.now.c + 1) (λ _. 0) }
        ensures { acc.new ≡ tab (self.now.c + 1) (deferred self.now.p (cells self.now.c self.now.store.now) (at self.now.e.now) self.now.c) }
    {
        if self.p < 128 {
            let mut short = [0u16; Plan::COLUMNS + 1];
            let width = self.c + 1;
            self.defer_short(acc, &mut short[..width]);
            return;
        }
        self.defer_wide(acc);
    }

    // The residual of e, into out: all sums first, and one reduction.
    pub fn residual(&self, out: &mut [u8])
        requires { length out.old ≡ self.now.c + 1 }
        ensures { out.new ≡ tab (self.now.c + 1) (specs.residual self.now.p self.now.c (cells self.now.c self.now.store.now) (at self.now.e.now)) }
    {
        let mut acc = [0u32; Plan::COLUMNS + 1];
        let width = self.c + 1;
        self.defer(&mut acc[..width]);
        field::reduce(out, &acc[..width], self.p);
    }
}

// The first place at which xs is not 0.
pub fn lead(xs: &[u8]) -> Option<usize>
    ensures { result ≡ position (λ x. not (x == 0)) xs.now }
{
    xs.iter().position(|x| *x != 0)
}

// A row's first place cleared by the pivot, both from the pivot's column on. A row that has 0 there stays as it is.
fn clear_row(row: &mut [u8], pivot: &[u8], p: u8)
    requires modulus { Modulus p }
    requires pivot_len { (length pivot.now ≡ length row.old) × (0 < length row.old) }
    requires residues { Residues p row.old × Residues p pivot.now }
    ensures { row.new ≡ plus_multiple p (p - at row.old 0) row.old pivot.now }
{
    let f = row[0];
    if f == 0 {
        return;
    }
    field::add_multiple(row, pivot, p - f, p);
}

// Column k cleared by the pivot from the rows above k. The rows below have 0 there. Answers where column 0 of row k would stand.
fn clear_above(store: &mut [u8], pivot: &[u8], k: usize, c: usize, p: u8) -> usize
    requires ready { Ready p c store.old }
    requires line { Line p c pivot.now }
    requires k_lt_c { k < c }
    requires by_index { (j : ℕ) → j < k → at pivot.now j ≡ 0 }
    ensures value { result ≡ row_start c k }
    ensures store_after { store.new ≡ flat c (cleared p (cells c store.old) (at pivot.now) k) }
{
    let width = c + 1;
    let mut begin: usize = 0;
    for r in 0..k {
        let a = begin + k;
        let end = begin + width;
        clear_row(&mut store[a..end], &pivot[k..width], p);
        begin += c - r;
    }
    begin
}

// The residual res inserted as row k, the column of its first coefficient: made normal, and column k cleared.
fn insert_row(store: &mut [u8], res: &[u8], k: usize, c: usize, p: u8)
    requires ready { Ready p c store.old }
    requires line { Line p c res.now }
    requires k_lt_c { k < c }
    requires by_index { (j : ℕ) → j < k → at res.now j ≡ 0 }
    ensures { store.new ≡ flat c (specs.inserted p (cells c store.old) (specs.normal p (at res.now) k) k) }
{
    let mut pivot = [0u8; Plan::COLUMNS + 1];
    let width = c + 1;
    let g = field::inverse(res[k], p);
    field::set_multiple(&mut pivot[..width], res, g, p);
    let begin = clear_above(store, &pivot[..width], k, c, p);
    let a = begin + k;
    let end = begin + width;
    field::set_multiple(&mut store[a..end], &pivot[k..width], 1, p);
}

// Files the equation e, C coefficients and a right-hand side. The store is written only where e is new.
pub fn file_equation(store: &mut [u8], e: &[u8], c: usize, p: u8) -> Result<Filed, Refusal>
    requires ready { Ready p c store.old }
    requires line { Line p c e.now }
    ensures result_value { calls.answer_of result ≡ calls.answered (specs.outcome p c (cells c store.old) (at e.now)) }
    ensures store_after { store.new ≡ flat c (specs.after p c (cells c store.old) (at e.now)) }
{
    let mut res = [0u8; Plan::COLUMNS + 1];
    let width = c + 1;
    let against = Against {
        store: &*store,
        e,
        c,
        p,
    };
    against.residual(&mut res[..width]);
    if let Some(k) = lead(&res[..c]) {
        insert_row(store, &res[..width], k, c, p);
        return Ok(Filed::New(k));
    }
    if res[c] != 0 {
        return Err(Refusal::Contradiction);
    }
    Ok(Filed::Implied)
}

// Entry `entry` with `value` as an equation, into e: its row, then the value.
pub fn entry_equation(plan: &CheckedPlan, entry: usize, value: u8, e: &mut [u8])
    requires { length e.old ≡ columns plan.now.numbers + 1 }
    ensures { e.new ≡ calls.equation_of (whole plan.now) entry value }
{
    let c = plan.columns();
    plan.fill_row(entry, &mut e[..c]);
    e[c] = value;
}

// Files entry `entry` with `value`.
pub fn file_entry(
    plan: &CheckedPlan,
    store: &mut [u8],
    entry: usize,
    value: u8,
) -> Result<Filed, Refusal>
    requires ready { Ready plan.now.numbers.p (columns plan.now.numbers) store.old }
    requires value_lt_p { value < plan.now.numbers.p }
    ensures result_value { calls.answer_of result ≡ calls.answered (calls.outcome_of (whole plan.now) store.old entry value) }
    ensures store_after { store.new ≡ calls.filed (whole plan.now) store.old entry value }
{
    let mut e = [0u8; Plan::COLUMNS + 1];
    let c = plan.columns();
    let width = c + 1;
    entry_equation(plan, entry, value, &mut e[..width]);
    file_equation(store, &e[..width], c, plan.numbers.p)
}

// The coefficients read off: the right-hand side of each row.
pub fn read_off(store: &[u8], c: usize, beta: &mut [u8])
    requires c_bound { c ≤ 1024 }
    requires store_len { length store.now ≡ store_size c }
    requires beta_len { length beta.old ≡ c }
    ensures { beta.new ≡ calls.coefficients c store.now }
{
    let mut a = c;
    for (q, value) in beta.iter_mut().enumerate() {
        *value = store[a];
        a += c - q;
    }
}
