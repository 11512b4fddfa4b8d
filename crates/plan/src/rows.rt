// From entry to row: digits, variables, blocks.
ghost use Rattle.std.specs.Prelude.{◌≡◌, ◌+◌, ◌*◌, ◌%◌, ◌≤◌, length};
ghost use Rattle.lists.specs.Places.{tab, at};
ghost use Rattle.field.specs.Residues.{Modulus, Residues};
ghost use Rattle.field.specs.Rows.{dot};
ghost use Rattle.plan.specs.Numbers.{variables, columns, product};
ghost use Rattle.plan.specs.Lending.{whole};
ghost use Rattle.plan.specs.Rows as specs;

use crate::lending::CheckedPlan;
use crate::numbers::Plan;

// The digits of an entry, the last and least significant first: `rest` is the entry without the digits that are written.
fn fill_digits(plan: &CheckedPlan, entry: usize, x: &mut [u8])
    requires { length x.old ≡ plan.now.numbers.n }
    ensures { x.new ≡ tab plan.now.numbers.n (specs.digit plan.now.radices.now entry) }
{
    let radices = plan.radices;
    let mut rest = entry;
    for j in (0..radices.len()).rev() {
        let r = radices[j] as usize;
        x[j] = (rest % r) as u8;
        rest /= r;
    }
}

// A link's value: its table at the weighted sum of the variables before it.
fn link(weights: &[u8], table: &[u8], x: &[u8], p: u8) -> u8
    requires modulus { Modulus p }
    requires x_len { length x.now ≡ length weights.now }
    requires weights_len_bound { length weights.now ≤ 64 }
    requires table_len { length table.now ≡ p }
    ensures { result ≡ at table.now (dot weights.now x.now (length weights.now) % p) }
{
    table[field::dot(weights, x, p) as usize]
}

// The L variables of an entry: its digits, then link after link. `begin` is where link k's weights begin.
fn fill_variables(plan: &CheckedPlan, entry: usize, x: &mut [u8])
    requires { length x.old ≡ variables plan.now.numbers }
    ensures { x.new ≡ specs.values (whole plan.now) entry }
{
    let n = plan.numbers.n;
    let p = plan.numbers.p;
    let size = p as usize;
    fill_digits(plan, entry, &mut x[..n]);
    let weights = plan.weights;
    let tables = plan.tables;
    let mut begin: usize = 0;
    for k in 0..plan.numbers.m {
        let place = n + k;
        let end = begin + place;
        let table = k * size;
        let table_end = table + size;
        let v = link(
            &weights[begin..end],
            &tables[table..table_end],
            &x[..place],
            p,
        );
        x[place] = v;
        begin = end;
    }
}

// The blocks of a row over its variables: one pass for each, with the block's weighted sum reduced once.
fn fill_blocks(plan: &CheckedPlan, x: &[u8], row: &mut [u8])
    requires x_len { (length x.now ≡ variables plan.now.numbers) × (Residues plan.now.numbers.p x.now) }
    requires row_len { length row.old ≡ columns plan.now.numbers }
    ensures { row.new ≡ tab (columns plan.now.numbers) (specs.row_place plan.now.numbers plan.now.products.now x.now) }
{
    let p = plan.numbers.p;
    let l = plan.variables();
    let d = plan.products;
    let t = plan.numbers.t;
    for b in 0..t {
        let from = b * l;
        let end = from + l;
        let g = field::dot(&d[from..end], x, p);
        field::set_multiple(&mut row[from..end], x, g, p);
    }
    let from = t * l;
    let end = from + l;
    field::set_multiple(&mut row[from..end], x, 1, p);
}

impl CheckedPlan<'_> {
    // L
    pub fn variables(&self) -> usize
        ensures { result ≡ variables self.now.numbers }
    {
        self.numbers.variables()
    }

    // C
    pub fn columns(&self) -> usize
        ensures { result ≡ columns self.now.numbers }
    {
        self.numbers.columns()
    }

    // The number of entries.
    pub fn entries(&self) -> usize
        ensures { result ≡ product self.now.radices.now }
    {
        self.numbers.entries(self.radices)
    }

    // Row `entry`.
    pub fn fill_row(&self, entry: usize, row: &mut [u8])
        requires { length row.old ≡ columns self.now.numbers }
        ensures { row.new ≡ specs.row (whole self.now) entry }
    {
        let mut x = [0u8; Plan::VARIABLES];
        let l = self.variables();
        fill_variables(self, entry, &mut x[..l]);
        fill_blocks(self, &x[..l], row);
    }
}
