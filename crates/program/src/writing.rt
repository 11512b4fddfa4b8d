// Writing a program, piece by piece: a writer holds the caller's slice and the place behind what it has written, and each method writes
// one piece there.
ghost use Rattle.std.specs.Prelude.{◌≡◌, ◌++◌, ◌+◌, ◌*◌, ◌≤◌, ◌<◌, length};
ghost use Rattle.lists.specs.Places.{joined, placed, at};
ghost use Rattle.plan.specs.Numbers.{Within, variables, columns};
ghost use Rattle.plan.specs.Parts.{link_start};
ghost use Rattle.program.specs.Layout as specs;
ghost use Rattle.program.specs.Placed.{Room, Fits, Wrote};

use plan::Plan;

// The number of steps: m(n+2) + m(m-1)/2 + 1 + t(2L+12) + L. The first two terms are made as one.
pub fn step_count(plan: Plan) -> usize
    requires { Within plan }
    ensures { result ≡ specs.step_count plan }
{
    let l = plan.variables();
    plan.m * (l + plan.n + 3) / 2 + 1 + plan.t * (2 * l + 12) + l
}

// A plan with what its program is written from.
#[derive(Clone, Copy)]
struct Source<'a> {
    plan: Plan,
    weights: &'a [u8],
    d: &'a [u8],
    beta: &'a [u8],
    ghost within: { Within plan },
    ghost weights_len: { length weights.now ≡ link_start plan plan.m },
    ghost d_len: { length d.now ≡ plan.t * variables plan },
    ghost beta_len: { length beta.now ≡ columns plan },
}

// The caller's slice, and the place behind what is written so far.
#[derive(Drop)]
struct Writer<'a> {
    out: &'a mut [u16],
    at: usize,
}

impl Writer<'_> {
    // One step, as its four numbers; the kind's number stands in the three methods below alone.
    fn step(&mut self, kind: u16, to: u16, from: u16, by: u16)
        requires { Fits self.old (specs.step kind to from by) }
        ensures { Wrote self.old (specs.step kind to from by) self.new }
    {
        let begin = self.at;
        self.out[begin] = kind;
        self.out[begin + 1] = to;
        self.out[begin + 2] = from;
        self.out[begin + 3] = by;
        self.at = begin + 4;
    }

    // A register cleared.
    fn clear(&mut self, to: u16)
        requires { Fits self.old (specs.clear to) }
        ensures { Wrote self.old (specs.clear to) self.new }
    {
        self.step(0, to, 0, 0);
    }

    // A register added to another by a weight.
    fn add(&mut self, to: u16, from: u16, by: u16)
        requires { Fits self.old (specs.add to from by) }
        ensures { Wrote self.old (specs.add to from by) self.new }
    {
        self.step(1, to, from, by);
    }

    // A register bootstrapped in place by a table.
    fn boot(&mut self, register: u16, table: u16)
        requires { Fits self.old (specs.boot register table) }
        ensures { Wrote self.old (specs.boot register table) self.new }
    {
        self.step(2, register, register, table);
    }

    // Each variable added to a register by its weight.
    fn adds(&mut self, to: u16, weights: &[u8])
        requires weights_len_bound { length weights.now ≤ 64 }
        requires room { Fits self.old (specs.adds to (at weights.now) (length weights.now)) }
        ensures { Wrote self.old (specs.adds to (at weights.now) (length weights.now)) self.new }
    {
        for (j, weight) in weights.iter().enumerate() {
            self.add(to, j as u16, *weight as u16);
        }
    }

    // A register cleared and given a weighted sum of the variables.
    fn sum(&mut self, to: u16, weights: &[u8])
        requires weights_len_bound { length weights.now ≤ 64 }
        requires room { Fits self.old (specs.clear to ++ specs.adds to (at weights.now) (length weights.now)) }
        ensures { Wrote self.old (specs.clear to ++ specs.adds to (at weights.now) (length weights.now)) self.new }
    {
        self.clear(to);
        self.adds(to, weights);
    }

    // A register cleared and given u and v, v by a weight.
    fn pair(&mut self, to: u16, u: u16, v: u16, by: u16)
        requires { Fits self.old (specs.clear to ++ (specs.add to u 1 ++ specs.add to v by)) }
        ensures { Wrote self.old (specs.clear to ++ (specs.add to u 1 ++ specs.add to v by)) self.new }
    {
        self.clear(to);
        self.add(to, u, 1);
        self.add(to, v, by);
    }

    // Link k, whose weights begin at `start`: its register cleared, the sum of the variables before it, and its bootstrap.
    fn link(&mut self, source: &Source, start: usize, k: usize)
        requires start_value { (start ≡ link_start source.now.plan k) × (k < source.now.plan.m) }
        requires room { Fits self.old (specs.link_steps source.now.plan source.now.weights.now k) }
        ensures { Wrote self.old (specs.link_steps source.now.plan source.now.weights.now k) self.new }
    {
        let place = source.plan.n + k;
        let end = start + place;
        let to = place as u16;
        self.sum(to, &source.weights[start..end]);
        self.boot(to, k as u16);
    }

    // All links in order.
    fn links(&mut self, source: &Source)
        requires { Fits self.old (joined (specs.link_steps source.now.plan source.now.weights.now) source.now.plan.m) }
        ensures { Wrote self.old (joined (specs.link_steps source.now.plan source.now.weights.now) source.now.plan.m) self.new }
    {
        let mut start = 0;
        for k in 0..source.plan.m {
            self.link(source, start, k);
            start += source.plan.n + k;
        }
    }

    // From u and v, the registers after the variables, to y: a and b become u + v and u - v, then their squares' tables, and both go to y.
    fn squares(&mut self, u: u16, table: u16, minus: u16)
        requires u_bound { (u ≤ 64) × (table ≤ 64) }
        requires room { Fits self.old (specs.square_steps u table minus) }
        ensures { Wrote self.old (specs.square_steps u table minus) self.new }
    {
        let v = u + 1;
        let a = u + 2;
        let b = u + 3;
        let y = u + 4;
        self.pair(a, u, v, 1);
        self.pair(b, u, v, minus);
        self.boot(a, table);
        self.boot(b, table + 1);
        self.add(y, a, 1);
        self.add(y, b, 1);
    }

    // Product i: u and v become its two weighted sums, and their product goes to y.
    fn product(&mut self, source: &Source, i: usize)
        requires i_lt_t { i < source.now.plan.t }
        requires room { Fits self.old (specs.product_steps source.now.plan source.now.d.now source.now.beta.now i) }
        ensures { Wrote self.old (specs.product_steps source.now.plan source.now.d.now source.now.beta.now i) self.new }
    {
        let l = source.plan.variables();
        let start = i * l;
        let end = start + l;
        let u = l as u16;
        self.sum(u, &source.beta[start..end]);
        self.sum(u + 1, &source.d[start..end]);
        self.squares(u, source.plan.m as u16, (source.plan.p as u16) - 1);
    }

    // All products in order.
    fn products(&mut self, source: &Source)
        requires { Fits self.old (joined (specs.product_steps source.now.plan source.now.d.now source.now.beta.now) source.now.plan.t) }
        ensures { Wrote self.old (joined (specs.product_steps source.now.plan source.now.d.now source.now.beta.now) source.now.plan.t) self.new }
    {
        for i in 0..source.plan.t {
            self.product(source, i);
        }
    }
}

// The whole program of a checked plan with its parts as lent, at the slice's front. No `CheckedPlan` is asked for: tables and residues may be
// anything.
pub fn put_program(plan: Plan, weights: &[u8], d: &[u8], beta: &[u8], out: &mut [u16])
    requires within { Within plan }
    requires weights_len { length weights.now ≡ link_start plan plan.m }
    requires d_len { (length d.now ≡ plan.t * variables plan) × (length beta.now ≡ columns plan) }
    requires room { Room out.old 0 (specs.layout plan weights.now d.now beta.now) }
    ensures { out.new ≡ placed out.old 0 (specs.layout plan weights.now d.now beta.now) }
{
    let l = plan.variables();
    let y = (l as u16) + 4;
    let start = plan.t * l;
    let end = start + l;
    let source = Source {
        plan,
        weights,
        d,
        beta,
    };
    let mut writer = Writer { out, at: 0 };
    writer.links(&source);
    writer.clear(y);
    writer.products(&source);
    writer.adds(y, &beta[start..end]);
}
