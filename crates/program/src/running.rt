// Running a list of steps.
ghost use Rattle.std.specs.Prelude.{◌≡◌, true, [], ◌∷◌, ◌+◌, ◌*◌, ◌/◌, ◌%◌, ◌≤◌, ◌<◌, length, set};
ghost use Rattle.lists.specs.Places.{at};
ghost use Rattle.field.specs.Residues.{Modulus, Residues, inverse, square};
ghost use Rattle.plan.specs.Numbers.{Within};
ghost use Rattle.program.specs.Steps as specs;
ghost use Rattle.program.specs.Calls.{digits_fit, told};
ghost use Rattle.program.specs.Reading.{Reads};

use plan::{CheckedPlan, Plan};

// What the run answers: y, and the number of bootstraps carried out.
#[derive(Clone, Copy, Debug, PartialEq, Eq)]
pub struct Ran {
    pub y: u8,
    pub bootstraps: usize,
}

// A step of a list, read from its four numbers.
#[derive(Clone, Copy)]
enum Step {
    // Register `to` becomes 0.
    Clear { to: usize },
    // Register `to` gains `by` times register `from`.
    Add { to: usize, from: usize, by: u8 },
    // A bootstrap: register `to` becomes table `by` at register `from`.
    Boot { to: usize, from: usize, by: usize },
}

impl Step {
    // Its kind is at most 2, and a kind 1 `by` is a residue.
    fn read(kind: u16, to: u16, from: u16, by: u16) -> Self
        requires { (kind ≤ 2) × (kind ≡ 1 → by < 256) }
        ensures { Reads result kind to from by }
    {
        let to = to as usize;
        let from = from as usize;
        match kind {
            0 => Step::Clear { to },
            1 => Step::Add {
                to,
                from,
                by: by as u8,
            },
            _ => Step::Boot {
                to,
                from,
                by: by as usize,
            },
        }
    }
}

// Whether a step meets none of the conditions of cause 11. (By the number of its kind: only here is it known to be one.)
#[tactic(auto, unfolding(crate::specs::Steps::good_step))]
fn good_step(plan: Plan, kind: u16, to: u16, from: u16, by: u16) -> bool
    requires { Within plan }
    ensures { result ≡ specs.good_step plan kind to from by }
{
    let last = (plan.n + plan.m + 4) as u16;
    to <= last
        && from <= last
        && match kind {
            0 => from == 0 && by == 0,
            1 => by < plan.p as u16,
            2 => by <= plan.m as u16 + 1,
            _ => false,
        }
}

// Cause 11, step after step.
pub fn well_formed(plan: Plan, steps: &[u16]) -> bool
    requires { Within plan }
    ensures { result ≡ specs.well_formed plan steps.now }
{
    let (steps, rest) = steps.as_chunks::<4>();
    rest.is_empty() && steps.iter().all(|&[kind, to, from, by]| good_step(plan, kind, to, from, by))
}

// Cause 12, digit after digit, each with its own radix.
pub fn digits_fit(radices: &[u8], digits: &[u8]) -> bool
    requires { length radices.now ≡ length digits.now }
    ensures { result ≡ digits_fit radices.now digits.now }
{
    digits
        .iter()
        .zip(radices)
        .all(|(digit, radix)| digit < radix)
}

// Table m at z: the square of z times the inverse of 4.
fn square_at(z: u8, quarter: u8, p: u8) -> u8
    requires modulus { Modulus p }
    requires z_lt_p { (z < p) × (quarter ≡ inverse p 4) }
    ensures { result ≡ square p z }
{
    ((z as u32) * (z as u32) * (quarter as u32) % (p as u32)) as u8
}

// Table k at z: a link's table, or one of the two square tables.
fn table_at(plan: &CheckedPlan, quarter: u8, k: usize, z: u8) -> u8
    requires { (z < plan.now.numbers.p) × (quarter ≡ inverse plan.now.numbers.p 4) }
    ensures { result ≡ specs.table_at plan.now.numbers plan.now.tables.now k z }
{
    let p = plan.numbers.p;
    if k < plan.numbers.m {
        let place = k * (p as usize) + (z as usize);
        return plan.tables[place];
    }
    let r = square_at(z, quarter, p);
    if k == plan.numbers.m {
        return r;
    }
    if r == 0 {
        return 0;
    }
    p - r
}

// The registers by value: each step takes them and gives the registers after it.
#[derive(Clone, Copy)]
struct Registers {
    at: [u8; Registers::COUNT],
    ghost size: { length at ≡ 69 },
}

impl Registers {
    // The variables, then u, v, a, b and y.
    const COUNT: usize = Plan::VARIABLES + 5;

    // The digits first, all others 0.
    fn new(digits: &[u8]) -> Self
        requires { length digits.now ≤ 69 }
        ensures { at result.at ≡ at digits.now }
    {
        let mut at = [0u8; Registers::COUNT];
        at[..digits.len()].copy_from_slice(digits);
        Registers { at }
    }

    // Kind 0: a register becomes 0.
    fn clear(mut self, to: usize) -> Self
        requires { to < 69 }
        ensures { result.at ≡ set self.at to 0 }
    {
        self.at[to] = 0;
        self
    }

    // Kind 1: a register gains a multiple of another; m is the reciprocal of p.
    fn add(mut self, to: usize, from: usize, by: u8, p: u8, m: u16) -> Self
        requires inside { (to < 69) × (from < 69) }
        requires modulus { Modulus p }
        requires m_value { (m ≡ 65536 / p) × (by < p) × (Residues p self.at) }
        ensures { result.at ≡ set self.at to ((at self.at to + by * at self.at from) % p) }
    {
        let v = field::cell(self.at[to], self.at[from], by, p, m);
        self.at[to] = v;
        self
    }

    // Kind 2, a bootstrap: a register becomes a table's value at another.
    fn boot(mut self, plan: &CheckedPlan, quarter: u8, to: usize, from: usize, by: usize) -> Self
        requires inside { (to < 69) × (from < 69) }
        requires quarter_value { (quarter ≡ inverse plan.now.numbers.p 4) × (Residues plan.now.numbers.p self.at) }
        ensures { result.at ≡ set self.at to (specs.table_at plan.now.numbers plan.now.tables.now by (at self.at from)) }
    {
        let v = table_at(plan, quarter, by, self.at[from]);
        self.at[to] = v;
        self
    }
}

// The run of a well-formed list: the bootstraps are counted as they are carried out.
pub fn run_steps(plan: &CheckedPlan, steps: &[u16], digits: &[u8]) -> Ran
    requires steps_value { specs.well_formed plan.now.numbers steps.now ≡ true }
    requires digits_len { (length digits.now ≡ plan.now.numbers.n) × (Residues plan.now.numbers.p digits.now) }
    ensures { told result ≡ specs.output plan.now.numbers plan.now.tables.now steps.now digits.now ∷ specs.bootstraps steps.now ∷ [] }
{
    let p = plan.numbers.p;
    let quarter = field::inverse(4 % p, p);
    let reciprocal = field::reciprocal(p);
    let mut registers = Registers::new(digits);
    let mut bootstraps: usize = 0;
    let (steps, _) = steps.as_chunks::<4>();
    for &[kind, to, from, by] in steps {
        match Step::read(kind, to, from, by) {
            Step::Clear { to } => registers = registers.clear(to),
            Step::Add { to, from, by } => registers = registers.add(to, from, by, p, reciprocal),
            Step::Boot { to, from, by } => {
                registers = registers.boot(plan, quarter, to, from, by);
                bootstraps += 1;
            }
        }
    }
    let y = plan.variables() + 4;
    Ran {
        y: registers.at[y],
        bootstraps,
    }
}
