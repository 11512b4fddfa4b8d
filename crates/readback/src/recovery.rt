// Coefficients out of a list of steps: read where the writer writes them, written again, and compared. They stand in a lent
// slice, since nothing is allocated, and the answer says whether they count.
ghost use Rattle.std.specs.Prelude.{◌≡◌, true, ◌+◌, ◌*◌, ◌≤◌, length};
ghost use Rattle.lists.specs.Places.{tab, same};
ghost use Rattle.field.specs.Rows.{all_below};
ghost use Rattle.plan.specs.Numbers.{Within, columns};
ghost use Rattle.program.specs.Steps.{by_of};
ghost use Rattle.program.specs.Layout.{step_count};
ghost use Rattle.readback.specs.Recovery as specs;

use plan::{CheckedPlan, Plan};

// The weights of as many steps as `row` has places, from step `begin` on. Whether each is a residue; where one is not, what stands in
// `row` has no meaning.
fn recover_row(steps: &[u16], begin: usize, p: u8, row: &mut [u8]) -> bool
    requires { 4 * (begin + length row.old) ≤ length steps.now }
    ensures value { result ≡ all_below p (tab (length row.old) (λ j. by_of steps.now (begin + j))) }
    ensures row_after { result ≡ true → row.new ≡ tab (length row.old) (λ j. by_of steps.now (begin + j)) }
{
    for (j, weight) in row.iter_mut().enumerate() {
        let by = steps[4 * (begin + j) + 3];
        if u16::from(p) <= by {
            return false;
        }
        *weight = by as u8;
    }
    true
}

// The step that adds variable 0 by its coefficient of row b: behind the links, the clearing of y and b products, and in a product behind
// the clearing of u.
fn coefficient_step(plan: Plan, b: usize) -> usize
    requires within { Within plan }
    requires b_le_t { b ≤ plan.t }
    ensures { result ≡ specs.coefficient_step plan b 0 }
{
    let l = plan.variables();
    let size = 2 * l + 12;
    // from the end: the last sum, and the products from b on
    let begin = program::step_count(plan) - l - (plan.t - b) * size;
    if b < plan.t {
        return begin + 1;
    }
    begin
}

// All coefficients, row after row. Whether each is a residue; where one is not, what stands in `found` has no meaning.
fn recover(plan: Plan, steps: &[u16], found: &mut [u8]) -> bool
    requires within { Within plan }
    requires steps_len { length steps.now ≡ 4 * step_count plan }
    requires found_len { length found.old ≡ columns plan }
    ensures value { result ≡ all_below plan.p (specs.recovered plan steps.now) }
    ensures found_after { result ≡ true → found.new ≡ specs.recovered plan steps.now }
{
    let l = plan.variables();
    for b in 0..plan.t + 1 {
        let from = b * l;
        let begin = coefficient_step(plan, b);
        if !recover_row(steps, begin, plan.p, &mut found[from..from + l]) {
            return false;
        }
    }
    true
}

// Whether two lists of numbers are equal. They are compared to the end: without a way out, several places are compared at once. (`==` of the
// library leaves at the first numbers that differ.)
fn same_numbers(xs: &[u16], ys: &[u16]) -> bool
    ensures { result ≡ same xs.now ys.now }
{
    if xs.len() != ys.len() {
        return false;
    }
    let mut equal = true;
    for (i, x) in xs.iter().enumerate() {
        if *x != ys[i] {
            equal = false;
        }
    }
    equal
}

// Whether the coefficients that stand in the list, written again, give the list. They are left in `found`; where they do not, what stands
// there has no meaning.
pub fn is_written(plan: &CheckedPlan, steps: &[u16], found: &mut [u8]) -> bool
    requires { length found.old ≡ columns plan.now.numbers }
    ensures value { result ≡ specs.is_written plan.now.numbers plan.now.weights.now plan.now.products.now steps.now }
    ensures found_after { result ≡ true → found.new ≡ specs.recovered plan.now.numbers steps.now }
{
    let end = 4 * program::step_count(plan.numbers);
    if steps.len() != end {
        return false;
    }
    if !recover(plan.numbers, steps, found) {
        return false;
    }
    let mut buffer = program::steps_buffer();
    let again = &mut buffer[..end];
    program::put_program(plan.numbers, plan.weights, plan.products, found, again);
    same_numbers(steps, again)
}
