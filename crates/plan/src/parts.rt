// The parts that a plan carries, as lent: causes 4 and 5.
ghost use Rattle.std.specs.Prelude.{◌≡◌};
ghost use Rattle.plan.specs.Causes.{first, refusal_of};
ghost use Rattle.plan.specs.Numbers.{Within};
ghost use Rattle.plan.specs.Parts as specs;

use crate::lending::LentPlan;
use crate::numbers::Plan;
use crate::refusal::Refusal;

// Whether each part has the length that the plan says. The weights of links 0 to m-1 are n + (n+1) + .. + (n+m-1) in number.
fn lengths_fit(plan: Plan, weights: &[u8], tables: &[u8], d: &[u8]) -> bool
    requires { Within plan }
    ensures { result ≡ specs.lengths_fit plan weights.now tables.now d.now }
{
    let n = plan.n;
    let m = plan.m;
    weights.len() == m * (2 * n + m - 1) / 2
        && tables.len() == m * (plan.p as usize)
        && d.len() == plan.t * (n + m)
}

// Whether each weight and table value is below p: one maximum pass over each part.
#[tactic(auto, unfolding(crate::specs::Parts::values_fit))]
fn values_fit(plan: Plan, weights: &[u8], tables: &[u8], d: &[u8]) -> bool
    requires { Within plan }
    ensures { result ≡ specs.values_fit plan weights.now tables.now d.now }
{
    let p = plan.p;
    field::all_below(weights, p) && field::all_below(tables, p) && field::all_below(d, p)
}

// Causes 4 and 5: a part, or the call's own part, has another length than the plan says; a weight or table value is not below p. `own` says
// whether the call's own part has its length.
pub fn check_parts(plan: Plan, lent: &LentPlan, own: bool) -> Result<(), Refusal>
    requires { Within plan }
    ensures { refusal_of result ≡ first (specs.part_causes (specs.lend plan lent.now.radices.now lent.now.weights.now lent.now.tables.now lent.now.products.now) own) }
{
    if lent.radices.len() != plan.n
        || !lengths_fit(plan, lent.weights, lent.tables, lent.products)
        || !own
    {
        return Err(Refusal::Length);
    }
    if !values_fit(plan, lent.weights, lent.tables, lent.products) {
        return Err(Refusal::Residue);
    }
    Ok(())
}
