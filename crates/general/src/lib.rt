// Plans that suit every table.
//
// A host calls `general`, which takes any numbers and bytes. Stands on `store` and `plan`, and on `laws` for how many filings can be New. Renders
// 02, C-17.
#![tactic(auto)]

ghost use Rattle.std.specs.Prelude.{◌≡◌};
ghost use Rattle.plan.specs.Numbers.{Within};
ghost use Rattle.plan.specs.Lending.{given_of, whole};
ghost use Rattle.store.specs.Calls as calls;
ghost use Rattle.laws.specs.Rank.{rows_most, most_new};
ghost use Rattle.general.specs.Suits as specs;

use plan::{CheckedPlan, LentPlan, Own, Plan, Refusal};
use store::{Filed, file_entry};

// How many d rows can be independent: the smaller of t and L.
fn rows_most(plan: Plan) -> usize
    requires { Within plan }
    ensures { result ≡ rows_most plan }
{
    plan.t.min(plan.variables())
}

// How many filings can be New at most. Written so that no difference is below 0 where q is 0.
fn most_new(plan: Plan) -> usize
    requires { Within plan }
    ensures { result ≡ most_new plan }
{
    let l = plan.variables();
    let q = rows_most(plan);
    (q + 1) * l + q - q * (q + 1) / 2
}

// Whether an answer of filing is New.
fn is_new(filed: Result<Filed, Refusal>) -> bool
    ensures { result ≡ specs.says_new (calls.answer_of filed) }
{
    matches!(filed, Ok(Filed::New(_)))
}

// Whether each entry, filed with value 0 on an empty store, is New. Files nothing where there are more entries than can be, and stops at the
// first that is not.
fn all_new(plan: &CheckedPlan, work: &mut [u8]) -> bool
    requires { work.old ≡ calls.empty_store plan.now.numbers }
    ensures { result ≡ specs.is_general (whole plan.now) }
{
    let n = plan.entries();
    if most_new(plan.numbers) < n {
        return false;
    }
    for i in 0..n {
        if !is_new(file_entry(plan, work, i, 0)) {
            return false;
        }
    }
    true
}

// Whether a plan suits every table: causes 1 2 3 4 5. The work store's old bytes are not tested, and it is empty afterwards; a refusal leaves it.
pub fn general(lent: &LentPlan, work: &mut [u8]) -> Result<bool, Refusal>
    ensures answer { specs.answer_of result ≡ specs.general_answer (given_of lent.now) work.old }
    ensures work_after { work.new ≡ specs.general_work (given_of lent.now) work.old }
{
    let plan = lent.admit(Own::Store(work.len()))?;
    work.fill(0);
    let suits = all_new(&plan, work);
    work.fill(0);
    Ok(suits)
}
