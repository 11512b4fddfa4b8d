// The entry points: any numbers and bytes are taken, and a refusal leaves what was lent as it was.
ghost use Rattle.std.specs.Prelude.{◌≡◌};
ghost use Rattle.plan.specs.Causes.{first, leaves, refusal_of};
ghost use Rattle.plan.specs.Lending.{given_of};
ghost use Rattle.plan.specs.Parts.{check_causes};
ghost use Rattle.plan.specs.Rows as specs;

use crate::admission::Own;
use crate::lending::LentPlan;
use crate::refusal::Refusal;

// Checks a plan: causes 1 to 5.
pub fn check(lent: &LentPlan) -> Result<(), Refusal>
    ensures { refusal_of result ≡ first (check_causes (given_of lent.now)) }
{
    lent.admit(Own::Nothing)?;
    Ok(())
}

// Fills `row`, of exactly C bytes, with row `entry`: causes 1 2 3 4 5 7. A refusal leaves it as it was.
pub fn row(lent: &LentPlan, entry: usize, row: &mut [u8]) -> Result<(), Refusal>
    ensures refusal { refusal_of result ≡ first (specs.row_causes (given_of lent.now) entry row.old) }
    ensures row_after { row.new ≡ leaves (refusal_of result) (specs.row (given_of lent.now) entry) row.old }
{
    let plan = lent.admit(Own::Row(row.len()))?;
    if plan.entries() <= entry {
        return Err(Refusal::Entry);
    }
    plan.fill_row(entry, row);
    Ok(())
}
