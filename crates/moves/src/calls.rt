// The entry points: any numbers and bytes are taken. Each tests the causes it can meet in number order, and a refusal leaves what was lent
// as it was.
ghost use Rattle.std.specs.Prelude.{◌≡◌};
ghost use Rattle.plan.specs.Causes.{first, leaves, refusal_of};
ghost use Rattle.plan.specs.Numbers.{columns};
ghost use Rattle.plan.specs.Lending.{given_of};
ghost use Rattle.moves.specs.Moves as moves;

use crate::moving::{halve, widen};
use crate::reduced::is_reduced_full;
use plan::{LentPlan, Own, Refusal};
use store::is_reduced;

// Moves a store from the layout before to the new one: causes 1 2 3 4 5 6, and 6 is of `full`, whose rows have C + 1 bytes each.
pub fn to_half(lent: &LentPlan, full: &[u8], half: &mut [u8]) -> Result<(), Refusal>
    ensures refusal { refusal_of result ≡ first (moves.to_half_causes (given_of lent.now) full.now half.old) }
    ensures half_after { half.new ≡ leaves (refusal_of result) (moves.halved (columns (given_of lent.now).numbers) full.now) half.old }
{
    let plan = lent.admit(Own::StoreAndFull(half.len(), full.len()))?;
    let c = plan.columns();
    if !is_reduced_full(full, c, plan.numbers.p) {
        return Err(Refusal::Unreduced);
    }
    halve(full, half, c);
    Ok(())
}

// Moves a store from the new layout to the one before: causes 1 2 3 4 5 6, and 6 is of `half`.
pub fn to_full(lent: &LentPlan, half: &[u8], full: &mut [u8]) -> Result<(), Refusal>
    ensures refusal { refusal_of result ≡ first (moves.to_full_causes (given_of lent.now) half.now full.old) }
    ensures full_after { full.new ≡ leaves (refusal_of result) (moves.widened (columns (given_of lent.now).numbers) half.now) full.old }
{
    let plan = lent.admit(Own::StoreAndFull(half.len(), full.len()))?;
    let c = plan.columns();
    if !is_reduced(half, c, plan.numbers.p) {
        return Err(Refusal::Unreduced);
    }
    widen(half, full, c);
    Ok(())
}
