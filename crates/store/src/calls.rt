// The entry points: any numbers and bytes are taken. Each tests the causes it can meet in number order, and a refusal leaves what was lent
// as it was.
ghost use Rattle.std.specs.Prelude.{◌≡◌};
ghost use Rattle.plan.specs.Causes.{first, leaves, refusal_of};
ghost use Rattle.plan.specs.Numbers.{columns};
ghost use Rattle.plan.specs.Lending.{given_of};
ghost use Rattle.store.specs.Calls as specs;
ghost use Rattle.store.specs.Settled as settled;

use crate::elimination::{Filed, file_entry, read_off};
use crate::reduced::is_reduced;
use crate::settling::{Settled, settle_entry};
use plan::{LentPlan, Own, Refusal};

// Tests a store: causes 1 2 3 4 5 6.
pub fn test(lent: &LentPlan, store: &[u8]) -> Result<(), Refusal>
    ensures { refusal_of result ≡ first (specs.test_causes (given_of lent.now) store.now) }
{
    let plan = lent.admit(Own::Store(store.len()))?;
    if !is_reduced(store, plan.columns(), plan.numbers.p) {
        return Err(Refusal::Unreduced);
    }
    Ok(())
}

// Files an entry with its value into a store: causes 1 to 9. The store is written only where the entry is new.
pub fn file(lent: &LentPlan, store: &mut [u8], entry: usize, value: usize) -> Result<Filed, Refusal>
    ensures answer { specs.answer_of result ≡ specs.file_answer (given_of lent.now) store.old entry value }
    ensures store_after { store.new ≡ specs.file_store (given_of lent.now) store.old entry value }
{
    let plan = lent.admit(Own::Store(store.len()))?;
    if !is_reduced(store, plan.columns(), plan.numbers.p) {
        return Err(Refusal::Unreduced);
    }
    if plan.entries() <= entry {
        return Err(Refusal::Entry);
    }
    if plan.numbers.s as usize <= value {
        return Err(Refusal::Value);
    }
    file_entry(&plan, store, entry, value as u8)
}

// How an entry stands on a store, filed or not: causes 1 2 3 4 5 6 7.
pub fn settle(lent: &LentPlan, store: &[u8], entry: usize) -> Result<Settled, Refusal>
    ensures { settled.answer_of result ≡ settled.settle_answer (given_of lent.now) store.now entry }
{
    let plan = lent.admit(Own::Store(store.len()))?;
    if !is_reduced(store, plan.columns(), plan.numbers.p) {
        return Err(Refusal::Unreduced);
    }
    if plan.entries() <= entry {
        Err(Refusal::Entry)
    } else {
        Ok(settle_entry(&plan, store, entry))
    }
}

// Reads the coefficients off a store into `beta`, of exactly C bytes: causes 1 2 3 4 5 6.
pub fn coefficients(lent: &LentPlan, store: &[u8], beta: &mut [u8]) -> Result<(), Refusal>
    ensures refusal { refusal_of result ≡ first (specs.coefficients_causes (given_of lent.now) store.now beta.old) }
    ensures beta_after { beta.new ≡ leaves (refusal_of result) (specs.coefficients (columns (given_of lent.now).numbers) store.now) beta.old }
{
    let plan = lent.admit(Own::StoreAndRow(store.len(), beta.len()))?;
    let c = plan.columns();
    if !is_reduced(store, c, plan.numbers.p) {
        return Err(Refusal::Unreduced);
    }
    read_off(store, c, beta);
    Ok(())
}
