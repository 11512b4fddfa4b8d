// The entry points: any numbers and lists are taken.
ghost use Rattle.std.specs.Prelude.{◌≡◌, ◌*◌, IfOk};
ghost use Rattle.plan.specs.Causes.{first, refusal_of};
ghost use Rattle.plan.specs.Lending.{given_of};
ghost use Rattle.program.specs.Layout.{step_count};
ghost use Rattle.program.specs.Calls as specs;

use crate::running::{Ran, digits_fit, run_steps, well_formed};
use crate::writing::{put_program, step_count};
use plan::{CheckedPlan, LentPlan, Own, Refusal};

// The writing's own causes, 5 for β and 10. `room` is the step slice's length.
fn check_room(plan: &CheckedPlan, beta: &[u8], room: usize) -> Result<(), Refusal>
    ensures { refusal_of result ≡ first (specs.writing_causes plan.now.numbers beta.now room) }
{
    if !field::all_below(beta, plan.numbers.p) {
        return Err(Refusal::Residue);
    }
    if room < 4 * step_count(plan.numbers) {
        return Err(Refusal::Room);
    }
    Ok(())
}

// Whether `write` would accept, and nothing is written.
pub fn check_writing(lent: &LentPlan, beta: &[u8], steps: &[u16]) -> Result<(), Refusal>
    ensures { refusal_of result ≡ first (specs.write_causes (given_of lent.now) beta.now steps.now) }
{
    let plan = lent.admit(Own::Row(beta.len()))?;
    check_room(&plan, beta, steps.len())
}

// Writes the program at the front of `steps` and answers its length, 4 times the step count: causes 1 2 3 4 5 10. The rest of the slice,
// and all of it under a refusal, keeps its bytes.
#[tactic(auto, unfolding(crate::specs::Calls::written))]
pub fn write_into(lent: &LentPlan, beta: &[u8], steps: &mut [u16]) -> Result<usize, Refusal>
    ensures refusal { refusal_of result ≡ first (specs.write_causes (given_of lent.now) beta.now steps.old) }
    ensures steps_after { steps.new ≡ specs.written (refusal_of result) (given_of lent.now).numbers lent.now.weights.now lent.now.products.now beta.now steps.old }
    ensures length { IfOk result (λ k. k ≡ 4 * step_count (given_of lent.now).numbers) }
{
    let plan = lent.admit(Own::Row(beta.len()))?;
    check_room(&plan, beta, steps.len())?;
    put_program(plan.numbers, plan.weights, plan.products, beta, steps);
    Ok(4 * step_count(plan.numbers))
}

// Writes the program and hands back the filled part, of exactly 4 times the step count; the empty part where `check_writing` refuses. (It cannot
// fail, since 01 asks for the returned part; `write_into` says why it refuses.)
pub fn write<'a>(lent: &LentPlan, beta: &[u8], steps: &'a mut [u16]) -> &'a mut [u16]
    ensures result_value { result.now ≡ specs.writer_hands (given_of lent.now) beta.now steps.old }
    ensures ref_ptr_value { result.ref_ptr ≡ steps.entry.ref_ptr }
{
    let end = write_into(lent, beta, steps).unwrap_or(0);
    &mut steps[..end]
}

// Runs a list of steps on n digits: causes 1 2 3 4 5 11 12. The whole list is tested before the first step.
pub fn run(lent: &LentPlan, steps: &[u16], digits: &[u8]) -> Result<Ran, Refusal>
    ensures { specs.answer_of result ≡ specs.run_answer (given_of lent.now) steps.now digits.now }
{
    let plan = lent.admit(Own::Digits(digits.len()))?;
    if !well_formed(plan.numbers, steps) {
        return Err(Refusal::Step);
    }
    if !digits_fit(plan.radices, digits) {
        return Err(Refusal::Digit);
    }
    Ok(run_steps(&plan, steps, digits))
}
