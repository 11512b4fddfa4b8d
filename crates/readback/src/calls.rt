// The entry points: any numbers, lists and bytes are taken.
ghost use Rattle.std.specs.Prelude.{◌≡◌, length};
ghost use Rattle.lists.specs.Places.{same};
ghost use Rattle.field.specs.Residues.{Residues};
ghost use Rattle.plan.specs.Causes.{first, leaves, refusal_of};
ghost use Rattle.plan.specs.Lending.{given_of};
ghost use Rattle.plan.specs.Numbers.{columns};
ghost use Rattle.listing.specs.Printed.{figures};
ghost use Rattle.readback.specs.Recovery as recovery;
ghost use Rattle.readback.specs.Listings as listings;

use crate::recovery::is_written;
use crate::scanning::scan_text;
use crate::unread::Unread;
use plan::{CheckedPlan, LentPlan, Own, Plan, Refusal};

// No coefficients have the text as their listing: 15 comes with line 1.
const FOREIGN: Unread = Unread {
    refusal: Refusal::Foreign,
    line: Some(1),
};

// Whether three numbers are the figures of the listing of these coefficients.
fn figures_match(plan: &CheckedPlan, beta: &[u8], found: &[usize]) -> bool
    requires beta_len { (length beta.now ≡ columns plan.now.numbers) × (Residues plan.now.numbers.p beta.now) }
    requires found_len { length found.now ≡ 3 }
    ensures { result ≡ same found.now (figures plan.now.numbers plan.now.weights.now plan.now.products.now beta.now) }
{
    let numbers = plan.numbers;
    let figures = [
        numbers.m + 2 * numbers.t,
        program::step_count(numbers),
        listing::worst(numbers, plan.weights, plan.products, beta),
    ];
    found == figures.as_slice()
}

// The coefficients from a list of steps into `beta`, of exactly C bytes: causes 1 2 3 4 5 15. A refusal leaves it as it was.
pub fn read_steps(lent: &LentPlan, steps: &[u16], beta: &mut [u8]) -> Result<(), Refusal>
    ensures refusal { refusal_of result ≡ first (recovery.steps_causes (given_of lent.now) steps.now beta.old) }
    ensures beta_after { beta.new ≡ leaves (refusal_of result) (recovery.recovered (given_of lent.now).numbers steps.now) beta.old }
{
    let plan = lent.admit(Own::Row(beta.len()))?;
    let mut row = [0u8; Plan::COLUMNS];
    let found = &mut row[..plan.columns()];
    if !is_written(&plan, steps, found) {
        return Err(Refusal::Foreign);
    }
    beta.copy_from_slice(found);
    Ok(())
}

// The same for a checked plan, from a text: 13 with its line, 15 with line 1, or the coefficients in `beta`.
fn read_text(plan: &CheckedPlan, text: &[u8], beta: &mut [u8]) -> Result<(), Unread>
    requires { length beta.old ≡ columns plan.now.numbers }
    ensures answer { listings.answer_of result ≡ listings.text_answer plan.now.numbers plan.now.weights.now plan.now.products.now text.now }
    ensures beta_after { beta.new ≡ listings.text_left plan.now.numbers plan.now.weights.now plan.now.products.now text.now beta.old }
{
    let mut figures = [0usize; 3];
    let mut steps = program::steps_buffer();
    let Some(count) = scan_text(text, &mut figures, &mut steps)? else {
        return Err(FOREIGN);
    };
    let mut row = [0u8; Plan::COLUMNS];
    let found = &mut row[..plan.columns()];
    if is_written(plan, &steps[..count], found) && figures_match(plan, found, &figures) {
        beta.copy_from_slice(found);
        return Ok(());
    }
    Err(FOREIGN)
}

// The coefficients from a listing, a text lent whole, into `beta`, of exactly C bytes: causes 1 2 3 4 5, then 13 with the first line that
// is malformed or missing, then 15 with line 1. A refusal leaves it as it was.
pub fn read_listing(lent: &LentPlan, text: &[u8], beta: &mut [u8]) -> Result<(), Unread>
    ensures answer { listings.answer_of result ≡ listings.listing_answer (given_of lent.now) text.now beta.old }
    ensures beta_after { beta.new ≡ listings.listing_left (given_of lent.now) text.now beta.old }
{
    let plan = lent.admit(Own::Row(beta.len()))?;
    read_text(&plan, text, beta)
}
