// The radices of a plan's digits: causes 2 and 3 of them as lent, and the number of entries.
ghost use Rattle.std.specs.Prelude.{◌≡◌, not, ℕ, ◌<◌, min, length};
ghost use Rattle.lists.specs.Places.{at};
ghost use Rattle.plan.specs.Causes.{first, refusal_of};
ghost use Rattle.plan.specs.Numbers as specs;

use crate::numbers::Plan;
use crate::refusal::Refusal;

// Whether a radix, or the bound of table values, is 2 to p.
#[tactic(auto, unfolding(crate::specs::Numbers::bad_radix))]
pub fn radix_fits(r: usize, p: usize) -> bool
    ensures { result ≡ not (specs.bad_radix p r) }
{
    2 <= r && r <= p
}

// Whether each radix is 2 to p.
pub fn radices_fit(radices: &[u8], p: u8) -> bool
    ensures { result ≡ specs.radices_fit p radices.now }
{
    radices.iter().all(|r| radix_fits(*r as usize, p as usize))
}

// The product of the radices, or 4,097 where that is above 4,096: the loop stops as soon as it passes the limit, so nothing wraps.
// (A number and no `Option`: `entries` and `records_fit` ask it of radices that are in range, where it is the product.)
pub fn product(radices: &[u8]) -> usize
    requires { (j : ℕ) → j < length radices.now → 0 < at radices.now j }
    ensures { result ≡ min (specs.product radices.now) 4097 }
{
    let mut entries: usize = 1;
    for r in radices {
        entries *= *r as usize;
        if Plan::ENTRIES < entries {
            return Plan::ENTRIES + 1;
        }
    }
    entries
}

// The causes of radices by themselves: 2 where one is not 2 to p, 3 where their product is above the limit.
pub fn check_radices(radices: &[u8], p: u8) -> Result<(), Refusal>
    ensures { refusal_of result ≡ first (specs.radix_causes p radices.now) }
{
    if !radices_fit(radices, p) {
        return Err(Refusal::Radix);
    }
    if Plan::ENTRIES < product(radices) {
        return Err(Refusal::Range);
    }
    Ok(())
}
