// A plan as a caller lends it, of which nothing is known, and as it is once causes 1 to 5 are ruled out.
ghost use Rattle.plan.specs.Numbers.{Within};
ghost use Rattle.plan.specs.Parts.{Lent, lend};

use crate::numbers::Plan;

// A plan as lent: its five numbers and the parts that it carries, one flat slice each.
#[derive(Clone, Copy)]
pub struct LentPlan<'a> {
    pub p: usize,
    pub s: usize,
    pub n: usize,
    pub m: usize,
    pub t: usize,
    pub radices: &'a [u8],
    pub weights: &'a [u8],
    pub tables: &'a [u8],
    pub products: &'a [u8],
}

// A plan that meets none of causes 1 to 5, with the parts that it carries.
#[derive(Clone, Copy)]
pub struct CheckedPlan<'a> {
    pub numbers: Plan,
    pub radices: &'a [u8],
    pub weights: &'a [u8],
    pub tables: &'a [u8],
    pub products: &'a [u8],
    pub ghost within: { Within numbers },
    pub ghost lent: { Lent (lend numbers radices.now weights.now tables.now products.now) },
}
