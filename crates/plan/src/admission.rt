// What every call that is lent a plan does first: causes 1 to 5, with the call's own parts among those of cause 4.
ghost use Rattle.std.specs.Prelude.{◌≡◌, true, ◌&&◌, ◌≤◌, eqb, leb, IfOk};
ghost use Rattle.plan.specs.Lending.{admission_of, given_of, whole};
ghost use Rattle.plan.specs.Numbers.{Within};
ghost use Rattle.plan.specs.Numbers as numbers;
ghost use Rattle.plan.specs.Parts as specs;

use crate::lending::{CheckedPlan, LentPlan};
use crate::numbers::Plan;
use crate::parts::check_parts;
use crate::radices::product;
use crate::refusal::Refusal;

// The call's own parts, by the lengths in which they were lent; of a store, a work store and records, with the records' count.
#[derive(Clone, Copy)]
pub enum Own {
    Nothing,
    Row(usize),
    Store(usize),
    StoreAndRow(usize, usize),
    StoreAndFull(usize, usize),
    StoresAndRecords(usize, usize, usize, usize),
    Digits(usize),
}

// The bytes of a store of C columns.
#[tactic(auto, unfolding(crate::specs::Parts::store_size))]
pub fn store_size(c: usize) -> usize
    requires { c ≤ 1024 }
    ensures { result ≡ specs.store_size c }
{
    c * (c + 1) / 2 + c
}

// The same in the layout before: C rows of C + 1 bytes.
#[tactic(auto, unfolding(crate::specs::Parts::full_size))]
fn full_size(c: usize) -> usize
    requires { c ≤ 1024 }
    ensures { result ≡ specs.full_size c }
{
    c * (c + 1)
}

// Whether there are as many records as entries, and the count is not above them.
fn records_fit(records: usize, count: usize, plan: Plan, radices: &[u8]) -> bool
    requires radices_value { numbers.radices_fit plan.p radices.now ≡ true }
    requires radices_bound { numbers.product radices.now ≤ 4096 }
    ensures { result ≡ (eqb records (numbers.product radices.now) && leb count records) }
{
    records == product(radices) && count <= records
}

// Whether they have the lengths that the plan says.
fn own_fits(own: Own, plan: Plan, radices: &[u8]) -> bool
    requires within { Within plan }
    requires radices_value { numbers.radices_fit plan.p radices.now ≡ true }
    requires radices_bound { numbers.product radices.now ≤ 4096 }
    ensures { result ≡ specs.own_fits own plan radices.now }
{
    let c = plan.columns();
    match own {
        Own::Nothing => true,
        Own::Row(k) => k == c,
        Own::Store(k) => k == store_size(c),
        Own::StoreAndRow(k, j) => k == store_size(c) && j == c,
        Own::StoreAndFull(k, j) => k == store_size(c) && j == full_size(c),
        Own::StoresAndRecords(k, j, r, count) => {
            let size = store_size(c);
            k == size && j == size && records_fit(r, count, plan, radices)
        }
        Own::Digits(k) => k == plan.n,
    }
}

impl<'a> LentPlan<'a> {
    // The checked plan, or the first of causes 1 to 5.
    pub fn admit(&self, own: Own) -> Result<CheckedPlan<'a>, Refusal>
        ensures answer { admission_of result ≡ specs.admitted (given_of self.now) own }
        ensures same { IfOk result (λ plan. whole plan ≡ given_of self.now) }
    {
        let numbers = Plan::new(self.p, self.s, self.n, self.m, self.t, self.radices)?;
        check_parts(numbers, self, own_fits(own, numbers, self.radices))?;
        Ok(CheckedPlan {
            numbers,
            radices: self.radices,
            weights: self.weights,
            tables: self.tables,
            products: self.products,
        })
    }
}
