// The numbers of a plan and their limits, which stand here once.
ghost use Rattle.std.specs.Prelude.{◌≡◌, not};
ghost use Rattle.plan.specs.Numbers as specs;

use crate::radices::{product, radices_fit, radix_fits};
use crate::refusal::Refusal;

// The numbers of a plan that meets none of causes 1 to 3: the prime, the bound of table values, the digits, the links and the products.
// The radices stay with the caller, like the other parts. (Its limits, `Within`, are no ghost field: `plan` and `given`, of which the contracts
// of the calls speak, are of any five numbers.)
#[derive(Clone, Copy)]
pub struct Plan {
    pub p: u8,
    pub s: u8,
    pub n: usize,
    pub m: usize,
    pub t: usize,
}

// Whether n, L, t and C are in range. No number is too large to ask: each sum and product is made only where it fits.
#[tactic(auto, unfolding(crate::specs::Numbers::out_of_range))]
fn in_range(n: usize, m: usize, t: usize) -> bool
    ensures { result ≡ not (specs.out_of_range n m t) }
{
    1 <= n
        && n <= Plan::VARIABLES
        && m <= Plan::VARIABLES - n
        && t <= Plan::PRODUCTS
        && (t + 1) * (n + m) <= Plan::COLUMNS
}

impl Plan {
    // An array for what a plan has is as long as the largest plan needs it, and its first places count: nothing is allocated.
    // entries, the product of the radices, at most
    pub const ENTRIES: usize = 4096;
    // L at most
    pub const VARIABLES: usize = 64;
    // t at most
    pub const PRODUCTS: usize = 32;
    // C at most
    pub const COLUMNS: usize = 1024;

    // Causes 1 to 3, in that order.
    #[tactic(auto, unfolding(crate::specs::Numbers::checked))]
    pub fn new(
        p: usize,
        s: usize,
        n: usize,
        m: usize,
        t: usize,
        radices: &[u8],
    ) -> Result<Plan, Refusal>
        ensures { specs.answer_of result ≡ specs.checked p s n m t radices.now }
    {
        if !field::is_odd_prime(p) {
            return Err(Refusal::Prime);
        }
        let prime = p as u8;
        if !radix_fits(s, p) || !radices_fit(radices, prime) {
            return Err(Refusal::Radix);
        }
        if !in_range(n, m, t) || Plan::ENTRIES < product(radices) {
            return Err(Refusal::Range);
        }
        Ok(Plan {
            p: prime,
            s: s as u8,
            n,
            m,
            t,
        })
    }

    // L
    pub fn variables(self) -> usize
        requires { specs.Within self }
        ensures { result ≡ specs.variables self }
    {
        self.n + self.m
    }

    // C
    pub fn columns(self) -> usize
        requires { specs.Within self }
        ensures { result ≡ specs.columns self }
    {
        (self.t + 1) * (self.n + self.m)
    }

    // The number of entries.
    pub fn entries(self, radices: &[u8]) -> usize
        requires { specs.Radices self radices.now }
        ensures { result ≡ specs.product radices.now }
    {
        product(radices)
    }
}
