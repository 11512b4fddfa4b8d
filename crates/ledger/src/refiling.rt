// Filing a whole list on an empty store, and cause 16.
ghost use Rattle.std.specs.Prelude.{◌≡◌, true, ◌<◌, [], ◌∷◌};
ghost use Rattle.plan.specs.Numbers.{columns, product};
ghost use Rattle.plan.specs.Lending.{whole};
ghost use Rattle.store.specs.Calls as calls;
ghost use Rattle.store.specs.Stages.{Ready};
ghost use Rattle.ledger.specs.Lists as lists;
ghost use Rattle.ledger.specs.Stages as stages;

use crate::pairs::well_listed;
use plan::{CheckedPlan, Plan};
use store::file_entry;

// Files a pair, unless it is of the entry that is left out. Whether it is no contradiction.
fn refile_one(plan: &CheckedPlan, pair: [u16; 2], skip: usize, store: &mut [u8]) -> bool
    requires value_bound { (stages.as_pair pair).1 < plan.now.numbers.s }
    requires ready { Ready plan.now.numbers.p (columns plan.now.numbers) store.old }
    ensures store_after { store.new ≡ lists.filed_on (whole plan.now) store.old (lists.without (stages.as_pair pair ∷ []) skip) }
    ensures value { result ≡ stages.consistent (whole plan.now) store.old (lists.without (stages.as_pair pair ∷ []) skip) }
{
    let entry = usize::from(pair[0]);
    if entry == skip {
        return true;
    }
    file_entry(plan, store, entry, pair[1] as u8).is_ok()
}

// Files the list in order on an empty store, without the entry `skip`. Whether none of it is a contradiction; one that is leaves the store, and
// the rest is filed.
pub fn refile(plan: &CheckedPlan, pairs: &[[u16; 2]], skip: usize, store: &mut [u8]) -> bool
    requires list_value { stages.ranged (product plan.now.radices.now) plan.now.numbers.s (stages.as_pairs pairs.now) ≡ true }
    requires store_value { store.old ≡ calls.empty_store plan.now.numbers }
    ensures store_after { store.new ≡ lists.filed_on (whole plan.now) (calls.empty_store plan.now.numbers) (lists.without (stages.as_pairs pairs.now) skip) }
    ensures value { result ≡ stages.consistent (whole plan.now) (calls.empty_store plan.now.numbers) (lists.without (stages.as_pairs pairs.now) skip) }
{
    let mut fits = true;
    for pair in pairs {
        fits &= refile_one(plan, *pair, skip, store);
    }
    fits
}

// What cause 16 denies: the list is filed on the work store, which is empty before.
pub fn is_sound(plan: &CheckedPlan, store: &[u8], work: &mut [u8], pairs: &[[u16; 2]]) -> bool
    requires { work.old ≡ calls.empty_store plan.now.numbers }
    ensures { result ≡ lists.sound (whole plan.now) store.now (stages.as_pairs pairs.now) }
{
    let n = plan.entries();
    let mut seen = [0u8; Plan::ENTRIES];
    well_listed(pairs, n, plan.numbers.s, &mut seen)
        && refile(plan, pairs, n, work)
        && *store == *work
}
