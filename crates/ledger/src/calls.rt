// The two calls over a list of numbers that holds the records: any numbers and bytes are taken. Each tests the causes it can meet in number
// order, clears the work store where it passes cause 5, and leaves the store and the count where it refuses.
ghost use Rattle.std.specs.Prelude.{◌≡◌, ◌*◌, ◌≤◌, ◌<◌, length, IfOk};
ghost use Rattle.plan.specs.Causes.{first, leaves, refusal_of};
ghost use Rattle.plan.specs.Numbers.{columns};
ghost use Rattle.plan.specs.Parts.{store_size};
ghost use Rattle.plan.specs.Lending.{given_of, whole};
ghost use Rattle.store.specs.Calls as stores;
ghost use Rattle.ledger.specs.Lists as lists;
ghost use Rattle.ledger.specs.Calls as calls;
ghost use Rattle.ledger.specs.Stages as stages;

use crate::pairs::{find, first_pairs};
use crate::refiling::{is_sound, refile};
use plan::{CheckedPlan, LentPlan, Own, Refusal};
use store::{Filed, file_entry, is_reduced};

// What filing leaves to do: a record of this entry and value at a place, and nothing where there is none.
#[derive(Clone, Copy, Debug, PartialEq, Eq)]
pub struct Placed {
    pub at: Option<usize>,
    pub entry: u16,
    pub value: u16,
}

// What withdrawing leaves to do: of the first `count` records the one at a place is to be removed.
#[derive(Clone, Copy, Debug, PartialEq, Eq)]
pub struct Taken {
    pub count: usize,
    pub at: usize,
}

// Causes 6 16 7, which both calls test before their others. The work store is empty before. (No struct of plan, store, work and pairs: here the store
// is read, below it is written.)
fn check_listed(
    plan: &CheckedPlan,
    store: &[u8],
    work: &mut [u8],
    pairs: &[[u16; 2]],
    entry: usize,
) -> Result<(), Refusal>
    requires store_len { length store.now ≡ store_size (columns plan.now.numbers) }
    requires work_value { work.old ≡ stores.empty_store plan.now.numbers }
    ensures { refusal_of result ≡ first (calls.listed_own store.now (stages.as_pairs pairs.now) entry (whole plan.now)) }
{
    if !is_reduced(store, plan.columns(), plan.numbers.p) {
        return Err(Refusal::Unreduced);
    }
    if !is_sound(plan, store, work, pairs) {
        return Err(Refusal::Records);
    }
    if plan.entries() <= entry {
        return Err(Refusal::Entry);
    }
    Ok(())
}

// Causes 6 16 7 8 9 of filing with records, and the filing. The work store is empty before.
fn file_sound(
    plan: &CheckedPlan,
    store: &mut [u8],
    work: &mut [u8],
    pairs: &[[u16; 2]],
    entry: usize,
    value: usize,
) -> Result<Filed, Refusal>
    requires store_len { length store.old ≡ store_size (columns plan.now.numbers) }
    requires work_value { work.old ≡ stores.empty_store plan.now.numbers }
    ensures r_value { stores.answer_of result ≡ stages.answer_sound (whole plan.now) store.old (stages.as_pairs pairs.now) entry value }
    ensures store_after { store.new ≡ stages.store_sound (whole plan.now) store.old (stages.as_pairs pairs.now) entry value }
{
    check_listed(plan, store, work, pairs, entry)?;
    if usize::from(plan.numbers.s) <= value {
        return Err(Refusal::Value);
    }
    file_entry(plan, store, entry, value as u8)
}

// An accepted entry that is not listed joins the end of the list.
fn place(pairs: &[[u16; 2]], count: &mut usize, entry: usize, value: usize) -> Placed
    requires count_le_entries_most { count.old ≤ stages.entries_most }
    requires bound { (entry < 65536) × (value < 65536) }
    ensures count_after { count.new ≡ stages.count_after (stages.as_pairs pairs.now) count.old entry }
    ensures r_value { result ≡ stages.placed (stages.place_after (stages.as_pairs pairs.now) count.old entry) entry value }
{
    let at = match find(pairs, entry) {
        Some(_) => None,
        None => {
            let end = *count;
            *count += 1;
            Some(end)
        }
    };
    Placed {
        at,
        entry: entry as u16,
        value: value as u16,
    }
}

// Files an entry with its value: causes 1 2 3 4 5 6 16 7 8 9. `column` becomes the pivot column where the entry is new, and C, which is no
// column, where the store implied it.
pub fn file_listed(
    lent: &LentPlan,
    store: &mut [u8],
    work: &mut [u8],
    list: &[u16],
    size: usize,
    count: &mut usize,
    entry: usize,
    value: usize,
    column: &mut usize,
) -> Result<Placed, Refusal>
    requires { length list.now ≡ 2 * stages.entries_most }
    ensures { stages.FiledListed (given_of lent.now) store.old work.old list.now size count.old entry value column.old result store.new work.new count.new column.new }
{
    let listed = *count;
    let own = Own::StoresAndRecords(store.len(), work.len(), size, listed);
    let plan = lent.admit(own)?;
    let pairs = first_pairs(list, listed);
    work.fill(0);
    let filed = file_sound(&plan, store, work, pairs, entry, value);
    work.fill(0);
    *column = match filed? {
        Filed::New(c) => c,
        Filed::Implied => plan.columns(),
    };
    Ok(place(pairs, count, entry, value))
}

// Causes 6 16 7 17 of a withdrawal, and the store without the entry. The work store is empty before.
fn withdraw_sound(
    plan: &CheckedPlan,
    store: &mut [u8],
    work: &mut [u8],
    pairs: &[[u16; 2]],
    entry: usize,
) -> Result<Taken, Refusal>
    requires store_len { length store.old ≡ store_size (columns plan.now.numbers) }
    requires work_value { work.old ≡ stores.empty_store plan.now.numbers }
    ensures refusal { refusal_of result ≡ first (calls.withdraw_own store.old (stages.as_pairs pairs.now) entry (whole plan.now)) }
    ensures taken { IfOk result (λ r. r ≡ stages.taken_by (stages.as_pairs pairs.now) (length pairs.now) entry) }
    ensures below { IfOk result (λ r. r.«at» < length pairs.now) }
    ensures store_after { store.new ≡ leaves (refusal_of result) (lists.filed_on (whole plan.now) (stores.empty_store plan.now.numbers) (lists.without (stages.as_pairs pairs.now) entry)) store.old }
{
    check_listed(plan, store, work, pairs, entry)?;
    let Some(at) = find(pairs, entry) else {
        return Err(Refusal::Unlisted);
    };
    store.fill(0);
    refile(plan, pairs, entry, store);
    Ok(Taken {
        count: pairs.len(),
        at,
    })
}

// Withdraws an entry: causes 1 2 3 4 5 6 16 7 17. `value` becomes the value withdrawn.
pub fn withdraw_listed(
    lent: &LentPlan,
    store: &mut [u8],
    work: &mut [u8],
    list: &[u16],
    size: usize,
    count: &mut usize,
    entry: usize,
    value: &mut u16,
) -> Result<Taken, Refusal>
    requires { length list.now ≡ 2 * stages.entries_most }
    ensures { stages.WithdrawnListed (given_of lent.now) store.old work.old list.now size count.old entry value.old result store.new work.new count.new value.new }
{
    let listed = *count;
    let own = Own::StoresAndRecords(store.len(), work.len(), size, listed);
    let plan = lent.admit(own)?;
    let pairs = first_pairs(list, listed);
    work.fill(0);
    let taken = withdraw_sound(&plan, store, work, pairs, entry);
    work.fill(0);
    let taken = taken?;
    *value = pairs[taken.at][1];
    *count = listed - 1;
    Ok(taken)
}
