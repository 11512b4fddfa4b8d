// The entries of a text: the names line that empties the store, and the filing of each entry as it is read.
ghost use Rattle.std.specs.Prelude.{◌≡◌, List, ℕ, ◌≤◌, length, IfOk};
ghost use Rattle.plan.specs.Causes.{first, leaves, refusal_of};
ghost use Rattle.plan.specs.Lending.{given_of};
ghost use Rattle.text.specs.Meaning as meaning;
ghost use Rattle.text.specs.Progress.{read_of, place_of, judged_of, Fits};

use crate::stages::{Filled, Stage};
use lines::read_line;
use plan::{LentPlan, Refusal, store_size};

// The names line of the entries, behind which the store is empty.
pub fn pair_line(filled: Filled, line: &[u8], store: &mut [u8]) -> Result<Stage, Refusal>
    requires fits { Fits (Stage.EntryNames filled) }
    requires in_bounds { 65536 ≤ length store.old }
    ensures fits_after { IfOk result Fits }
    ensures judgement { (R w T d : List ℕ) → judged_of result R w T d store.new ≡ meaning.judged (meaning.entry_names (read_of filled R w T d)) line.now }
{
    if line != b"entry value".as_slice() {
        return Err(Refusal::Line);
    }
    let size = store_size(filled.plan.columns());
    store[..size].fill(0);
    Ok(Stage::Entries(filled))
}

// An entry: 13, then the causes of filing it, or the entry is filed. A refusal leaves the store as it was.
fn entry_line(lent: &LentPlan, line: &[u8], store: &mut [u8]) -> Result<(), Refusal>
    ensures refusal { refusal_of result ≡ first (meaning.entry_causes (given_of lent.now) store.old line.now) }
    ensures store_after { store.new ≡ leaves (refusal_of result) (meaning.entered (given_of lent.now) store.old line.now) store.old }
{
    let mut v = [0usize; 2];
    if !read_line(line, 5, &mut v) {
        return Err(Refusal::Line);
    }
    store::file(lent, store, v[0], v[1])?;
    Ok(())
}

// An entry line, with the plan as it stands in the buffers.
pub fn entries_line(
    filled: Filled,
    line: &[u8],
    radices: &[u8],
    weights: &[u8],
    tables: &[u8],
    products: &[u8],
    store: &mut [u8],
) -> Result<Stage, Refusal>
    requires fits { Fits (Stage.Entries filled) }
    requires parts_room { (64 ≤ length radices.now) × (4096 ≤ length weights.now) × (16384 ≤ length tables.now) × (2048 ≤ length products.now) }
    requires in_bounds { 65536 ≤ length store.old }
    ensures fits_after { IfOk result Fits }
    ensures judgement { judged_of result radices.now weights.now tables.now products.now store.new ≡ meaning.judged (place_of (Stage.Entries filled) radices.now weights.now tables.now products.now store.old) line.now }
{
    let plan = filled.plan;
    let lent = LentPlan {
        p: plan.p as usize,
        s: plan.s as usize,
        n: plan.n,
        m: plan.m,
        t: plan.t,
        radices: &radices[..plan.n],
        weights: &weights[..filled.weights],
        tables: &tables[..filled.tables],
        products: &products[..filled.products],
    };
    let size = store_size(plan.columns());
    entry_line(&lent, line, &mut store[..size])?;
    Ok(Stage::Entries(filled))
}
