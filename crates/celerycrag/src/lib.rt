// The library for hosts: every call over the entry points below, with the prefix `celery_`; `celerycrag_c` exports each to C. So a plan comes as
// C hands it over, number by number and part by part.
//
// An answer is 01's number, 0 where the call is accepted; what else an answer carries goes through a lent number, which a refusal leaves
// alone, but for the line that comes with 13 and 15. The two calls with records stand here alone: what they decide is in `ledger`, and `records` has
// what they do to the records. include/celerycrag.h documents each call. Stands on `plan`, `store`, `moves`,
// `general`, `ledger`, `records`, `program`, `listing` and `readback`. Renders 01, "Turned down", for a host: of causes 1 to 13 and 15 to 17 the number returned
// and what is left as it was, in the words of the contracts below.
#![tactic(auto)]

ghost use Rattle.std.specs.Prelude.{◌≡◌, ◌*◌};
ghost use Rattle.plan.specs.Causes.{first, leaves, number_of, refusal_of};
ghost use Rattle.plan.specs.Numbers.{plan, columns, Within};
ghost use Rattle.plan.specs.Parts.{given, check_causes};
ghost use Rattle.plan.specs.Lending.{given_of};
ghost use Rattle.plan.specs.Rows as rows;
ghost use Rattle.store.specs.Calls as stores;
ghost use Rattle.store.specs.Settled as settled;
ghost use Rattle.moves.specs.Moves as moves;
ghost use Rattle.ledger.specs.Calls as ledgers;
ghost use Rattle.ledger.specs.Stages.{put_for, gone_for};
ghost use Rattle.general.specs.Suits as suits;
ghost use Rattle.program.specs.Layout.{step_count};
ghost use Rattle.program.specs.Calls as programs;
ghost use Rattle.listing.specs.Norm as norms;
ghost use Rattle.readback.specs.Recovery as recovery;
ghost use Rattle.readback.specs.Listings as listings;
ghost use Rattle.celerycrag.specs.Numbers as specs;

use ledger::{Placed, Taken};
use plan::{LentPlan, Plan, Refusal};
use records::Record;
use store::{Filed, Settled};

// The plan that a call is lent, in one piece.
fn lent<'a>(
    p: usize,
    s: usize,
    n: usize,
    m: usize,
    t: usize,
    radices: &'a [u8],
    weights: &'a [u8],
    tables: &'a [u8],
    d: &'a [u8],
) -> LentPlan<'a>
    ensures { given_of result ≡ given p s n m t radices.now weights.now tables.now d.now }
{
    LentPlan {
        p,
        s,
        n,
        m,
        t,
        radices,
        weights,
        tables,
        products: d,
    }
}

// The numbers of a plan that is accepted, so that p and s fit in a byte.
fn accepted(lent: &LentPlan) -> Plan
    requires { Within (given_of lent.now).numbers }
    ensures value { result ≡ (given_of lent.now).numbers }
    ensures within { Within result }
{
    Plan {
        p: lent.p as u8,
        s: lent.s as u8,
        n: lent.n,
        m: lent.m,
        t: lent.t,
    }
}

// What filing leaves to do of the records, and its number.
fn add_record(records: &mut [Record], placed: Result<Placed, Refusal>) -> u8
    ensures number { result ≡ refusal_of placed }
    ensures records_after { records.new ≡ put_for records.old placed }
{
    match placed {
        Ok(placed) => {
            if let Some(at) = placed.at {
                records::put(records, at, placed.entry, placed.value);
            }
            0
        }
        Err(refusal) => refusal.number(),
    }
}

// What withdrawing leaves to do of the records, and its number.
fn remove_record(records: &mut [Record], taken: Result<Taken, Refusal>) -> u8
    ensures number { result ≡ refusal_of taken }
    ensures records_after { records.new ≡ gone_for records.old taken }
{
    match taken {
        Ok(taken) => {
            records::remove_at(records, taken.count, taken.at);
            0
        }
        Err(refusal) => refusal.number(),
    }
}

// Checks a plan: causes 1 2 3 4 5.
pub fn celery_check(
    p: usize,
    s: usize,
    n: usize,
    m: usize,
    t: usize,
    radices: &[u8],
    weights: &[u8],
    tables: &[u8],
    d: &[u8],
) -> u8
    ensures { result ≡ first (check_causes (given p s n m t radices.now weights.now tables.now d.now)) }
{
    let lent = lent(p, s, n, m, t, radices, weights, tables, d);
    plan::number_of(plan::check(&lent))
}

// Fills `row`, of exactly C bytes, with row `entry`: causes 1 2 3 4 5 7.
pub fn celery_row(
    p: usize,
    s: usize,
    n: usize,
    m: usize,
    t: usize,
    radices: &[u8],
    weights: &[u8],
    tables: &[u8],
    d: &[u8],
    entry: usize,
    row: &mut [u8],
) -> u8
    ensures r_value { result ≡ first (rows.row_causes (given p s n m t radices.now weights.now tables.now d.now) entry row.old) }
    ensures row_after { row.new ≡ leaves result (rows.row (given p s n m t radices.now weights.now tables.now d.now) entry) row.old }
{
    let lent = lent(p, s, n, m, t, radices, weights, tables, d);
    plan::number_of(plan::row(&lent, entry, row))
}

// Tests a store: causes 1 2 3 4 5 6.
pub fn celery_test(
    p: usize,
    s: usize,
    n: usize,
    m: usize,
    t: usize,
    radices: &[u8],
    weights: &[u8],
    tables: &[u8],
    d: &[u8],
    store: &[u8],
) -> u8
    ensures { result ≡ first (stores.test_causes (given p s n m t radices.now weights.now tables.now d.now) store.now) }
{
    let lent = lent(p, s, n, m, t, radices, weights, tables, d);
    plan::number_of(store::test(&lent, store))
}

// Files an entry with its value: causes 1 to 9. `column` becomes the pivot column where the entry is new, and C, which is no
// column, where the store implied it.
pub fn celery_file(
    p: usize,
    s: usize,
    n: usize,
    m: usize,
    t: usize,
    radices: &[u8],
    weights: &[u8],
    tables: &[u8],
    d: &[u8],
    store: &mut [u8],
    entry: usize,
    value: usize,
    column: &mut usize,
) -> u8
    ensures r_value { result ≡ number_of (stores.file_answer (given p s n m t radices.now weights.now tables.now d.now) store.old entry value) }
    ensures store_after { store.new ≡ stores.file_store (given p s n m t radices.now weights.now tables.now d.now) store.old entry value }
    ensures column_after { column.new ≡ stores.column_of (stores.file_answer (given p s n m t radices.now weights.now tables.now d.now) store.old entry value) (columns (plan p s n m t)) column.old }
{
    let lent = lent(p, s, n, m, t, radices, weights, tables, d);
    match store::file(&lent, store, entry, value) {
        Ok(filed) => {
            *column = match filed {
                Filed::New(c) => c,
                Filed::Implied => accepted(&lent).columns(),
            };
            0
        }
        Err(refusal) => refusal.number(),
    }
}

// Files an entry with its value, beside the records: causes 1 2 3 4 5 6 16 7 8 9. An entry that is not listed joins the records. `column` as of
// `celery_file`; the work store is all zeros after a call that passes cause 5.
pub fn celery_file_recorded(
    p: usize,
    s: usize,
    n: usize,
    m: usize,
    t: usize,
    radices: &[u8],
    weights: &[u8],
    tables: &[u8],
    d: &[u8],
    store: &mut [u8],
    work: &mut [u8],
    records: &mut [Record],
    count: &mut usize,
    entry: usize,
    value: usize,
    column: &mut usize,
) -> u8
    ensures { (result ≡ number_of (ledgers.record_answer (given p s n m t radices.now weights.now tables.now d.now) (ledgers.filled store.old records.old count.old) work.old entry value)) × (ledgers.filled store.new records.new count.new ≡ ledgers.record_after (given p s n m t radices.now weights.now tables.now d.now) (ledgers.filled store.old records.old count.old) work.old entry value) × (work.new ≡ ledgers.work_after (given p s n m t radices.now weights.now tables.now d.now) (ledgers.own_of (ledgers.filled store.old records.old count.old) work.old) work.old) × (column.new ≡ stores.column_of (ledgers.record_answer (given p s n m t radices.now weights.now tables.now d.now) (ledgers.filled store.old records.old count.old) work.old entry value) (columns (plan p s n m t)) column.old) }
{
    let mut list = ledger::list_buffer();
    let size = records::unpack(&mut list, &*records);
    let lent = lent(p, s, n, m, t, radices, weights, tables, d);
    let placed = ledger::file_listed(&lent, store, work, &list, size, count, entry, value, column);
    add_record(records, placed)
}

// Withdraws an entry: causes 1 2 3 4 5 6 16 7 17. Its record goes, and the store is that of the records left. `value` becomes the value
// withdrawn; the work store is all zeros after a call that passes cause 5.
pub fn celery_withdraw(
    p: usize,
    s: usize,
    n: usize,
    m: usize,
    t: usize,
    radices: &[u8],
    weights: &[u8],
    tables: &[u8],
    d: &[u8],
    store: &mut [u8],
    work: &mut [u8],
    records: &mut [Record],
    count: &mut usize,
    entry: usize,
    value: &mut u16,
) -> u8
    ensures { (result ≡ number_of (ledgers.withdraw_answer (given p s n m t radices.now weights.now tables.now d.now) (ledgers.filled store.old records.old count.old) work.old entry)) × (ledgers.filled store.new records.new count.new ≡ ledgers.withdraw_after (given p s n m t radices.now weights.now tables.now d.now) (ledgers.filled store.old records.old count.old) work.old entry) × (work.new ≡ ledgers.work_after (given p s n m t radices.now weights.now tables.now d.now) (ledgers.own_of (ledgers.filled store.old records.old count.old) work.old) work.old) × (value.new ≡ specs.value_of (ledgers.withdraw_answer (given p s n m t radices.now weights.now tables.now d.now) (ledgers.filled store.old records.old count.old) work.old entry) 0 value.old) }
{
    let mut list = ledger::list_buffer();
    let size = records::unpack(&mut list, &*records);
    let lent = lent(p, s, n, m, t, radices, weights, tables, d);
    let taken = ledger::withdraw_listed(&lent, store, work, &list, size, count, entry, value);
    remove_record(records, taken)
}

// How an entry stands on a store: causes 1 2 3 4 5 6 7. Forced, `residue` becomes the residue and `column` C, which is no column. Free,
// `column` becomes the column and `residue` p, which is no residue.
pub fn celery_settle(
    p: usize,
    s: usize,
    n: usize,
    m: usize,
    t: usize,
    radices: &[u8],
    weights: &[u8],
    tables: &[u8],
    d: &[u8],
    store: &[u8],
    entry: usize,
    residue: &mut u8,
    column: &mut usize,
) -> u8
    ensures r_value { result ≡ number_of (settled.settle_answer (given p s n m t radices.now weights.now tables.now d.now) store.now entry) }
    ensures residue_after { residue.new ≡ specs.case_of (settled.settle_answer (given p s n m t radices.now weights.now tables.now d.now) store.now entry) 0 p residue.old }
    ensures column_after { column.new ≡ specs.case_of (settled.settle_answer (given p s n m t radices.now weights.now tables.now d.now) store.now entry) 1 (columns (plan p s n m t)) column.old }
{
    let lent = lent(p, s, n, m, t, radices, weights, tables, d);
    match store::settle(&lent, store, entry) {
        Ok(settled) => {
            let plan = accepted(&lent);
            (*residue, *column) = match settled {
                Settled::Forced(v) => (v, plan.columns()),
                Settled::Free(c) => (plan.p, c),
            };
            0
        }
        Err(refusal) => refusal.number(),
    }
}

// Reads the coefficients off a store into `beta`, of exactly C bytes: causes 1 2 3 4 5 6.
pub fn celery_coefficients(
    p: usize,
    s: usize,
    n: usize,
    m: usize,
    t: usize,
    radices: &[u8],
    weights: &[u8],
    tables: &[u8],
    d: &[u8],
    store: &[u8],
    beta: &mut [u8],
) -> u8
    ensures r_value { result ≡ first (stores.coefficients_causes (given p s n m t radices.now weights.now tables.now d.now) store.now beta.old) }
    ensures beta_after { beta.new ≡ leaves result (stores.coefficients (columns (plan p s n m t)) store.now) beta.old }
{
    let lent = lent(p, s, n, m, t, radices, weights, tables, d);
    plan::number_of(store::coefficients(&lent, store, beta))
}

// Whether a plan suits every table: causes 1 2 3 4 5. `general` becomes 1 for yes and 0 for no, and the work store is all zeros.
pub fn celery_general(
    p: usize,
    s: usize,
    n: usize,
    m: usize,
    t: usize,
    radices: &[u8],
    weights: &[u8],
    tables: &[u8],
    d: &[u8],
    work: &mut [u8],
    general: &mut u8,
) -> u8
    ensures r_value { result ≡ number_of (suits.general_answer (given p s n m t radices.now weights.now tables.now d.now) work.old) }
    ensures work_after { work.new ≡ suits.general_work (given p s n m t radices.now weights.now tables.now d.now) work.old }
    ensures general_after { general.new ≡ specs.value_of (suits.general_answer (given p s n m t radices.now weights.now tables.now d.now) work.old) 0 general.old }
{
    let lent = lent(p, s, n, m, t, radices, weights, tables, d);
    match general::general(&lent, work) {
        Ok(suits) => {
            *general = u8::from(suits);
            0
        }
        Err(refusal) => refusal.number(),
    }
}

// Moves a store from the layout before, C rows of C + 1 bytes, to the new one: causes 1 2 3 4 5 6.
pub fn celery_to_half(
    p: usize,
    s: usize,
    n: usize,
    m: usize,
    t: usize,
    radices: &[u8],
    weights: &[u8],
    tables: &[u8],
    d: &[u8],
    full: &[u8],
    half: &mut [u8],
) -> u8
    ensures r_value { result ≡ first (moves.to_half_causes (given p s n m t radices.now weights.now tables.now d.now) full.now half.old) }
    ensures half_after { half.new ≡ leaves result (moves.halved (columns (plan p s n m t)) full.now) half.old }
{
    let lent = lent(p, s, n, m, t, radices, weights, tables, d);
    plan::number_of(moves::to_half(&lent, full, half))
}

// Moves a store back to the layout before: causes 1 2 3 4 5 6.
pub fn celery_to_full(
    p: usize,
    s: usize,
    n: usize,
    m: usize,
    t: usize,
    radices: &[u8],
    weights: &[u8],
    tables: &[u8],
    d: &[u8],
    half: &[u8],
    full: &mut [u8],
) -> u8
    ensures r_value { result ≡ first (moves.to_full_causes (given p s n m t radices.now weights.now tables.now d.now) half.now full.old) }
    ensures full_after { full.new ≡ leaves result (moves.widened (columns (plan p s n m t)) half.now) full.old }
{
    let lent = lent(p, s, n, m, t, radices, weights, tables, d);
    plan::number_of(moves::to_full(&lent, half, full))
}

// The number that `celery_write` would answer; nothing is written.
pub fn celery_check_writing(
    p: usize,
    s: usize,
    n: usize,
    m: usize,
    t: usize,
    radices: &[u8],
    weights: &[u8],
    tables: &[u8],
    d: &[u8],
    beta: &[u8],
    steps: &[u16],
) -> u8
    ensures { result ≡ first (programs.write_causes (given p s n m t radices.now weights.now tables.now d.now) beta.now steps.now) }
{
    let lent = lent(p, s, n, m, t, radices, weights, tables, d);
    plan::number_of(program::check_writing(&lent, beta, steps))
}

// Writes the program at the front of `steps`: causes 1 2 3 4 5 10. `written` becomes 4 times the step count.
pub fn celery_write(
    p: usize,
    s: usize,
    n: usize,
    m: usize,
    t: usize,
    radices: &[u8],
    weights: &[u8],
    tables: &[u8],
    d: &[u8],
    beta: &[u8],
    steps: &mut [u16],
    written: &mut usize,
) -> u8
    ensures r_value { result ≡ first (programs.write_causes (given p s n m t radices.now weights.now tables.now d.now) beta.now steps.old) }
    ensures steps_after { steps.new ≡ programs.written result (plan p s n m t) weights.now d.now beta.now steps.old }
    ensures written_after { written.new ≡ specs.length_of result (4 * step_count (plan p s n m t)) written.old }
{
    let lent = lent(p, s, n, m, t, radices, weights, tables, d);
    match program::write_into(&lent, beta, steps) {
        Ok(length) => {
            *written = length;
            0
        }
        Err(refusal) => refusal.number(),
    }
}

// Runs a list of steps on n digits: causes 1 2 3 4 5 11 12. `y` and `bootstraps` become the output and the number of bootstraps.
pub fn celery_run(
    p: usize,
    s: usize,
    n: usize,
    m: usize,
    t: usize,
    radices: &[u8],
    weights: &[u8],
    tables: &[u8],
    d: &[u8],
    steps: &[u16],
    digits: &[u8],
    y: &mut u8,
    bootstraps: &mut usize,
) -> u8
    ensures r_value { result ≡ number_of (programs.run_answer (given p s n m t radices.now weights.now tables.now d.now) steps.now digits.now) }
    ensures y_after { y.new ≡ specs.value_of (programs.run_answer (given p s n m t radices.now weights.now tables.now d.now) steps.now digits.now) 0 y.old }
    ensures bootstraps_after { bootstraps.new ≡ specs.value_of (programs.run_answer (given p s n m t radices.now weights.now tables.now d.now) steps.now digits.now) 1 bootstraps.old }
{
    let lent = lent(p, s, n, m, t, radices, weights, tables, d);
    match program::run(&lent, steps, digits) {
        Ok(ran) => {
            *y = ran.y;
            *bootstraps = ran.bootstraps;
            0
        }
        Err(refusal) => refusal.number(),
    }
}

// The coefficients from a list of steps into `beta`, of exactly C bytes: causes 1 2 3 4 5 15.
pub fn celery_read_steps(
    p: usize,
    s: usize,
    n: usize,
    m: usize,
    t: usize,
    radices: &[u8],
    weights: &[u8],
    tables: &[u8],
    d: &[u8],
    steps: &[u16],
    beta: &mut [u8],
) -> u8
    ensures r_value { result ≡ first (recovery.steps_causes (given p s n m t radices.now weights.now tables.now d.now) steps.now beta.old) }
    ensures beta_after { beta.new ≡ leaves result (recovery.recovered (plan p s n m t) steps.now) beta.old }
{
    let lent = lent(p, s, n, m, t, radices, weights, tables, d);
    plan::number_of(readback::read_steps(&lent, steps, beta))
}

// The coefficients from a listing, a text lent whole, into `beta`, of exactly C bytes: causes 1 2 3 4 5, then 13 and 15, with which `line`
// becomes the line that met them.
pub fn celery_read_listing(
    p: usize,
    s: usize,
    n: usize,
    m: usize,
    t: usize,
    radices: &[u8],
    weights: &[u8],
    tables: &[u8],
    d: &[u8],
    text: &[u8],
    beta: &mut [u8],
    line: &mut usize,
) -> u8
    ensures r_value { result ≡ number_of (listings.listing_answer (given p s n m t radices.now weights.now tables.now d.now) text.now beta.old).0 }
    ensures beta_after { beta.new ≡ listings.listing_left (given p s n m t radices.now weights.now tables.now d.now) text.now beta.old }
    ensures line_after { line.new ≡ specs.line_after (listings.listing_answer (given p s n m t radices.now weights.now tables.now d.now) text.now beta.old).1 line.old }
{
    let lent = lent(p, s, n, m, t, radices, weights, tables, d);
    match readback::read_listing(&lent, text, beta) {
        Ok(()) => 0,
        Err(unread) => {
            if let Some(j) = unread.line {
                *line = j;
            }
            unread.refusal.number()
        }
    }
}

// The worst norm of a plan's weights and coefficients: causes 1 2 3 4 5.
pub fn celery_worst_norm(
    p: usize,
    s: usize,
    n: usize,
    m: usize,
    t: usize,
    radices: &[u8],
    weights: &[u8],
    tables: &[u8],
    d: &[u8],
    beta: &[u8],
    norm: &mut usize,
) -> u8
    ensures r_value { result ≡ number_of (norms.norm_answer (given p s n m t radices.now weights.now tables.now d.now) beta.now) }
    ensures norm_after { norm.new ≡ specs.value_of (norms.norm_answer (given p s n m t radices.now weights.now tables.now d.now) beta.now) 0 norm.old }
{
    let lent = lent(p, s, n, m, t, radices, weights, tables, d);
    match listing::worst_norm(&lent, beta) {
        Ok(x) => {
            *norm = x;
            0
        }
        Err(refusal) => refusal.number(),
    }
}
