// The C interface: each call of `celerycrag` as an exported function of the same name, with the same clauses.
//
// A static library, since a crate is a library or a static library; nothing is decided here. include/celerycrag.h documents each call. Stands on
// `celerycrag`. Renders what that does.
#![tactic(auto)]

ghost use Rattle.std.specs.Prelude.{◌≡◌, ◌*◌};
ghost use Rattle.plan.specs.Causes.{first, leaves, number_of};
ghost use Rattle.plan.specs.Numbers.{plan, columns};
ghost use Rattle.plan.specs.Parts.{given, check_causes};
ghost use Rattle.plan.specs.Rows as rows;
ghost use Rattle.store.specs.Calls as stores;
ghost use Rattle.store.specs.Settled as settled;
ghost use Rattle.moves.specs.Moves as moves;
ghost use Rattle.ledger.specs.Calls as ledgers;
ghost use Rattle.general.specs.Suits as suits;
ghost use Rattle.program.specs.Layout.{step_count};
ghost use Rattle.program.specs.Calls as programs;
ghost use Rattle.listing.specs.Norm as norms;
ghost use Rattle.readback.specs.Recovery as recovery;
ghost use Rattle.readback.specs.Listings as listings;
ghost use Rattle.celerycrag.specs.Numbers as specs;

use records::Record;

// Checks a plan: causes 1 2 3 4 5.
#[unsafe(no_mangle)]
pub extern "C" fn celery_check(
    p: usize,
    s: usize,
    n: usize,
    m: usize,
    t: usize,
    radices: &[u8],
    weights: &[u8],
    tables: &[u8],
    d: &[u8],
) -> u8
    ensures { result ≡ first (check_causes (given p s n m t radices.now weights.now tables.now d.now)) }
{
    celerycrag::celery_check(p, s, n, m, t, radices, weights, tables, d)
}

// Fills `row`, of exactly C bytes, with row `entry`: causes 1 2 3 4 5 7.
#[unsafe(no_mangle)]
pub extern "C" fn celery_row(
    p: usize,
    s: usize,
    n: usize,
    m: usize,
    t: usize,
    radices: &[u8],
    weights: &[u8],
    tables: &[u8],
    d: &[u8],
    entry: usize,
    row: &mut [u8],
) -> u8
    ensures r_value { result ≡ first (rows.row_causes (given p s n m t radices.now weights.now tables.now d.now) entry row.old) }
    ensures row_after { row.new ≡ leaves result (rows.row (given p s n m t radices.now weights.now tables.now d.now) entry) row.old }
{
    celerycrag::celery_row(p, s, n, m, t, radices, weights, tables, d, entry, row)
}

// Tests a store: causes 1 2 3 4 5 6.
#[unsafe(no_mangle)]
pub extern "C" fn celery_test(
    p: usize,
    s: usize,
    n: usize,
    m: usize,
    t: usize,
    radices: &[u8],
    weights: &[u8],
    tables: &[u8],
    d: &[u8],
    store: &[u8],
) -> u8
    ensures { result ≡ first (stores.test_causes (given p s n m t radices.now weights.now tables.now d.now) store.now) }
{
    celerycrag::celery_test(p, s, n, m, t, radices, weights, tables, d, store)
}

// Files an entry with its value: causes 1 to 9. `column` becomes the pivot column where the entry is new, and C, which is no
// column, where the store implied it.
#[unsafe(no_mangle)]
pub extern "C" fn celery_file(
    p: usize,
    s: usize,
    n: usize,
    m: usize,
    t: usize,
    radices: &[u8],
    weights: &[u8],
    tables: &[u8],
    d: &[u8],
    store: &mut [u8],
    entry: usize,
    value: usize,
    column: &mut usize,
) -> u8
    ensures r_value { result ≡ number_of (stores.file_answer (given p s n m t radices.now weights.now tables.now d.now) store.old entry value) }
    ensures store_after { store.new ≡ stores.file_store (given p s n m t radices.now weights.now tables.now d.now) store.old entry value }
    ensures column_after { column.new ≡ stores.column_of (stores.file_answer (given p s n m t radices.now weights.now tables.now d.now) store.old entry value) (columns (plan p s n m t)) column.old }
{
    celerycrag::celery_file(
        p, s, n, m, t, radices, weights, tables, d, store, entry, value, column,
    )
}

// Files an entry with its value, beside the records: causes 1 2 3 4 5 6 16 7 8 9. An entry that is not listed joins the records. `column` as of
// `celery_file`; the work store is all zeros after a call that passes cause 5.
#[unsafe(no_mangle)]
pub extern "C" fn celery_file_recorded(
    p: usize,
    s: usize,
    n: usize,
    m: usize,
    t: usize,
    radices: &[u8],
    weights: &[u8],
    tables: &[u8],
    d: &[u8],
    store: &mut [u8],
    work: &mut [u8],
    records: &mut [Record],
    count: &mut usize,
    entry: usize,
    value: usize,
    column: &mut usize,
) -> u8
    ensures { (result ≡ number_of (ledgers.record_answer (given p s n m t radices.now weights.now tables.now d.now) (ledgers.filled store.old records.old count.old) work.old entry value)) × (ledgers.filled store.new records.new count.new ≡ ledgers.record_after (given p s n m t radices.now weights.now tables.now d.now) (ledgers.filled store.old records.old count.old) work.old entry value) × (work.new ≡ ledgers.work_after (given p s n m t radices.now weights.now tables.now d.now) (ledgers.own_of (ledgers.filled store.old records.old count.old) work.old) work.old) × (column.new ≡ stores.column_of (ledgers.record_answer (given p s n m t radices.now weights.now tables.now d.now) (ledgers.filled store.old records.old count.old) work.old entry value) (columns (plan p s n m t)) column.old) }
{
    celerycrag::celery_file_recorded(
        p, s, n, m, t, radices, weights, tables, d, store, work, records, count, entry, value,
        column,
    )
}

// Withdraws an entry: causes 1 2 3 4 5 6 16 7 17. Its record goes, and the store is that of the records left. `value` becomes the value
// withdrawn; the work store is all zeros after a call that passes cause 5.
#[unsafe(no_mangle)]
pub extern "C" fn celery_withdraw(
    p: usize,
    s: usize,
    n: usize,
    m: usize,
    t: usize,
    radices: &[u8],
    weights: &[u8],
    tables: &[u8],
    d: &[u8],
    store: &mut [u8],
    work: &mut [u8],
    records: &mut [Record],
    count: &mut usize,
    entry: usize,
    value: &mut u16,
) -> u8
    ensures { (result ≡ number_of (ledgers.withdraw_answer (given p s n m t radices.now weights.now tables.now d.now) (ledgers.filled store.old records.old count.old) work.old entry)) × (ledgers.filled store.new records.new count.new ≡ ledgers.withdraw_after (given p s n m t radices.now weights.now tables.now d.now) (ledgers.filled store.old records.old count.old) work.old entry) × (work.new ≡ ledgers.work_after (given p s n m t radices.now weights.now tables.now d.now) (ledgers.own_of (ledgers.filled store.old records.old count.old) work.old) work.old) × (value.new ≡ specs.value_of (ledgers.withdraw_answer (given p s n m t radices.now weights.now tables.now d.now) (ledgers.filled store.old records.old count.old) work.old entry) 0 value.old) }
{
    celerycrag::celery_withdraw(
        p, s, n, m, t, radices, weights, tables, d, store, work, records, count, entry, value,
    )
}

// How an entry stands on a store: causes 1 2 3 4 5 6 7. Forced, `residue` becomes the residue and `column` C, which is no column. Free,
// `column` becomes the column and `residue` p, which is no residue.
#[unsafe(no_mangle)]
pub extern "C" fn celery_settle(
    p: usize,
    s: usize,
    n: usize,
    m: usize,
    t: usize,
    radices: &[u8],
    weights: &[u8],
    tables: &[u8],
    d: &[u8],
    store: &[u8],
    entry: usize,
    residue: &mut u8,
    column: &mut usize,
) -> u8
    ensures r_value { result ≡ number_of (settled.settle_answer (given p s n m t radices.now weights.now tables.now d.now) store.now entry) }
    ensures residue_after { residue.new ≡ specs.case_of (settled.settle_answer (given p s n m t radices.now weights.now tables.now d.now) store.now entry) 0 p residue.old }
    ensures column_after { column.new ≡ specs.case_of (settled.settle_answer (given p s n m t radices.now weights.now tables.now d.now) store.now entry) 1 (columns (plan p s n m t)) column.old }
{
    celerycrag::celery_settle(
        p, s, n, m, t, radices, weights, tables, d, store, entry, residue, column,
    )
}

// Reads the coefficients off a store into `beta`, of exactly C bytes: causes 1 2 3 4 5 6.
#[unsafe(no_mangle)]
pub extern "C" fn celery_coefficients(
    p: usize,
    s: usize,
    n: usize,
    m: usize,
    t: usize,
    radices: &[u8],
    weights: &[u8],
    tables: &[u8],
    d: &[u8],
    store: &[u8],
    beta: &mut [u8],
) -> u8
    ensures r_value { result ≡ first (stores.coefficients_causes (given p s n m t radices.now weights.now tables.now d.now) store.now beta.old) }
    ensures beta_after { beta.new ≡ leaves result (stores.coefficients (columns (plan p s n m t)) store.now) beta.old }
{
    celerycrag::celery_coefficients(p, s, n, m, t, radices, weights, tables, d, store, beta)
}

// Whether a plan suits every table: causes 1 2 3 4 5. `general` becomes 1 for yes and 0 for no, and the work store is all zeros.
#[unsafe(no_mangle)]
pub extern "C" fn celery_general(
    p: usize,
    s: usize,
    n: usize,
    m: usize,
    t: usize,
    radices: &[u8],
    weights: &[u8],
    tables: &[u8],
    d: &[u8],
    work: &mut [u8],
    general: &mut u8,
) -> u8
    ensures r_value { result ≡ number_of (suits.general_answer (given p s n m t radices.now weights.now tables.now d.now) work.old) }
    ensures work_after { work.new ≡ suits.general_work (given p s n m t radices.now weights.now tables.now d.now) work.old }
    ensures general_after { general.new ≡ specs.value_of (suits.general_answer (given p s n m t radices.now weights.now tables.now d.now) work.old) 0 general.old }
{
    celerycrag::celery_general(p, s, n, m, t, radices, weights, tables, d, work, general)
}

// Moves a store from the layout before, C rows of C + 1 bytes, to the new one: causes 1 2 3 4 5 6.
#[unsafe(no_mangle)]
pub extern "C" fn celery_to_half(
    p: usize,
    s: usize,
    n: usize,
    m: usize,
    t: usize,
    radices: &[u8],
    weights: &[u8],
    tables: &[u8],
    d: &[u8],
    full: &[u8],
    half: &mut [u8],
) -> u8
    ensures r_value { result ≡ first (moves.to_half_causes (given p s n m t radices.now weights.now tables.now d.now) full.now half.old) }
    ensures half_after { half.new ≡ leaves result (moves.halved (columns (plan p s n m t)) full.now) half.old }
{
    celerycrag::celery_to_half(p, s, n, m, t, radices, weights, tables, d, full, half)
}

// Moves a store back to the layout before: causes 1 2 3 4 5 6.
#[unsafe(no_mangle)]
pub extern "C" fn celery_to_full(
    p: usize,
    s: usize,
    n: usize,
    m: usize,
    t: usize,
    radices: &[u8],
    weights: &[u8],
    tables: &[u8],
    d: &[u8],
    half: &[u8],
    full: &mut [u8],
) -> u8
    ensures r_value { result ≡ first (moves.to_full_causes (given p s n m t radices.now weights.now tables.now d.now) half.now full.old) }
    ensures full_after { full.new ≡ leaves result (moves.widened (columns (plan p s n m t)) half.now) full.old }
{
    celerycrag::celery_to_full(p, s, n, m, t, radices, weights, tables, d, half, full)
}

// The number that `celery_write` would answer; nothing is written.
#[unsafe(no_mangle)]
pub extern "C" fn celery_check_writing(
    p: usize,
    s: usize,
    n: usize,
    m: usize,
    t: usize,
    radices: &[u8],
    weights: &[u8],
    tables: &[u8],
    d: &[u8],
    beta: &[u8],
    steps: &[u16],
) -> u8
    ensures { result ≡ first (programs.write_causes (given p s n m t radices.now weights.now tables.now d.now) beta.now steps.now) }
{
    celerycrag::celery_check_writing(p, s, n, m, t, radices, weights, tables, d, beta, steps)
}

// Writes the program at the front of `steps`: causes 1 2 3 4 5 10. `written` becomes 4 times the step count.
#[unsafe(no_mangle)]
pub extern "C" fn celery_write(
    p: usize,
    s: usize,
    n: usize,
    m: usize,
    t: usize,
    radices: &[u8],
    weights: &[u8],
    tables: &[u8],
    d: &[u8],
    beta: &[u8],
    steps: &mut [u16],
    written: &mut usize,
) -> u8
    ensures r_value { result ≡ first (programs.write_causes (given p s n m t radices.now weights.now tables.now d.now) beta.now steps.old) }
    ensures steps_after { steps.new ≡ programs.written result (plan p s n m t) weights.now d.now beta.now steps.old }
    ensures written_after { written.new ≡ specs.length_of result (4 * step_count (plan p s n m t)) written.old }
{
    celerycrag::celery_write(
        p, s, n, m, t, radices, weights, tables, d, beta, steps, written,
    )
}

// Runs a list of steps on n digits: causes 1 2 3 4 5 11 12. `y` and `bootstraps` become the output and the number of bootstraps.
#[unsafe(no_mangle)]
pub extern "C" fn celery_run(
    p: usize,
    s: usize,
    n: usize,
    m: usize,
    t: usize,
    radices: &[u8],
    weights: &[u8],
    tables: &[u8],
    d: &[u8],
    steps: &[u16],
    digits: &[u8],
    y: &mut u8,
    bootstraps: &mut usize,
) -> u8
    ensures r_value { result ≡ number_of (programs.run_answer (given p s n m t radices.now weights.now tables.now d.now) steps.now digits.now) }
    ensures y_after { y.new ≡ specs.value_of (programs.run_answer (given p s n m t radices.now weights.now tables.now d.now) steps.now digits.now) 0 y.old }
    ensures bootstraps_after { bootstraps.new ≡ specs.value_of (programs.run_answer (given p s n m t radices.now weights.now tables.now d.now) steps.now digits.now) 1 bootstraps.old }
{
    celerycrag::celery_run(
        p, s, n, m, t, radices, weights, tables, d, steps, digits, y, bootstraps,
    )
}

// The coefficients from a list of steps into `beta`, of exactly C bytes: causes 1 2 3 4 5 15.
#[unsafe(no_mangle)]
pub extern "C" fn celery_read_steps(
    p: usize,
    s: usize,
    n: usize,
    m: usize,
    t: usize,
    radices: &[u8],
    weights: &[u8],
    tables: &[u8],
    d: &[u8],
    steps: &[u16],
    beta: &mut [u8],
) -> u8
    ensures r_value { result ≡ first (recovery.steps_causes (given p s n m t radices.now weights.now tables.now d.now) steps.now beta.old) }
    ensures beta_after { beta.new ≡ leaves result (recovery.recovered (plan p s n m t) steps.now) beta.old }
{
    celerycrag::celery_read_steps(p, s, n, m, t, radices, weights, tables, d, steps, beta)
}

// The coefficients from a listing, a text lent whole, into `beta`, of exactly C bytes: causes 1 2 3 4 5, then 13 and 15, with which `line`
// becomes the line that met them.
#[unsafe(no_mangle)]
pub extern "C" fn celery_read_listing(
    p: usize,
    s: usize,
    n: usize,
    m: usize,
    t: usize,
    radices: &[u8],
    weights: &[u8],
    tables: &[u8],
    d: &[u8],
    text: &[u8],
    beta: &mut [u8],
    line: &mut usize,
) -> u8
    ensures r_value { result ≡ number_of (listings.listing_answer (given p s n m t radices.now weights.now tables.now d.now) text.now beta.old).0 }
    ensures beta_after { beta.new ≡ listings.listing_left (given p s n m t radices.now weights.now tables.now d.now) text.now beta.old }
    ensures line_after { line.new ≡ specs.line_after (listings.listing_answer (given p s n m t radices.now weights.now tables.now d.now) text.now beta.old).1 line.old }
{
    celerycrag::celery_read_listing(p, s, n, m, t, radices, weights, tables, d, text, beta, line)
}

// The worst norm of a plan's weights and coefficients: causes 1 2 3 4 5.
#[unsafe(no_mangle)]
pub extern "C" fn celery_worst_norm(
    p: usize,
    s: usize,
    n: usize,
    m: usize,
    t: usize,
    radices: &[u8],
    weights: &[u8],
    tables: &[u8],
    d: &[u8],
    beta: &[u8],
    norm: &mut usize,
) -> u8
    ensures r_value { result ≡ number_of (norms.norm_answer (given p s n m t radices.now weights.now tables.now d.now) beta.now) }
    ensures norm_after { norm.new ≡ specs.value_of (norms.norm_answer (given p s n m t radices.now weights.now tables.now d.now) beta.now) 0 norm.old }
{
    celerycrag::celery_worst_norm(p, s, n, m, t, radices, weights, tables, d, beta, norm)
}
