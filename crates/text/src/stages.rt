// The stages of a text and the judgement of a line at each: which line is to come, and how much of the plan is read.
ghost use Rattle.std.specs.Prelude.{◌≡◌, List, ℕ, ◌+◌, ◌*◌, ◌≤◌, length, IfOk};
ghost use Rattle.lists.specs.Places.{placed};
ghost use Rattle.plan.specs.Causes.{first, leaves, refusal_of};
ghost use Rattle.lines.specs.Lines.{numbers};
ghost use Rattle.text.specs.Meaning as meaning;
ghost use Rattle.text.specs.Progress.{read_of, place_of, judged_of, FilledTo, Fits};

use crate::buffers::numbers_buffer;
use crate::reading::{read_below, read_radices};
use lines::read_line;
use plan::{Plan, Refusal};

// A plan as far as it is read: its numbers, and how many link weights, table values and product weights stand in their buffers.
#[derive(Clone, Copy)]
pub struct Filled {
    pub plan: Plan,
    pub weights: usize,
    pub tables: usize,
    pub products: usize,
}

// The line to come. A link's or product's number stands behind what is filled. How much may be filled goes by the stage
// and its number, so `Fits` is a clause: a variant has no ghost field.
#[derive(Clone, Copy)]
pub enum Stage {
    Names,
    Header,
    Radices(Plan),
    Weights(Filled, usize),
    Table(Filled, usize),
    Product(Filled, usize),
    EntryNames(Filled),
    Entries(Filled),
}

// The stage after j of the products.
fn after_products(filled: Filled, j: usize) -> Stage
    requires filled_to { FilledTo filled 4096 16384 (64 * j) }
    requires count { j ≤ 32 }
    ensures fits_after { Fits result }
    ensures place { (R w T d S : List ℕ) → place_of result R w T d S ≡ meaning.after_products (read_of filled R w T d) j }
{
    if j < filled.plan.t {
        return Stage::Product(filled, j);
    }
    Stage::EntryNames(filled)
}

// The stage after k of the links.
fn after_links(filled: Filled, k: usize) -> Stage
    requires filled_to { FilledTo filled (64 * k) (251 * k) 0 }
    requires count { k ≤ 63 }
    ensures fits_after { Fits result }
    ensures place { (R w T d S : List ℕ) → place_of result R w T d S ≡ meaning.after_links (read_of filled R w T d) k }
{
    if k < filled.plan.m {
        return Stage::Weights(filled, k);
    }
    after_products(filled, 0)
}

// The first names line.
pub fn names_line(line: &[u8]) -> Result<Stage, Refusal>
    ensures fits_after { IfOk result Fits }
    ensures judgement { (R w T d S : List ℕ) → judged_of result R w T d S ≡ meaning.judged meaning.names line.now }
{
    if line != b"p s n links products".as_slice() {
        return Err(Refusal::Line);
    }
    Ok(Stage::Header)
}

// The values line: 13, causes 1 to 3 of its numbers, then 14.
pub fn header_line(line: &[u8]) -> Result<Stage, Refusal>
    ensures fits_after { IfOk result Fits }
    ensures judgement { (R w T d S : List ℕ) → judged_of result R w T d S ≡ meaning.judged meaning.header line.now }
{
    let mut v = [0usize; 5];
    if !read_line(line, 5, &mut v) {
        return Err(Refusal::Line);
    }
    let plan = Plan::new(v[0], v[1], v[2], v[3], v[4], b"")?;
    if 360 < plan.columns() {
        return Err(Refusal::Columns);
    }
    Ok(Stage::Radices(plan))
}

// The radices line: 13, 2, then 3.
pub fn radices_line(plan: Plan, line: &[u8], radices: &mut [u8]) -> Result<Stage, Refusal>
    requires fits { Fits (Stage.Radices plan) }
    requires in_bounds { 64 ≤ length radices.old }
    ensures fits_after { IfOk result Fits }
    ensures judgement { (w T d S : List ℕ) → judged_of result radices.new w T d S ≡ meaning.judged (meaning.radices plan) line.now }
{
    let mut read = numbers_buffer();
    let n = plan.n;
    read_radices(line, plan.p, &mut read[..n], &mut radices[..n])?;
    let filled = Filled {
        plan,
        weights: 0,
        tables: 0,
        products: 0,
    };
    Ok(after_links(filled, 0))
}

// A line of `count` residues into a buffer, from place `from` on: 13 or 5. A refusal leaves the buffer as it was.
fn part_line(
    line: &[u8],
    p: u8,
    from: usize,
    count: usize,
    buffer: &mut [u8],
) -> Result<(), Refusal>
    requires { (from + count ≤ length buffer.old) × (count ≤ 251) }
    ensures refusal { refusal_of result ≡ first (meaning.line_causes count p line.now) }
    ensures buffer_after { buffer.new ≡ leaves (refusal_of result) (placed buffer.old from (numbers line.now)) buffer.old }
{
    let mut read = numbers_buffer();
    let end = from + count;
    read_below(
        line,
        usize::from(p),
        Refusal::Residue,
        &mut read[..count],
        &mut buffer[from..end],
    )
}

// A line of link weights.
pub fn weights_line(
    filled: Filled,
    k: usize,
    line: &[u8],
    weights: &mut [u8],
) -> Result<Stage, Refusal>
    requires fits { Fits (Stage.Weights filled k) }
    requires in_bounds { 4096 ≤ length weights.old }
    ensures fits_after { IfOk result Fits }
    ensures judgement { (R T d S : List ℕ) → judged_of result R weights.new T d S ≡ meaning.judged (meaning.weights (read_of filled R weights.old T d) k) line.now }
{
    let count = filled.plan.n + k;
    part_line(line, filled.plan.p, filled.weights, count, weights)?;
    let more = Filled {
        weights: filled.weights + count,
        ..filled
    };
    Ok(Stage::Table(more, k))
}

// A line with a link's table.
pub fn table_line(
    filled: Filled,
    k: usize,
    line: &[u8],
    tables: &mut [u8],
) -> Result<Stage, Refusal>
    requires fits { Fits (Stage.Table filled k) }
    requires in_bounds { 16384 ≤ length tables.old }
    ensures fits_after { IfOk result Fits }
    ensures judgement { (R w d S : List ℕ) → judged_of result R w tables.new d S ≡ meaning.judged (meaning.table (read_of filled R w tables.old d) k) line.now }
{
    let count = filled.plan.p as usize;
    part_line(line, filled.plan.p, filled.tables, count, tables)?;
    let more = Filled {
        tables: filled.tables + count,
        ..filled
    };
    Ok(after_links(more, k + 1))
}

// A line of product weights.
pub fn product_line(
    filled: Filled,
    j: usize,
    line: &[u8],
    products: &mut [u8],
) -> Result<Stage, Refusal>
    requires fits { Fits (Stage.Product filled j) }
    requires in_bounds { 2048 ≤ length products.old }
    ensures fits_after { IfOk result Fits }
    ensures judgement { (R w T S : List ℕ) → judged_of result R w T products.new S ≡ meaning.judged (meaning.products (read_of filled R w T products.old) j) line.now }
{
    let count = filled.plan.n + filled.plan.m;
    part_line(line, filled.plan.p, filled.products, count, products)?;
    let more = Filled {
        products: filled.products + count,
        ..filled
    };
    Ok(after_products(more, j + 1))
}
