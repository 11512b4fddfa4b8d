// The worst norm of a plan's weights and coefficients.
ghost use Rattle.std.specs.Prelude.{◌≡◌, ◌+◌, ◌*◌, ◌≤◌, ◌<◌, length};
ghost use Rattle.lists.specs.Places.{largest};
ghost use Rattle.field.specs.Residues.{Residues};
ghost use Rattle.plan.specs.Numbers.{Within, variables, columns};
ghost use Rattle.plan.specs.Lending.{given_of};
ghost use Rattle.plan.specs.Parts.{link_start};
ghost use Rattle.listing.specs.Norm as specs;

use plan::{LentPlan, Own, Plan, Refusal};

// A weight by its short side, the smaller of w and p - w. A weight above the middle counts as w - p, which has the square of p - w.
fn short_side(w: u8, p: u8) -> u8
    requires { w < p }
    ensures { result ≡ specs.short p w }
{
    w.min(p - w)
}

// The sum of the squares of a row's weights, each by its short side.
fn squares(row: &[u8], p: u8) -> usize
    requires few { length row.now ≤ 64 }
    requires residues { Residues p row.now }
    ensures { result ≡ specs.squares p row.now 0 (length row.now) }
{
    let mut total: u32 = 0;
    for w in row {
        let short = short_side(*w, p) as u32;
        total += short * short;
    }
    total as usize
}

// The largest over the link rows: `begin` is where link k's weights begin.
fn links_norm(plan: Plan, weights: &[u8]) -> usize
    requires within { Within plan }
    requires weights_len { (length weights.now ≡ link_start plan plan.m) × (Residues plan.p weights.now) }
    ensures { result ≡ largest (λ k. specs.squares plan.p weights.now (link_start plan k) (plan.n + k)) plan.m }
{
    let mut top: usize = 0;
    let mut begin: usize = 0;
    for k in 0..plan.m {
        let end = begin + (plan.n + k);
        top = top.max(squares(&weights[begin..end], plan.p));
        begin = end;
    }
    top
}

// The largest over the first `count` rows of l weights each.
fn rows_norm(ws: &[u8], l: usize, count: usize, p: u8) -> usize
    requires l_bound { l ≤ 64 }
    requires l_in_bounds { (count * l ≤ length ws.now) × (Residues p ws.now) }
    ensures { result ≡ largest (λ b. specs.squares p ws.now (b * l) l) count }
{
    let mut top: usize = 0;
    for b in 0..count {
        let begin = b * l;
        top = top.max(squares(&ws[begin..begin + l], p));
    }
    top
}

// The worst norm of a checked plan with its parts and β as lent. No `CheckedPlan` is asked for: tables and radices may be anything.
pub fn worst(plan: Plan, weights: &[u8], d: &[u8], beta: &[u8]) -> usize
    requires within { Within plan }
    requires weights_len { (length weights.now ≡ link_start plan plan.m) × (Residues plan.p weights.now) }
    requires d_len { (length d.now ≡ plan.t * variables plan) × (Residues plan.p d.now) }
    requires beta_len { (length beta.now ≡ columns plan) × (Residues plan.p beta.now) }
    ensures { result ≡ specs.worst plan weights.now d.now beta.now }
{
    let l = plan.variables();
    let links = links_norm(plan, weights);
    let products = rows_norm(d, l, plan.t, plan.p);
    let last = rows_norm(beta, l, plan.t + 1, plan.p);
    links.max(products.max(last))
}

// The worst norm of the lent plan and β: causes 1 2 3 4 5.
pub fn worst_norm(lent: &LentPlan, beta: &[u8]) -> Result<usize, Refusal>
    ensures { specs.answer_of result ≡ specs.norm_answer (given_of lent.now) beta.now }
{
    let plan = lent.admit(Own::Row(beta.len()))?;
    if !field::all_below(beta, plan.numbers.p) {
        return Err(Refusal::Residue);
    }
    Ok(worst(plan.numbers, plan.weights, plan.products, beta))
}
