// What the filing program prints: a listing or a refusal.
ghost use Rattle.std.specs.Prelude.{◌≡◌, ℕ, ◌+◌, ◌*◌, ◌/◌, ◌≤◌, ◌<◌, length};
ghost use Rattle.lists.specs.Places as places;
ghost use Rattle.field.specs.Residues.{Residues};
ghost use Rattle.plan.specs.Numbers.{Within, variables, columns};
ghost use Rattle.plan.specs.Parts.{link_start};
ghost use Rattle.program.specs.Layout.{layout};
ghost use Rattle.listing.specs.Printed as specs;

use crate::norm::worst;
use crate::printer::Printer;
use plan::Plan;

// The listing of a checked plan with its parts, β and steps as lent, at the front of `out`. Answers its length. No `CheckedPlan`
// is asked for: tables and radices may be anything.
pub fn print_listing(
    plan: Plan,
    weights: &[u8],
    d: &[u8],
    beta: &[u8],
    steps: &[u16],
    out: &mut [u8],
) -> usize
    requires within { Within plan }
    requires weights_len { (length weights.now ≡ link_start plan plan.m) × (Residues plan.p weights.now) }
    requires d_len { (length d.now ≡ plan.t * variables plan) × (Residues plan.p d.now) }
    requires beta_len { (length beta.now ≡ columns plan) × (Residues plan.p beta.now) }
    requires steps_value { steps.now ≡ layout plan weights.now d.now beta.now }
    requires in_bounds { 131072 ≤ length out.old }
    ensures out_after { out.new ≡ places.placed out.old 0 (specs.listing plan weights.now d.now beta.now) }
    ensures value { result ≡ length (specs.listing plan weights.now d.now beta.now) }
{
    let bootstraps = plan.m + 2 * plan.t;
    let count = steps.len() / 4;
    let norm = worst(plan, weights, d, beta);
    let mut printer = Printer { out, at: 0 };
    printer.bytes(b"bootstraps steps worst\n");
    printer.line(&[bootstraps, count, norm]);
    printer.bytes(b"kind to from by\n");
    printer.steps(steps);
    printer.at
}

// A refusal by its cause and the line that met it, at the front of `out`. Answers its length. The cause is a
// number, and any is printed: a `Refusal` would ask more.
pub fn print_refusal(cause: u8, line: usize, out: &mut [u8]) -> usize
    requires { 64 ≤ length out.old }
    ensures out_after { out.new ≡ places.placed out.old 0 (specs.refused cause line) }
    ensures value { result ≡ length (specs.refused cause line) }
{
    let mut printer = Printer { out, at: 0 };
    printer.bytes(b"refusal line\n");
    printer.line(&[cause as usize, line]);
    printer.at
}
