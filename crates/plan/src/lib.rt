// Plans: their limits, the check of their numbers and lent parts, and the row of an entry.
//
// A host or a program calls `check` and `row`, which take any numbers and bytes. Each call of a crate above is lent a `LentPlan` and begins with
// its `admit`, which checks the plan as lent and the lengths of the call's own parts, and answers a `CheckedPlan` or the `Refusal`; then the call
// goes on with the methods of the checked plan. `Plan::new` without radices is for a plan whose parts are still to come, as in a text;
// `check_radices` then tests these. Stands on `field` and `lists`. Renders 01, "The plan", "From entry to row" and, of "Turned down", the number
// order and causes 1 to 5 and 7; 02, C-11; and Equation 1 of 003.
#![tactic(auto)]

mod admission;
mod calls;
mod lending;
mod numbers;
mod parts;
mod radices;
mod refusal;
mod rows;

pub use admission::{Own, store_size};
pub use calls::{check, row};
pub use lending::{CheckedPlan, LentPlan};
pub use numbers::Plan;
pub use radices::check_radices;
pub use refusal::{Refusal, number_of};
