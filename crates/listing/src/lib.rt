// The printed program: the worst norm, decimal numbers, and the listing.
//
// A host or a program calls `worst_norm`, which takes any numbers and bytes. Crates above call `worst` and `print_listing`, which take
// the numbers of a checked plan and its parts, and `print_refusal`. Stands on `program`, `plan`, `field` and `lists`. Renders 01, "Worst norm", with 02, C-14, and of "The
// filing program" what it prints.
#![tactic(auto)]

mod norm;
mod printer;
mod printing;

pub use norm::{worst, worst_norm};
pub use printing::{print_listing, print_refusal};
