// The store: reduced form, filing, which outputs are settled, and reading off.
//
// A host or a program calls `test`, `file`, `settle` and `coefficients`, which take any numbers and bytes. `text` calls `read_off` too, and
// `general` and `ledger` call `file_entry`, on a store that they know to be in reduced form; `ledger` and `moves` ask `is_reduced` of one.
// How long a store is, is asked of `store_size`. Stands on `plan` and `field`. Renders 01, "The store" and causes 6 to 9; 02, C-11 to C-13, and the
// layout of C-16, whose moves are in `moves`; the theory of elimination is in proofs/, and what follows from it of rows, moves and ranks in `laws`.
#![tactic(auto)]

mod against;
mod calls;
mod elimination;
mod reduced;
mod settling;

pub use calls::{coefficients, file, settle, test};
pub use elimination::{Filed, file_entry, read_off};
pub use plan::store_size;
pub use reduced::is_reduced;
pub use settling::Settled;
