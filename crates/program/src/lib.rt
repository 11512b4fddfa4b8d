// Programs of sums and bootstraps: the writer, the check of a writing, and the run.
//
// A host or a program calls `check_writing`, `write` and `run`, which take any numbers and lists; `write` hands back a part of the
// lent slice, and `write_into` says what the whole slice holds. Crates above call `put_program`, which takes the numbers of a checked plan
// and its parts, `step_count`, and `steps_buffer` for an array to write in. Stands on `plan`, `field` and `lists`. Renders 01, "The written
// program", "Running it" and, of "Turned down", causes 10 to 12; 02, C-11; and Algorithms 1 to 3 of 003. Demand 2 is in proofs/.
#![tactic(auto)]

mod buffer;
mod calls;
mod running;
mod writing;

pub use buffer::steps_buffer;
pub use calls::{check_writing, run, write, write_into};
pub use running::Ran;
pub use writing::{put_program, step_count};
