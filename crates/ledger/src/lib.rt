// Filing and withdrawing with a list of entry records beside the store.
//
// The two calls stand once, in `celerycrag`; all that decides is here, over a copy of the records as a list of numbers, two each: `Told.file-told` and
// `withdraw-told` speak of such a list, and of what is left in the count, the column and the value. Stands on `store` and `plan`, and on `records` for
// what a record is. Renders 02, C-18.
#![tactic(auto)]

mod calls;
mod pairs;
mod refiling;

pub use calls::{Placed, Taken, file_listed, withdraw_listed};
pub use pairs::list_buffer;
