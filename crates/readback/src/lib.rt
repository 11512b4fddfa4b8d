// Reading a program back: the coefficients from a list of steps, or from a printed listing.
//
// A host calls `read_steps` or `read_listing`, which take any numbers and bytes; `Unread` says why a listing is not read. The coefficients
// are read where the writer writes them, written again and compared, so that nothing here repeats the writer. Stands on `lines`, `listing`,
// `program`, `plan`, `field` and `lists`.
// Renders 02, C-15, with causes 13 and 15.
#![tactic(auto)]

mod calls;
mod recovery;
mod scanning;
mod unread;

pub use calls::{read_listing, read_steps};
pub use unread::Unread;
