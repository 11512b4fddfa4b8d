// The moves of a store from the layout before to the new one and back.
//
// A host calls `to_half` and `to_full`, which take any numbers and bytes. Stands on `store`, for the test of reduced form, on `plan` and on `field`.
// Renders 02, C-16, but for the layout, which is in `store`; that a move loses nothing and changes no reply is in `laws`.
#![tactic(auto)]

mod calls;
mod moving;
mod reduced;

pub use calls::{to_full, to_half};
