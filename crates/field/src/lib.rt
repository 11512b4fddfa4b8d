// Residues modulo an odd prime up to 251, and rows of them.
//
// The 53 primes and the search for one; inverses; the multiply-and-reduce cell; over it the row operations that plans and
// stores are made of; and whether bytes are all 0, which the store test asks. Stands on `lists`. Renders 01, "The plan" (the primes,
// residues) and "The written program" (tables m and m+1).
#![tactic(auto)]

mod primes;
mod residues;
mod rows;
mod zeros;

pub use primes::is_odd_prime;
pub use residues::{cell, inverse, reciprocal};
pub use rows::{
    Total, accumulate, add_multiple, all_below, dot, pour, raise, raise_row, reduce, set_multiple,
};
pub use zeros::all_zero;
