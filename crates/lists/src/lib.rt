#![tactic(auto)]

// Sums, lists made of functions, and tests over places: the vocabulary of every specification above, with its laws.
//
// The crate has no function. specs/ has the definitions that contracts cite, proofs/ the laws that proofs cite. Stands on the standard
// library alone. Renders no document: 01 and 003 say "summed", "the largest" and "in order", and these are the words for it.
