#![tactic(auto)]

// Theorems about the store: no code.
//
// What its rows span, and that it is the one reduced form that spans it (01, "The store"); that moving it between the layouts loses nothing and
// changes no reply (02, C-16); how many filings can be New under a plan (02, C-17, and beyond). The statements of the first are in the
// specs of `store`, those of the second in `moves`, that of the last in specs/Rank. Stands on `moves`, `store` and `plan`. `general` and `demands` cite it; nothing calls it.
