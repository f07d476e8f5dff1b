// Definitions and theorems only: the calls of crate graph_division are those of crate calls.
#![tactic(auto)]
