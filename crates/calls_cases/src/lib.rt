// Theorems only: document 01's cases, its refusals and points that it leaves to be read closely, by evaluation.
#![tactic(auto)]
