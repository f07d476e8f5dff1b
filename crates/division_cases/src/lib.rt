// Theorems only: document 01's cases, the analysis alone, by evaluation.
#![tactic(auto)]
