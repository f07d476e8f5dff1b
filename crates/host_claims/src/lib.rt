// Definitions and theorems only: the conditions of the order, of the C host's calls on bytes.
#![tactic(auto)]
