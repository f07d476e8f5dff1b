// Definitions and theorems only: the conditions of the order.
#![tactic(auto)]
