// Definitions and theorems only: the bytes of a whole session, and document 01's cases by their bytes.
#![tactic(auto)]
