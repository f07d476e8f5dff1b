// Definitions and a theorem only: refusal 7, of the log, as document 01 words it.
#![tactic(auto)]
