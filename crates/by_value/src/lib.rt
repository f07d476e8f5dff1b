// The calls on the state by value, each a shell over the call on lent arrays: it lends the state's parts and puts the state together again.
#![tactic(auto)]

pub mod after;
pub mod calc_reason;
pub mod check;
pub mod initialize;
pub mod lending;
pub mod page;
pub mod propagate;
pub mod run;
pub mod undo;
