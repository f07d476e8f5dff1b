// What the bytes of a state, a cursor, a log and a list stand for, and the calls over them: each decodes what it reads, makes the call of
// crate lent, and writes back what that changed. include/zuntjev.h has the layout of the bytes; crate host exports the calls to C.
#![tactic(auto)]

mod build;
mod bytes;
mod changes;
pub mod check;
mod codes;
mod decode;
mod fetch;
mod initialize;
mod numbers;
pub mod on_bytes;
mod page;
mod run;
mod store;
