// The calls of the engine, their answers, and the faults that refuse them.
#![tactic(auto)]

mod call;
mod faults;

pub use call::{Answer, Call, CommitKind, Image};
pub use faults::{EngineFault, Refusal};
