// What the programs share: the branch switch, and how the entries of a configuration are printed.
#![tactic(auto)]

mod branch;
mod listed;

pub use branch::{IMAGE, ROWS};
pub use listed::Listed;
