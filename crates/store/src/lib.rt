// The standing configuration on any device: written the first time, replaced, and recovered.
//
// The standing configuration is the one that a restart gives. Each call makes exactly the accesses of its plan, up to the end or up
// to the first loss of power; crate `journal` has the plans and their laws. Nothing here allocates.
#![tactic(auto)]

mod accept;
mod access;
mod calls;
mod changed;
mod faults;
mod header;
mod laws;
mod layout;
mod pages;
mod targets;

pub use calls::{format, recover, replace};
pub use faults::StoreFault;
pub use laws::calls_stand;
