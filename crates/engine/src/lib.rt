// The engine: running, candidate and standing configurations, sessions, locks and the trial, over any device and any validator.
//
// Every call is performed as the rules say, or refused by a number. The standing configuration is the one that a restart gives.
// Nothing here allocates. The numbers of a call are plain, as the caller gives them: each call reads them in the order of its refusals.
#![tactic(auto)]

mod commits;
mod datastores;
mod edits;
mod engine;
mod life;
mod seats;

pub use engine::Engine;
