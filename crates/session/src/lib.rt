// Sessions, locks, and the trial: a confirmed commit that waits for its confirmation.
#![tactic(auto)]

mod event;
mod laws;
mod locks;
mod numbers;
mod pending;
mod session;
mod sessions;
mod trial;

pub use event::{Event, Outcome, Start};
pub use laws::{always, close_takes_its_own, equal_by_number, trials_run_out};
pub use numbers::{Datastore, UnknownDatastore, UnknownSession};
pub use session::Session;
pub use sessions::Sessions;
pub use trial::Trial;
