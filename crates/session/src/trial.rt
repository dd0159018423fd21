// The record of the trial.
ghost use Rattle.std.specs.Prelude.{◌≡◌, ◌≤◌, ◌≢◌, None};

use crate::session::Session;

// A confirmed commit that waits for its confirmation: the session that owns it, its persist number and the seconds left.
// Nobody owns it once its owner is closed.
#[derive(Clone, Copy)]
pub(crate) struct Waiting {
    pub(crate) owner: Option<Session>,
    pub(crate) persist: u32,
    pub(crate) seconds: u32,
    ghost least: { 1 ≤ seconds },
    ghost most: { seconds ≤ 86400 },
    ghost bound: { owner ≡ None → persist ≢ 0 },
}

// The confirmed commit that waits, if one does.
#[derive(Clone, Copy)]
pub struct Trial(pub(crate) Option<Waiting>);
