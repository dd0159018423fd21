// Open sessions and locks in fixed memory.
ghost use Rattle.session.specs.Kept.{holder_open};
ghost use Rattle.std.specs.Prelude.{◌≡◌, true, length};

use crate::session::Session;

// Which sessions are open, session 1 in the first place, and which session holds the lock of each datastore. No heap: a mark for
// each of the eight.
#[derive(Clone, Copy)]
pub struct Sessions {
    pub(crate) open: [bool; 8],
    pub(crate) running: Option<Session>,
    pub(crate) candidate: Option<Session>,
    ghost whole: { length «open» ≡ 8 },
    ghost running_held: { holder_open «open» running ≡ true },
    ghost candidate_held: { holder_open «open» candidate ≡ true },
}
