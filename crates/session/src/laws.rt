// What follows from the contracts, in the subject's own words.
ghost use Rattle.session.specs.Equal.{EqualByNumber};
ghost use Rattle.session.specs.Laws.{Always, CloseTakesItsOwn, TrialsRunOut};

use crate::session::Session;

// law: two sessions are equal exactly if their numbers are.
pub fn equal_by_number()
    ensures { EqualByNumber ⟦<Session as PartialEq>⟧.eq }
{}

// law: every lock is held by an open session; a trial has 1 to 86,400 seconds left, and an owner or a persist number.
pub fn always()
    ensures { Always }
{}

// law: a session that was closed holds no lock and owns no trial, also once it is open again; what others have stays.
pub fn close_takes_its_own()
    ensures { CloseTakesItsOwn }
{}

// law: a trial's seconds fall by what passes, and it reverts once, when as many have passed as it had left.
pub fn trials_run_out()
    ensures { TrialsRunOut }
{}
