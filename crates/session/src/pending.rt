// What the trial's record says, and whom the trial hinders.
ghost use Rattle.session.specs.Meaning.{trial_of};
ghost use Rattle.session.specs.Numbers.{number_of, who};
ghost use Rattle.session.specs.Trials.{bound_elsewhere, idle, is_pending, owned_elsewhere, persist_differs};
ghost use Rattle.std.specs.Prelude.{◌≡◌};

use crate::session::Session;
use crate::trial::Trial;

impl Trial {
    // No trial.
    pub fn idle() -> Self
        ensures { trial_of result ≡ idle }
    {
        Trial(None)
    }

    pub fn is_pending(&self) -> bool
        ensures { result ≡ is_pending (trial_of self.now) }
    {
        self.0.is_some()
    }

    // The session that owns the trial.
    pub fn owner(&self) -> Option<Session>
        ensures { who result ≡ (trial_of self.now).owner }
    {
        self.0?.owner
    }

    // The trial's persist number; 0 without a trial, as it is told.
    pub fn persist(&self) -> u32
        ensures { result ≡ (trial_of self.now).persist }
    {
        self.0.map_or(0, |waiting| waiting.persist)
    }

    // The seconds left; 0 without a trial, as they are told.
    pub fn seconds(&self) -> u32
        ensures { result ≡ (trial_of self.now).seconds }
    {
        self.0.map_or(0, |waiting| waiting.seconds)
    }

    // There is a trial, and another session or nobody owns it.
    pub fn is_owned_elsewhere(&self, session: Session) -> bool
        ensures { result ≡ owned_elsewhere (trial_of self.now) (number_of session) }
    {
        self.is_pending() && self.owner() != Some(session)
    }

    // There is a trial with persist number 0, and it is another session's.
    pub fn is_bound_elsewhere(&self, session: Session) -> bool
        ensures { result ≡ bound_elsewhere (trial_of self.now) (number_of session) }
    {
        self.is_owned_elsewhere(session) && self.persist() == 0
    }

    // The persist number given is not the trial's, or without a trial not 0.
    pub fn persist_differs(&self, given: u32) -> bool
        ensures { result ≡ persist_differs (trial_of self.now) given }
    {
        given != self.persist()
    }
}
