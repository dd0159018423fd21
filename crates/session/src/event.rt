// What happens to the trial.
ghost use Rattle.session.specs.Meaning.{event_of, pending, trial_of};
ghost use Rattle.session.specs.Numbers.{number_of};
ghost use Rattle.session.specs.Trials.{elapsed, idle, is_pending, left_by, outcome_of, started, trial_after};
ghost use Rattle.std.specs.Prelude.{◌≡◌, if◌then◌else◌, Some};

use crate::session::Session;
use crate::trial::{Trial, Waiting};

// A confirmed commit: the session that makes it, its timeout in seconds and its persist number.
#[derive(Clone, Copy)]
pub struct Start {
    pub owner: Session,
    pub timeout: u32,
    pub persist: u32,
}

// What may happen to the trial.
#[derive(Clone, Copy)]
pub enum Event {
    // A confirmed commit, the first one or a follow-up.
    Started(Start),
    // A plain commit.
    Confirmed,
    Cancelled,
    // So many seconds have passed.
    Elapsed(u32),
    // A session was closed.
    Closed(Session),
}

// What an event means for running: nothing, or running goes back to the standing configuration, or it is confirmed.
#[derive(Clone, Copy, PartialEq, Eq, Debug)]
pub enum Outcome {
    Nothing,
    Reverted,
    Confirmed,
}

impl Start {
    // The trial that a confirmed commit begins: none if the timeout is not 1 to 86,400.
    fn begun(self) -> Option<Waiting>
        ensures { pending result ≡ started idle (number_of self.owner) self.timeout self.persist }
    {
        if !(1..=86_400).contains(&self.timeout) {
            return None;
        }
        Some(Waiting {
            owner: Some(self.owner),
            persist: self.persist,
            seconds: self.timeout,
        })
    }
}

impl Waiting {
    // What is left of it after so many seconds.
    fn elapsed(self, passed: u32) -> Option<Self>
        ensures { pending result ≡ elapsed (pending (Some self)) passed }
    {
        if passed >= self.seconds {
            return None;
        }
        Some(Waiting {
            owner: self.owner,
            persist: self.persist,
            seconds: self.seconds - passed,
        })
    }

    // What is left of it after a session was closed.
    fn left_by(self, session: Session) -> Option<Self>
        ensures { pending result ≡ left_by (pending (Some self)) (number_of session) }
    {
        if self.owner != Some(session) {
            return Some(self);
        }
        if self.persist == 0 {
            return None;
        }
        Some(Waiting {
            owner: None,
            persist: self.persist,
            seconds: self.seconds,
        })
    }
}

impl Trial {
    // What time or a close meant, by the record after it: a trial that waits no longer reverted.
    fn outcome(self) -> Outcome
        ensures { result ≡ (if is_pending (trial_of self) then Outcome.Nothing else Outcome.Reverted) }
    {
        if self.is_pending() {
            Outcome::Nothing
        } else {
            Outcome::Reverted
        }
    }

    // What an event does to the trial, and what it means for running.
    pub fn on(&mut self, event: Event) -> Outcome
        ensures after { trial_of self.new ≡ trial_after (trial_of self.old) (event_of event) }
        ensures outcome { result ≡ outcome_of (trial_of self.old) (event_of event) }
    {
        let (after, outcome) = match (*self, event) {
            (Trial(waiting), Event::Started(start)) => (
                Trial(start.begun().or(waiting)),
                Outcome::Nothing,
            ),
            (Trial(None), _) => (Trial::idle(), Outcome::Nothing),
            (_, Event::Confirmed) => (Trial::idle(), Outcome::Confirmed),
            (_, Event::Cancelled) => (Trial::idle(), Outcome::Reverted),
            (Trial(Some(waiting)), Event::Elapsed(passed)) => {
                let left = Trial(waiting.elapsed(passed));
                (left, left.outcome())
            }
            (Trial(Some(waiting)), Event::Closed(session)) => {
                let left = Trial(waiting.left_by(session));
                (left, left.outcome())
            }
        };
        *self = after;
        outcome
    }
}
