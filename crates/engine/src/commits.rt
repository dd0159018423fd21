// Commits of both kinds.
ghost use Rattle.calls.specs.Answers.{answered};
ghost use Rattle.calls.specs.declared.call.Call.{Call};
ghost use Rattle.engine.specs.Checks.{CommitChecked, StoresOn};
ghost use Rattle.engine.specs.Performing.{PerformsOn};
ghost use Rattle.engine.specs.Seen.{seen, validator_of};
ghost use Rattle.model.specs.Refusals.{of_kind};
ghost use Rattle.session.specs.Locks.{locked_elsewhere};
ghost use Rattle.session.specs.Numbers.{number_of};
ghost use Rattle.std.specs.Prelude.{◌≡◌, ◌||◌};

use crate::engine::Engine;
use calls::{Call, CommitKind, EngineFault, Refusal};
use device::Device;
use session::{Datastore, Event, Session, Start};
use validate::Validator;

// Timeout and persist number are those of the commit's kind.
fn is_of_kind(kind: CommitKind, timeout: u32, persist: u32) -> bool
    ensures { result ≡ of_kind kind timeout persist }
{
    match kind {
        CommitKind::Plain => timeout == 0 && persist == 0,
        CommitKind::Confirmed => (1..=86_400).contains(&timeout),
    }
}

impl<D: Device, V: Validator> Engine<D, V> {
    // Another session holds the lock of running or of the candidate.
    fn is_locked_elsewhere(&self, session: Session) -> bool
        ensures { result ≡ (locked_elsewhere (seen D.Device.powered self.now).held (number_of session) 1 || locked_elsewhere (seen D.Device.powered self.now).held (number_of session) 2) }
    {
        self.sessions
            .is_locked_elsewhere(session, Datastore::Running)
            || self
                .sessions
                .is_locked_elsewhere(session, Datastore::Candidate)
    }

    // All checks of a commit but the store's: the session that commits, or why it may not. Its numbers stay parameters, as the
    // caller gives them in Call::Commit: in a struct of their own each would be named twice more.
    fn may_commit(
        &self,
        session: u32,
        kind: CommitKind,
        timeout: u32,
        persist: u32,
        id: u32,
    ) -> Result<Session, EngineFault>
        ensures { CommitChecked (V.Validator.verdict (validator_of self.now)) (seen D.Device.powered self.now) session kind timeout persist id result }
    {
        let by = Session::try_from(session)?;
        if !is_of_kind(kind, timeout, persist) {
            return Err(Refusal::CommitNumbers.into());
        }
        self.check_open(by)?;
        if self.is_locked_elsewhere(by) {
            return Err(Refusal::LockedElsewhere.into());
        }
        if self.trial.is_bound_elsewhere(by) {
            return Err(Refusal::TrialBound.into());
        }
        if self.trial.persist_differs(id) {
            return Err(Refusal::PersistDiffers.into());
        }
        self.validator.check(&self.candidate)?;
        Ok(by)
    }

    // Running becomes the candidate and is stored, and a trial ends confirmed.
    fn store(&mut self) -> Result<(), EngineFault>
        ensures { StoresOn D.Device self.old (answered result) self.new }
    {
        store::replace(&mut self.device, &self.standing, &self.candidate)?;
        self.standing = self.candidate;
        self.running = self.candidate;
        self.happen(Event::Confirmed);
        Ok(())
    }

    // A plain commit is stored. A confirmed one begins a trial: running becomes the candidate, and nothing is stored.
    pub(crate) fn commit(
        &mut self,
        session: u32,
        kind: CommitKind,
        timeout: u32,
        persist: u32,
        id: u32,
    ) -> Result<(), EngineFault>
        ensures { PerformsOn D.Device V.Validator self.old (Call.Commit session kind timeout persist id) (answered result) self.new }
    {
        let owner = self.may_commit(session, kind, timeout, persist, id)?;
        match kind {
            CommitKind::Plain => self.store(),
            CommitKind::Confirmed => {
                self.running = self.candidate;
                self.happen(Event::Started(Start {
                    owner,
                    timeout,
                    persist,
                }));
                Ok(())
            }
        }
    }
}
