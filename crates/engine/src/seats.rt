// Sessions, locks and the trial.
ghost use Rattle.calls.specs.Answers.{answered};
ghost use Rattle.calls.specs.declared.call.Call.{Call};
ghost use Rattle.engine.specs.Checks.{Happened, open_refusal, refusal_of};
ghost use Rattle.engine.specs.Performing.{PerformsOn};
ghost use Rattle.engine.specs.Seen.{seen};
ghost use Rattle.model.specs.Model.{modified};
ghost use Rattle.session.specs.Meaning.{event_of};
ghost use Rattle.session.specs.Numbers.{datastore_number, number_of};
ghost use Rattle.session.specs.Trials.{is_pending, owned_elsewhere, persist_differs};
ghost use Rattle.std.specs.Prelude.{◌≡◌, ◌&&◌, ◌==◌, if◌then◌else◌, Ok, Err};

use crate::engine::Engine;
use calls::{Call, EngineFault, Refusal};
use device::Device;
use session::{Datastore, Event, Outcome, Session};
use validate::Validator;

impl<D: Device, V: Validator> Engine<D, V> {
    // The engine counts as on: its device is on too, and its schema is lawful.
    pub(crate) fn is_on(&self) -> bool
        ensures { result ≡ (seen D.Device.powered self.now).on }
    {
        self.on && self.device.is_on() && self.schema.is_ok()
    }

    // The first refusal of every call after those of its numbers: the engine is off.
    fn check_on(&self) -> Result<(), Refusal>
        ensures { result ≡ (if (seen D.Device.powered self.now).on then Ok tt else Err Refusal.EngineOff) }
    {
        if self.is_on() {
            Ok(())
        } else {
            Err(Refusal::EngineOff)
        }
    }

    // The first refusal of every call to a session after those of its numbers: the engine is off, or the session not open.
    pub(crate) fn check_open(&self, by: Session) -> Result<(), Refusal>
        ensures { refusal_of result ≡ open_refusal (seen D.Device.powered self.now) (number_of by) }
    {
        self.check_on()?;
        if !self.sessions.is_open(by) {
            return Err(Refusal::SessionNotOpen);
        }
        Ok(())
    }

    // The candidate differs from running.
    fn is_modified(&self) -> bool
        ensures { result ≡ modified (seen D.Device.powered self.now) }
    {
        self.candidate != self.running
    }

    // The candidate is to be locked, and it is modified.
    fn hinders_candidate(&self, datastore: Datastore) -> bool
        ensures { result ≡ (datastore_number datastore == 2 && modified (seen D.Device.powered self.now)) }
    {
        datastore == Datastore::Candidate && self.is_modified()
    }

    // Running is to be locked, and there is a trial that another session or nobody owns.
    fn hinders_running(&self, datastore: Datastore, session: Session) -> bool
        ensures { result ≡ (datastore_number datastore == 1 && owned_elsewhere (seen D.Device.powered self.now).trial (number_of session)) }
    {
        datastore == Datastore::Running && self.trial.is_owned_elsewhere(session)
    }

    // There is a trial, and the persist number given is not its own.
    fn differs_from_trial(&self, id: u32) -> bool
        ensures { result ≡ (is_pending (seen D.Device.powered self.now).trial && persist_differs (seen D.Device.powered self.now).trial id) }
    {
        self.trial.is_pending() && self.trial.persist_differs(id)
    }

    // An event of the trial. Where it reverts, running becomes the standing configuration.
    pub(crate) fn happen(&mut self, event: Event)
        ensures { Happened D.Device.powered (event_of event) self.old self.new }
    {
        if self.trial.on(event) == Outcome::Reverted {
            self.running = self.standing;
        }
    }

    pub(crate) fn open(&mut self, session: u32) -> Result<(), EngineFault>
        ensures { PerformsOn D.Device V.Validator self.old (Call.Open session) (answered result) self.new }
    {
        let by = Session::try_from(session)?;
        self.check_on()?;
        if self.sessions.is_open(by) {
            return Err(Refusal::SessionOpen.into());
        }
        self.sessions.open(by);
        Ok(())
    }

    // Ends a session. Its locks are released; a trial that it owns reverts, or goes on without an owner if it has a persist number.
    pub(crate) fn close(&mut self, session: u32) -> Result<(), EngineFault>
        ensures { PerformsOn D.Device V.Validator self.old (Call.Close session) (answered result) self.new }
    {
        let by = Session::try_from(session)?;
        self.check_open(by)?;
        self.happen(Event::Closed(by));
        self.sessions.close(by);
        Ok(())
    }

    pub(crate) fn lock(&mut self, session: u32, datastore: u32) -> Result<(), EngineFault>
        ensures { PerformsOn D.Device V.Validator self.old (Call.Lock session datastore) (answered result) self.new }
    {
        let by = Session::try_from(session)?;
        let of = Datastore::try_from(datastore)?;
        self.check_open(by)?;
        if self.sessions.is_locked(of) {
            return Err(Refusal::AlreadyLocked.into());
        }
        if self.hinders_candidate(of) {
            return Err(Refusal::CandidateModified.into());
        }
        if self.hinders_running(of, by) {
            return Err(Refusal::TrialElsewhere.into());
        }
        self.sessions.lock(by, of);
        Ok(())
    }

    // Releases a lock. A released candidate keeps its contents.
    pub(crate) fn unlock(&mut self, session: u32, datastore: u32) -> Result<(), EngineFault>
        ensures { PerformsOn D.Device V.Validator self.old (Call.Unlock session datastore) (answered result) self.new }
    {
        let by = Session::try_from(session)?;
        let of = Datastore::try_from(datastore)?;
        self.check_open(by)?;
        if !self.sessions.holds(by, of) {
            return Err(Refusal::LockNotHeld.into());
        }
        self.sessions.unlock(by, of);
        Ok(())
    }

    // Ends a trial: running becomes the standing configuration, and the candidate stays.
    pub(crate) fn cancel(&mut self, session: u32, id: u32) -> Result<(), EngineFault>
        ensures { PerformsOn D.Device V.Validator self.old (Call.Cancel session id) (answered result) self.new }
    {
        let by = Session::try_from(session)?;
        self.check_open(by)?;
        if self.sessions.is_locked_elsewhere(by, Datastore::Running) {
            return Err(Refusal::LockedElsewhere.into());
        }
        if self.trial.is_bound_elsewhere(by) {
            return Err(Refusal::TrialBound.into());
        }
        if self.differs_from_trial(id) {
            return Err(Refusal::PersistDiffers.into());
        }
        if !self.trial.is_pending() {
            return Err(Refusal::NoTrial.into());
        }
        self.happen(Event::Cancelled);
        Ok(())
    }

    // So many seconds have passed. A trial without a second left reverts.
    pub(crate) fn elapse(&mut self, seconds: u32) -> Result<(), EngineFault>
        ensures { PerformsOn D.Device V.Validator self.old (Call.Elapse seconds) (answered result) self.new }
    {
        if seconds > 1_000_000 {
            return Err(Refusal::TooManySeconds.into());
        }
        self.check_on()?;
        self.happen(Event::Elapsed(seconds));
        Ok(())
    }
}
