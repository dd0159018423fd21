// The life of an engine: made, formatted, restarted; and a call as a value.
ghost use Rattle.calls.specs.Answers.{answered};
ghost use Rattle.calls.specs.declared.call.Call.{Call};
ghost use Rattle.config.specs.Configs.{used};
ghost use Rattle.engine.specs.Checks.{FirstWrittenOn, Loaded, RecoveredOn};
ghost use Rattle.engine.specs.Performing.{FormattedOn, New, PerformsOn};
ghost use Rattle.engine.specs.Seen.{device_of};
ghost use Rattle.store.specs.Calls.{small};
ghost use Rattle.std.specs.Prelude.{◌≡◌, if◌then◌else◌, Ok, Err};

use crate::engine::Engine;
use calls::{Answer, Call, EngineFault, Refusal};
use config::Config;
use device::Device;
use schema::{NodeRow, Schema};
use session::{Sessions, Trial};
use store::StoreFault;
use validate::Validator;

const BLOCKS: usize = 51;

impl<D: Device, V: Validator> Engine<D, V> {
    // An engine that is off, over a device with whatever it holds. The schema's rows may be unlawful.
    pub fn new(device: D, validator: V, rows: &[NodeRow]) -> Self
        ensures { New D.Device.powered device validator rows.now result }
    {
        Engine {
            device,
            validator,
            schema: Schema::check(rows),
            on: false,
            standing: Config::empty(),
            running: Config::empty(),
            candidate: Config::empty(),
            sessions: Sessions::none(),
            trial: Trial::idle(),
        }
    }

    // This configuration in all places, without sessions, locks or trial.
    fn load(&mut self, config: Config)
        ensures { Loaded D.Device.powered (used config) self.old self.new }
    {
        self.standing = config;
        self.running = config;
        self.candidate = config;
        self.sessions = Sessions::none();
        self.trial = Trial::idle();
        self.on = true;
    }

    // The device has the blocks of a store.
    fn check_room(&self) -> Result<(), StoreFault>
        ensures { result ≡ (if small (D.Device.blocks (device_of self.now)) then Err StoreFault.TooSmall else Ok tt) }
    {
        if self.device.block_count() < BLOCKS {
            return Err(StoreFault::TooSmall);
        }
        Ok(())
    }

    // The validator says yes, the device is large enough, and it is written the first time.
    fn write_first(&mut self, config: Config) -> Result<(), EngineFault>
        ensures { FirstWrittenOn D.Device V.Validator (used config) self.old (answered result) self.new }
    {
        self.validator.check(&config)?;
        self.check_room()?;
        self.on = false;
        store::format(&mut self.device, &config)?;
        self.load(config);
        Ok(())
    }

    // Stores the configuration of an image as the first one, and sets both datastores to it.
    pub fn format(&mut self, image: &[u8]) -> Result<(), EngineFault>
        ensures { FormattedOn D.Device V.Validator self.old image.now (answered result) self.new }
    {
        let schema = self.schema?;
        let config = Config::read(&schema, image).map_err(|_| Refusal::InitialImage)?;
        self.write_first(config)
    }

    // The device is large enough, and what stands on it is set in both datastores.
    fn recover(&mut self, schema: &Schema) -> Result<(), EngineFault>
        ensures { RecoveredOn D.Device schema.now self.old (answered result) self.new }
    {
        self.check_room()?;
        self.on = false;
        let config = store::recover(&mut self.device, schema)?;
        self.load(config);
        Ok(())
    }

    // Powers up, finishes what power cut, and sets both datastores to what stands. Sessions, locks and trial end.
    pub(crate) fn restart(&mut self) -> Result<(), EngineFault>
        ensures { PerformsOn D.Device V.Validator self.old Call.Restart (answered result) self.new }
    {
        let schema = self.schema?;
        self.recover(&schema)
    }

    // Performs a call that is given as a value.
    pub fn perform(&mut self, call: Call<'_>) -> Answer
        ensures { PerformsOn D.Device V.Validator self.old call.entry result self.new }
    {
        match call {
            Call::Open { session } => Answer::from(self.open(session)),
            Call::Close { session } => Answer::from(self.close(session)),
            Call::Lock { session, datastore } => Answer::from(self.lock(session, datastore)),
            Call::Unlock { session, datastore } => Answer::from(self.unlock(session, datastore)),
            Call::Edit {
                session,
                option,
                items,
            } => Answer::from(self.edit(session, option, items)),
            Call::Discard { session } => Answer::from(self.discard(session)),
            Call::Validate { session, datastore } => Answer::from(self.validate(
                session, datastore,
            )),
            Call::Get {
                session,
                datastore,
                room,
            } => Answer::from(self.show(session, datastore, room)),
            Call::Commit {
                session,
                kind,
                timeout,
                persist,
                id,
            } => Answer::from(self.commit(session, kind, timeout, persist, id)),
            Call::Cancel { session, id } => Answer::from(self.cancel(session, id)),
            Call::Elapse { seconds } => Answer::from(self.elapse(seconds)),
            Call::Restart => Answer::from(self.restart()),
        }
    }
}
