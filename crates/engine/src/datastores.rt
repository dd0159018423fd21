// Edits of the candidate, and looking at a datastore.
ghost use Rattle.calls.specs.Answers.{answered, shown};
ghost use Rattle.calls.specs.declared.call.Call.{Call};
ghost use Rattle.config.specs.Configs.{used};
ghost use Rattle.engine.specs.Checks.{EditChecked, GetChecked, candidate_refusal, refusal_of};
ghost use Rattle.engine.specs.Performing.{Got, PerformsOn};
ghost use Rattle.engine.specs.Seen.{seen};
ghost use Rattle.model.specs.Model.{contents};
ghost use Rattle.model.specs.Steps.{Gets};
ghost use Rattle.session.specs.Numbers.{datastore_number, number_of};
ghost use Rattle.std.specs.Prelude.{◌≡◌, true};

use crate::engine::Engine;
use calls::{Call, EngineFault, Image, Refusal};
use config::Config;
use device::Device;
use edit::{EditList, ErrorOption};
use session::{Datastore, Session};
use validate::Validator;

impl<D: Device, V: Validator> Engine<D, V> {
    // The first refusal of the candidate to a session: the engine is off, the session not open, or another's lock.
    fn check_candidate(&self, by: Session) -> Result<(), Refusal>
        ensures { refusal_of result ≡ candidate_refusal (seen D.Device.powered self.now) (number_of by) }
    {
        self.check_open(by)?;
        if self.sessions.is_locked_elsewhere(by, Datastore::Candidate) {
            return Err(Refusal::LockedElsewhere);
        }
        Ok(())
    }

    // Whether the session may edit by this option: the error option, or why not.
    fn may_edit(&self, session: u32, option: u32) -> Result<ErrorOption, EngineFault>
        ensures { EditChecked (seen D.Device.powered self.now) session option true result }
    {
        let by = Session::try_from(session)?;
        let way = ErrorOption::try_from(option)?;
        self.check_candidate(by)?;
        Ok(way)
    }

    // Performs an edit list on the candidate by an error option.
    pub(crate) fn edit(
        &mut self,
        session: u32,
        option: u32,
        items: &[u8],
    ) -> Result<(), EngineFault>
        ensures { PerformsOn D.Device V.Validator self.old (Call.Edit session option items.entry) (answered result) self.new }
    {
        let list = EditList::read(items).map_err(|_| Refusal::EditList)?;
        let way = self.may_edit(session, option)?;
        self.edit_items(&list, way)
    }

    // The candidate becomes running.
    pub(crate) fn discard(&mut self, session: u32) -> Result<(), EngineFault>
        ensures { PerformsOn D.Device V.Validator self.old (Call.Discard session) (answered result) self.new }
    {
        let by = Session::try_from(session)?;
        self.check_candidate(by)?;
        self.candidate = self.running;
        Ok(())
    }

    fn contents(&self, datastore: Datastore) -> Config
        ensures { used result ≡ contents (seen D.Device.powered self.now) (datastore_number datastore) }
    {
        match datastore {
            Datastore::Running => self.running,
            Datastore::Candidate => self.candidate,
        }
    }

    // Runs the validator over a datastore.
    pub(crate) fn validate(&mut self, session: u32, datastore: u32) -> Result<(), EngineFault>
        ensures { PerformsOn D.Device V.Validator self.old (Call.Validate session datastore) (answered result) self.new }
    {
        let by = Session::try_from(session)?;
        let of = Datastore::try_from(datastore)?;
        self.check_open(by)?;
        self.validator.check(&self.contents(of))?;
        Ok(())
    }

    // Whether the session may look at the datastore, with so many bytes of room: the datastore, or why not.
    fn may_get(&self, session: u32, datastore: u32, room: usize) -> Result<Datastore, EngineFault>
        ensures { GetChecked (seen D.Device.powered self.now) session datastore room result }
    {
        let by = Session::try_from(session)?;
        let of = Datastore::try_from(datastore)?;
        if room < 769 {
            return Err(Refusal::ShortOutput.into());
        }
        self.check_open(by)?;
        Ok(of)
    }

    // Writes the image of a datastore to the front of an output of at least 769 bytes, and answers its length.
    pub fn get(&self, session: u32, datastore: u32, out: &mut [u8]) -> Result<usize, EngineFault>
        ensures { Got (seen D.Device.powered self.now) session datastore out.old result out.new }
    {
        let of = self.may_get(session, datastore, out.len())?;
        self.contents(of)
            .encode(out)
            .map_err(|_| Refusal::ShortOutput.into())
    }

    // The image of a datastore, for an answer that shows it.
    pub(crate) fn show(
        &self,
        session: u32,
        datastore: u32,
        room: usize,
    ) -> Result<Image, EngineFault>
        ensures { Gets (seen D.Device.powered self.now) session datastore room (shown result) (seen D.Device.powered self.now) }
    {
        let of = self.may_get(session, datastore, room)?;
        let mut bytes = [0u8; 769];
        let length = self
            .contents(of)
            .encode(&mut bytes)
            .map_err(|_| Refusal::ShortOutput)?;
        Ok(Image { bytes, length })
    }
}
