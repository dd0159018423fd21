// The items of an edit on the candidate.
ghost use Rattle.calls.specs.Answers.{answered};
ghost use Rattle.edit.specs.Lists.{items};
ghost use Rattle.engine.specs.Checks.{ItemsEdited};

use crate::engine::Engine;
use calls::{EngineFault, Refusal};
use device::Device;
use edit::{EditList, ErrorOption};
use validate::Validator;

impl<D: Device, V: Validator> Engine<D, V> {
    // Performs the items on the candidate; without a lawful schema the engine is off.
    pub(crate) fn edit_items(
        &mut self,
        list: &EditList,
        way: ErrorOption,
    ) -> Result<(), EngineFault>
        ensures { ItemsEdited D.Device.powered way (items list.now) self.old (answered result) self.new }
    {
        let schema = self.schema.map_err(|_| Refusal::EngineOff)?;
        edit::edit(&schema, &mut self.candidate, list, way)?;
        Ok(())
    }
}
