// The engine's state.
use config::Config;
use schema::{Schema, SchemaFault};
use session::{Sessions, Trial};

// `schema` is what checking the schema's rows gave. `on` is set once a format or a restart finishes; an engine counts as on only
// while its device is on, too. It is a flag beside the values and no Option of them: they stay while the engine is off, and the
// rules' model keeps them too.
#[derive(Drop)]
pub struct Engine<D, V> {
    pub(crate) device: D,
    pub(crate) validator: V,
    pub(crate) schema: Result<Schema, SchemaFault>,
    pub(crate) on: bool,
    pub(crate) standing: Config,
    pub(crate) running: Config,
    pub(crate) candidate: Config,
    pub(crate) sessions: Sessions,
    pub(crate) trial: Trial,
}
