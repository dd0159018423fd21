// A configuration in fixed memory.
ghost use Rattle.std.specs.Prelude.{◌≡◌, true};
ghost use Rattle.config.specs.Order.{rising};
ghost use Rattle.table.specs.Slots.{items};

use crate::entry::Entry;
use table::Slots;

// Up to 48 entries in strictly rising order of their paths.
#[derive(Clone, Copy, PartialEq, Eq)]
pub struct Config {
    pub(crate) table: Slots<Entry, 48>,
    ghost rises: { rising (items table) ≡ true },
}
