// The home blocks that a commit changes.
ghost use Rattle.std.specs.Prelude.{◌≡◌, true, length};
ghost use Rattle.journal.specs.Layout.{rising};
ghost use Rattle.table.specs.Slots.{items};

use crate::layout::HOMES;
use table::Slots;

// Up to 25 home blocks in strictly rising order.
#[derive(Clone, Copy)]
pub(crate) struct Targets {
    pub(crate) blocks: Slots<u8, HOMES>,
    ghost rises: { rising 26 (items blocks) ≡ true },
}

// Home blocks in strictly rising order, each with the bytes that it gets. The rows stand apart from the blocks, since they lie on
// a device in a row, as records.
#[derive(Clone, Copy)]
pub(crate) struct Changes {
    pub(crate) targets: Targets,
    pub(crate) rows: Slots<[u8; 32], HOMES>,
    ghost whole: { length (items rows) ≡ length (items targets.blocks) },
}
