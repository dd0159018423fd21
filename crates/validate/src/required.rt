// Required values in fixed memory.
ghost use Rattle.std.specs.Prelude.{◌≡◌, true};
ghost use Rattle.table.specs.Slots.{items};
ghost use Rattle.validate.specs.Bounds.{bounds_lawful};

use crate::bound::Bound;
use table::Slots;

// Up to 8 records in strictly rising order of their paths.
#[derive(Clone, Copy)]
pub struct Required {
    pub(crate) records: Slots<Bound, 8>,
    ghost lawful: { bounds_lawful (items records) ≡ true },
}

// The records are more than 8, do not rise, or have an empty range.
#[derive(Clone, Copy, PartialEq, Eq, Debug)]
pub struct RequiredFault;
