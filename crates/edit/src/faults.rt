// Why an item is refused.
ghost use Rattle.edit.specs.Numbers.{item_fault_number};
ghost use Rattle.edit.specs.declared.faults.ItemFault.TheVariants.{Operation as no_operation, Path as bad_path};
ghost use Rattle.std.specs.Prelude.{◌≡◌};

use crate::item::UnknownOperation;
use schema::PathFault;

// An item's fault: its operation, its path or value, a target that is there, a target or the list around it that is not, no
// place for a 49th entry.
#[derive(Clone, Copy, PartialEq, Eq, Debug)]
pub enum ItemFault {
    Operation,
    Path(PathFault),
    Present,
    Absent,
    Full,
}

impl From<UnknownOperation> for ItemFault {
    ghost from_gives = { λ _ r. r ≡ no_operation };

    fn from(_unknown: UnknownOperation) -> Self {
        Self::Operation
    }
}

impl From<PathFault> for ItemFault {
    ghost from_gives = { λ f r. r ≡ bad_path f };

    fn from(fault: PathFault) -> Self {
        ItemFault::Path(fault)
    }
}

impl ItemFault {
    // The refusal number, by a match: the fault of a path has its own.
    pub fn number(self) -> u32
        ensures { result ≡ item_fault_number self }
    {
        match self {
            ItemFault::Operation => 6,
            ItemFault::Path(fault) => fault as u32,
            ItemFault::Present => 32,
            ItemFault::Absent => 33,
            ItemFault::Full => 34,
        }
    }
}
