// Which home blocks differ between two configurations.
ghost use Rattle.journal.specs.Plans.{changes};
ghost use Rattle.store.specs.Targets.{written};
ghost use Rattle.std.specs.Prelude.{◌≡◌};

use crate::layout::{FIRST_HOME, HOMES};
use crate::targets::{Changes, Targets};
use table::Slots;

// The home blocks in which the new ones differ from the old, each with its new bytes.
pub(crate) fn changed(old: &[[u8; 32]; HOMES], new: &[[u8; 32]; HOMES]) -> Changes
    ensures { written result ≡ changes 26 old.now new.now }
{
    let mut blocks = Slots::new(0);
    let mut rows = Slots::new([0; 32]);
    // There is room for all 25, so no push fails.
    for (i, (before, after)) in old.iter().zip(new).enumerate() {
        if before != after {
            let _ = blocks.push((FIRST_HOME + i) as u8);
            let _ = rows.push(*after);
        }
    }
    Changes {
        targets: Targets { blocks },
        rows,
    }
}
