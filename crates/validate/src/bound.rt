// What is required at one path.
ghost use Rattle.config.specs.Configs.{used};
ghost use Rattle.config.specs.Order.{path_sooner};
ghost use Rattle.validate.specs.Bounds.{ranged, bounds_lawful, met};
ghost use Rattle.std.specs.Prelude.{◌≡◌};
ghost use Rattle.std.proofs.Common.{rules};

use config::Config;
use schema::{Path, Range};
use table::Record;

// A path that has to be present, and the range of its value.
#[derive(Clone, Copy, PartialEq, Eq, Debug)]
pub struct Bound {
    pub path: Path,
    pub values: Range,
}

// In the order of their paths. As of entries: one impl for all that have a path would need a trait of paths, no plainer.
impl Record for Bound {
    type Key = Path;

    ghost key = { λ b. b.path };

    ghost less = { path_sooner };

    ghost irreflexive = { Prim.search rules };

    ghost transitive = { Prim.search rules };

    ghost connected = { Prim.search rules };

    fn key_of(&self) -> Path {
        self.path
    }

    fn before(a: Path, b: Path) -> bool {
        a < b
    }
}

impl Bound {
    // The range of its values is not empty.
    fn has_values(&self) -> bool
        ensures { result ≡ ranged self.now }
    {
        self.values.lo <= self.values.hi
    }

    // The path is present with a value in the range.
    pub(crate) fn is_met(self, config: &Config) -> bool
        ensures { result ≡ met (used config.now) self }
    {
        let Bound { path, values } = self;
        config
            .get(path)
            .is_some_and(|entry| values.has(entry.value))
    }
}

// Each path comes before the next one, and no range is empty. In one pass, which ends at the first record that is at fault.
pub(crate) fn lawful(records: &[Bound]) -> bool
    ensures { result ≡ bounds_lawful records.now }
{
    records.is_sorted_by(|a, b| a.has_values() && a.path < b.path)
        && records.last().is_none_or(|last| last.has_values())
}
