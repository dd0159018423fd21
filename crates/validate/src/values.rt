// Making required values, and asking for them.
ghost use Rattle.config.specs.Order.{path_sooner};
ghost use Rattle.fault.specs.Reports.{plain};
ghost use Rattle.table.specs.Table.{lookup};
ghost use Rattle.validate.specs.Bounds.{bound_path, first_unmet};
ghost use Rattle.validate.specs.Required.{bounds, Made};
ghost use Rattle.std.specs.Prelude.{◌≡◌};

use crate::bound::{Bound, lawful};
use crate::broken::{Broken, Rule};
use crate::required::{Required, RequiredFault};
use crate::validator::Validator;
use config::Config;
use fault::Report;
use schema::{Path, Range};
use table::Slots;

const UNUSED: Bound = Bound {
    path: Path {
        node: 0,
        k1: 0,
        k2: 0,
    },
    values: Range { lo: 0, hi: 0 },
};

impl Required {
    // The required values of these records. The table has no room for more than 8.
    pub fn new(records: &[Bound]) -> Result<Self, RequiredFault>
        ensures { Made records.now result }
    {
        if !lawful(records) {
            return Err(RequiredFault);
        }
        let mut held = Slots::new(UNUSED);
        for record in records {
            held.push(*record).map_err(|_| RequiredFault)?;
        }
        Ok(Required { records: held })
    }

    // What is required at a path.
    pub fn get(&self, path: Path) -> Option<Bound>
        ensures { result ≡ lookup bound_path path_sooner (bounds self.now) path }
    {
        self.records.get(path)
    }
}

// Rule 4.
impl Validator for Required {
    ghost verdict = { λ s es. first_unmet (bounds s) es };

    fn check(&self, config: &Config) -> Result<(), Broken> {
        for record in self.records.as_slice() {
            if !record.is_met(config) {
                return Err(Broken {
                    rule: Rule::ValueRequired,
                    path: record.path,
                });
            }
        }
        Ok(())
    }
}

impl RequiredFault {
    // Refusal 14. A method and no From, as of every fault: some answer an Option or take a path.
    pub fn report(self) -> Report
        ensures { result ≡ plain 14 }
    {
        Report::plain(14)
    }
}
