// What a validator says no with.
ghost use Rattle.fault.specs.Reports.{at_path, because, plain};
ghost use Rattle.validate.specs.Rules.{rule_number};
ghost use Rattle.std.specs.Prelude.{◌≡◌};

use fault::Report;
use schema::Path;

// The rules that a configuration can break.
#[derive(Clone, Copy, PartialEq, Eq, Debug)]
pub enum Rule {
    MandatoryMissing = 1,
    ReferenceDangling = 2,
    TooManyEntries = 3,
    ValueRequired = 4,
}

impl Rule {
    // A method and no From, which is no plainer: the conversion is the cast alone.
    pub fn number(self) -> u32
        ensures { result ≡ rule_number self }
    {
        self as u32
    }
}

// A rule that is broken, and where.
#[derive(Clone, Copy, PartialEq, Eq, Debug)]
pub struct Broken {
    pub rule: Rule,
    pub path: Path,
}

impl Broken {
    // Refusal 29, with the rule as cause, at the path. A method and no From: other faults have no report, or
    // need a path for it.
    pub fn report(self) -> Report
        ensures { result ≡ at_path (because (plain 29) (rule_number self.rule)) self.path.node self.path.k1 self.path.k2 }
    {
        let Path { node, k1, k2 } = self.path;
        Report::plain(29)
            .because(self.rule.number())
            .at_path(u32::from(node), k1, k2)
    }
}
