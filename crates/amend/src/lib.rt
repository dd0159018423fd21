// One change of a configuration, and the image after it.
#![tactic(auto)]

ghost use Rattle.amend.specs.Amends.{Answered};
ghost use Rattle.fault.specs.Reports.{at_path, plain};
ghost use Rattle.schema.specs.Nodes.{nodes};
ghost use Rattle.schema.specs.Paths.{fault_number};
ghost use Rattle.std.specs.Prelude.{◌≡◌};

use config::{Config, Entry, Full};
use fault::Report;
use schema::{Path, PathFault, Schema};

// An entry to put in, and then a path whose entry goes.
#[derive(Clone, Copy)]
pub struct Change {
    pub put: Entry,
    pub gone: Path,
}

// The configuration after a change, the entry that went, and the image in the front of a buffer of zeros.
#[derive(Clone, Copy)]
pub struct Amended {
    pub config: Config,
    pub taken: Option<Entry>,
    // No heap: the buffer has room for every image, and its length stands beside it.
    pub image: [u8; 769],
    pub length: usize,
}

// Why a change is refused: the entry to put in is unlawful, or there is no place for it.
#[derive(Clone, Copy, PartialEq, Eq, Debug)]
pub enum ChangeFault {
    Entry(PathFault),
    Full,
}

impl From<PathFault> for ChangeFault {
    ghost use Rattle.amend.specs.declared.ChangeFault.TheVariants.{Entry as unlawful};

    ghost from_gives = { λ fault r. r ≡ unlawful fault };

    fn from(fault: PathFault) -> Self {
        ChangeFault::Entry(fault)
    }
}

impl From<Full> for ChangeFault {
    ghost use Rattle.amend.specs.declared.ChangeFault.TheVariants.{Full as no_place};

    ghost from_gives = { λ full r. r ≡ no_place };

    fn from(_: Full) -> Self {
        ChangeFault::Full
    }
}

// Makes the change in a copy of the configuration.
pub fn amend(schema: &Schema, before: Config, change: Change) -> Result<Amended, ChangeFault>
    ensures { Answered (nodes schema.now) before change result }
{
    schema.check_entry(change.put.path, change.put.value)?;
    let mut config = before;
    config.put(change.put)?;
    let taken = config.take_out(change.gone);
    let mut image = [0u8; 769];
    let length = config.encode(&mut image).unwrap_or(0);
    Ok(Amended {
        config,
        taken,
        image,
        length,
    })
}

impl ChangeFault {
    // Refusal 7, 8, 9 or 34, at the path of the entry that was to be put in. A method and no From, since it takes the path.
    pub fn report(self, path: Path) -> Report
        ensures { result ≡ at_path (plain (elim self [ ChangeFault.Entry f ↦ fault_number f | ChangeFault.Full ↦ 34 ])) path.node path.k1 path.k2 }
    {
        match self {
            ChangeFault::Entry(fault) => fault.report(path),
            ChangeFault::Full => Report::plain(34).at_path(u32::from(path.node), path.k1, path.k2),
        }
    }
}
