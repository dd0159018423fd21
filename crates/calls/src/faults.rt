// Why a call is refused.
ghost use Rattle.calls.specs.Faults.{engine_report, refusal_number};
ghost use Rattle.calls.specs.declared.faults.Refusal.TheVariants.{DatastoreNumber as no-datastore, OptionNumber as no-option, SessionNumber as no-session};
ghost use Rattle.calls.specs.declared.faults.EngineFault.TheVariants.{Plain as of-plain, Schema as of-schema, Item as of-item, Invalid as of-invalid, Store as of-store};
ghost use Rattle.std.specs.Prelude.{◌≡◌};

use edit::{EditFault, UnknownOption};
use fault::Report;
use schema::SchemaFault;
use session::{UnknownDatastore, UnknownSession};
use store::StoreFault;
use validate::Broken;

// The refusals that tell nothing but their number.
#[derive(Clone, Copy, PartialEq, Eq, Debug)]
pub enum Refusal {
    EditList = 1,
    SessionNumber = 2,
    DatastoreNumber = 3,
    OptionNumber = 4,
    CommitNumbers = 5,
    TooManySeconds = 10,
    InitialImage = 12,
    ShortOutput = 13,
    EngineOff = 20,
    SessionNotOpen = 21,
    LockedElsewhere = 22,
    AlreadyLocked = 23,
    CandidateModified = 24,
    TrialElsewhere = 25,
    TrialBound = 26,
    PersistDiffers = 27,
    NoTrial = 28,
    SessionOpen = 30,
    LockNotHeld = 31,
}

impl Refusal {
    // A method and no From, which is no plainer: the conversion is the cast alone.
    pub fn number(self) -> u32
        ensures { result ≡ refusal_number self }
    {
        self as u32
    }
}

// Why the engine refused a call. A fault of a layer below stays whole.
#[derive(Clone, Copy, PartialEq, Eq, Debug)]
pub enum EngineFault {
    Plain(Refusal),
    Schema(SchemaFault),
    Item(EditFault),
    Invalid(Broken),
    Store(StoreFault),
}

// A refusal is a fault that tells nothing else.
impl From<Refusal> for EngineFault {
    ghost from_gives = { λ f r. r ≡ of-plain f };

    fn from(refusal: Refusal) -> EngineFault {
        EngineFault::Plain(refusal)
    }
}

// Refusals 2, 3 and 4: a number of no session, of no datastore, of no error option.
impl From<UnknownSession> for EngineFault {
    ghost from_gives = { λ _ r. r ≡ of-plain no-session };

    fn from(_unknown: UnknownSession) -> EngineFault {
        EngineFault::Plain(Refusal::SessionNumber)
    }
}

impl From<UnknownDatastore> for EngineFault {
    ghost from_gives = { λ _ r. r ≡ of-plain no-datastore };

    fn from(_unknown: UnknownDatastore) -> EngineFault {
        EngineFault::Plain(Refusal::DatastoreNumber)
    }
}

impl From<UnknownOption> for EngineFault {
    ghost from_gives = { λ _ r. r ≡ of-plain no-option };

    fn from(_unknown: UnknownOption) -> EngineFault {
        EngineFault::Plain(Refusal::OptionNumber)
    }
}

// A fault of a layer below is wrapped, and nothing of it is lost.
impl From<SchemaFault> for EngineFault {
    ghost from_gives = { λ f r. r ≡ of-schema f };

    fn from(fault: SchemaFault) -> EngineFault {
        EngineFault::Schema(fault)
    }
}

impl From<EditFault> for EngineFault {
    ghost from_gives = { λ f r. r ≡ of-item f };

    fn from(fault: EditFault) -> EngineFault {
        EngineFault::Item(fault)
    }
}

impl From<Broken> for EngineFault {
    ghost from_gives = { λ f r. r ≡ of-invalid f };

    fn from(broken: Broken) -> EngineFault {
        EngineFault::Invalid(broken)
    }
}

impl From<StoreFault> for EngineFault {
    ghost from_gives = { λ f r. r ≡ of-store f };

    fn from(fault: StoreFault) -> EngineFault {
        EngineFault::Store(fault)
    }
}

impl EngineFault {
    // The eight fields. Only a refused device access has none, and no call of an engine answers that.
    // Reports are methods and no From: some answer an Option and one takes a path, so one name for all is plainer.
    pub fn report(self) -> Option<Report>
        ensures { result ≡ engine_report self }
    {
        match self {
            EngineFault::Plain(refusal) => Some(Report::plain(refusal.number())),
            EngineFault::Schema(fault) => Some(fault.report()),
            EngineFault::Item(fault) => Some(fault.report()),
            EngineFault::Invalid(broken) => Some(broken.report()),
            EngineFault::Store(fault) => fault.report(),
        }
    }
}
