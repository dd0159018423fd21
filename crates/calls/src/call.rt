// A call as a value, and its answer.
ghost use Rattle.calls.specs.Answers.{answered, shown};
ghost use Rattle.std.specs.Prelude.{◌≡◌};

use crate::faults::EngineFault;

// The caller names the kind of a commit.
#[derive(Clone, Copy, PartialEq, Eq, Debug)]
pub enum CommitKind {
    Plain,
    Confirmed,
}

// Every call but format. An edit lends its bytes, a get says how long its output is.
// Numbers stay numbers, as the caller gives them: which of them is refused first is the rules' order, so they are read in the call.
#[derive(Clone, Copy, PartialEq, Eq, Debug)]
pub enum Call<'a> {
    Open {
        session: u32,
    },
    Close {
        session: u32,
    },
    Lock {
        session: u32,
        datastore: u32,
    },
    Unlock {
        session: u32,
        datastore: u32,
    },
    Edit {
        session: u32,
        option: u32,
        items: &'a [u8],
    },
    Discard {
        session: u32,
    },
    Validate {
        session: u32,
        datastore: u32,
    },
    Get {
        session: u32,
        datastore: u32,
        room: usize,
    },
    Commit {
        session: u32,
        kind: CommitKind,
        timeout: u32,
        persist: u32,
        id: u32,
    },
    Cancel {
        session: u32,
        id: u32,
    },
    Elapse {
        seconds: u32,
    },
    Restart,
}

// The image of a datastore in the first `length` of 769 bytes; the others are zeros.
// A buffer with its length beside it: fixed memory, without a heap.
#[derive(Clone, Copy, PartialEq, Eq, Debug)]
pub struct Image {
    pub bytes: [u8; 769],
    pub length: usize,
}

// What a call answers: it was performed, it was performed and shows a datastore, or it was refused.
// No Result: an answer is recorded and not handed up, and each of the three has its name.
#[derive(Clone, Copy, PartialEq, Eq, Debug)]
pub enum Answer {
    Done,
    Shown(Image),
    Refused(EngineFault),
}

// The answer to a call that shows nothing, and to one that shows an image.
impl From<Result<(), EngineFault>> for Answer {
    ghost from_gives = { λ r a. a ≡ answered r };

    fn from(outcome: Result<(), EngineFault>) -> Answer {
        match outcome {
            Ok(()) => Answer::Done,
            Err(fault) => Answer::Refused(fault),
        }
    }
}

impl From<Result<Image, EngineFault>> for Answer {
    ghost from_gives = { λ r a. a ≡ shown r };

    fn from(outcome: Result<Image, EngineFault>) -> Answer {
        match outcome {
            Ok(image) => Answer::Shown(image),
            Err(fault) => Answer::Refused(fault),
        }
    }
}
