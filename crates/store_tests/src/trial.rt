// One replacement, cut or not, with the recoveries after it, and how many went as the rules say.
use crate::pairs::Pair;
use config::Config;
use device::Device;
use fault::Report;
use schema::Schema;
use store::{StoreFault, format, recover, replace};

// Which configuration a recovery gave.
#[derive(Clone, Copy, PartialEq, Eq, Debug)]
pub(crate) enum Seen {
    Old,
    New,
    Other,
}

// What the replacement answered, what the first recovery answered if it was cut, and what the last recovery gave.
#[derive(Clone, Copy, PartialEq, Eq, Debug)]
pub(crate) struct Trial {
    pub(crate) replaced: Option<Report>,
    pub(crate) recovered: Option<Report>,
    pub(crate) seen: Seen,
}

// The report of a fault, if there is one.
pub(crate) fn refusal<T: Drop>(answer: Result<T, StoreFault>) -> Option<Report> {
    answer.err().and_then(|fault| fault.report())
}

fn seen_in(pair: &Pair, recovered: Result<Config, StoreFault>) -> Seen {
    if recovered == Ok(pair.old) {
        Seen::Old
    } else if recovered == Ok(pair.new) {
        Seen::New
    } else {
        Seen::Other
    }
}

// Formats with the old configuration, replaces it by the new and recovers, a second time if power fails in the first.
pub(crate) fn try_pair<D: Device>(device: &mut D, schema: &Schema, pair: &Pair) -> Trial {
    let formatted = format(device, &pair.old).is_ok();
    let replaced = refusal(replace(device, &pair.old, &pair.new));
    let first = recover(device, schema);
    let recovered = refusal(first);
    let last = first.or_else(|_| recover(device, schema));
    let seen = if formatted {
        seen_in(pair, last)
    } else {
        Seen::Other
    };
    Trial {
        replaced,
        recovered,
        seen,
    }
}

// Power lost at a block.
pub(crate) fn lost_at(block: u32) -> Option<Report> {
    Some(Report::plain(36).because(block))
}

// How many cuts there were, how many gave the old configuration and how many the new as they had to, and how many did not go
// as they had to.
#[derive(Clone, Copy, PartialEq, Eq, Debug)]
pub(crate) struct Tally {
    pub(crate) cuts: u32,
    pub(crate) old: u32,
    pub(crate) new: u32,
    pub(crate) other: u32,
}

impl Tally {
    pub(crate) fn none() -> Tally {
        Tally {
            cuts: 0,
            old: 0,
            new: 0,
            other: 0,
        }
    }

    // Counts a trial that had to go so.
    pub(crate) fn note(&mut self, trial: Trial, expected: Trial) {
        self.cuts = self.cuts.saturating_add(1);
        if trial != expected {
            self.other = self.other.saturating_add(1);
        } else if expected.seen == Seen::New {
            self.new = self.new.saturating_add(1);
        } else {
            self.old = self.old.saturating_add(1);
        }
    }
}
