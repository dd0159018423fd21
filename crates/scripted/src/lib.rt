// Devices for tests: one with a scripted outcome for each access, and one that only loses power. Both keep the power rule.
#![tactic(auto)]

ghost use Rattle.std.specs.Prelude.{◌≡◌, false, drop};
ghost use Rattle.scripted.specs.Script.{is_done, left_by, outcome_of};
ghost use Rattle.scripted.specs.Steps.{scripted_blocks, script_left, ScriptedRaises, ScriptedReads, ScriptedWrites};
ghost use Rattle.scripted.specs.Rule as rule;
ghost use Rattle.std.proofs.Common.{rules};

mod losing;

use device::{Block, Device, DeviceFault};
pub use losing::Doomed;
use std::vec::IntoIter;

// What becomes of an access: it is done, or power is lost at it. A write that loses power leaves its block as it was, good
// with the new bytes, or damaged; for a read these three are the same.
#[derive(Clone, Copy)]
pub enum Outcome {
    Done,
    LostBefore,
    LostWritten,
    LostTorn,
}

impl Outcome {
    fn done(self) -> bool
        ensures { result ≡ is_done self }
    {
        matches!(self, Outcome::Done)
    }

    // What a write of `bytes` leaves of the block `old`.
    fn leaves(self, old: Block, bytes: [u8; 32]) -> Block
        ensures { result ≡ left_by self old bytes }
    {
        match self {
            Outcome::Done | Outcome::LostWritten => Block::Good(bytes),
            Outcome::LostBefore => old,
            Outcome::LostTorn => Block::Damaged,
        }
    }
}

// Each access that is not refused takes the next outcome of the script; past its end every access is done.
#[derive(Drop)]
pub struct Scripted {
    blocks: Vec<Block>,
    script: IntoIter<Outcome>,
    on: bool,
}

impl Scripted {
    // A device with these blocks and power off.
    pub fn new(blocks: Vec<Block>, script: Vec<Outcome>) -> Scripted
        ensures blocks { result.blocks ≡ blocks }
        ensures script { script_left result ≡ script.items }
        ensures off { result.on ≡ false }
    {
        Scripted {
            blocks,
            script: script.into_iter(),
            on: false,
        }
    }

    pub fn blocks(&self) -> &[Block]
        ensures { result.now ≡ self.now.blocks.items }
    {
        self.blocks.as_slice()
    }

    // Takes the next outcome.
    fn next_outcome(&mut self) -> Outcome
        ensures outcome { result ≡ outcome_of (script_left self.old) }
        ensures script { script_left self.new ≡ drop 1 (script_left self.old) }
        ensures blocks { self.new.blocks ≡ self.old.blocks }
    {
        self.script.next().unwrap_or(Outcome::Done)
    }
}

impl Device for Scripted {
    ghost blocks = { scripted_blocks };

    ghost powered = { λ d. d.on };

    ghost raises = { ScriptedRaises };

    ghost reads = { ScriptedReads };

    ghost writes = { ScriptedWrites };

    ghost raised = { Prim.search rules };

    ghost reading = { rule.scripted_reading };

    ghost writing = { rule.scripted_writing };

    ghost unread = { Prim.search rules };

    ghost unwritten = { Prim.search rules };

    fn block_count(&self) -> usize {
        self.blocks.len()
    }

    fn is_on(&self) -> bool {
        self.on
    }

    fn power_up(&mut self) {
        self.on = true;
    }

    fn read(&mut self, at: usize) -> Result<Block, DeviceFault> {
        self.admit(at)?;
        self.on = self.next_outcome().done();
        if self.on {
            Ok(self.blocks[at])
        } else {
            Err(DeviceFault::PowerLost { block: at })
        }
    }

    fn write(&mut self, at: usize, bytes: [u8; 32]) -> Result<(), DeviceFault> {
        self.admit(at)?;
        let outcome = self.next_outcome();
        self.blocks[at] = outcome.leaves(self.blocks[at], bytes);
        self.on = outcome.done();
        if self.on {
            Ok(())
        } else {
            Err(DeviceFault::PowerLost { block: at })
        }
    }
}
