// The device that only loses power.
ghost use Rattle.std.specs.Prelude.{◌≡◌, false};
ghost use Rattle.scripted.specs.Steps.{doomed_blocks, DoomedRaises, DoomedReads, DoomedWrites};
ghost use Rattle.scripted.specs.Rule as rule;
ghost use Rattle.std.proofs.Common.{rules};

use device::{Block, Device, DeviceFault};

// A device that loses power at every access that is not refused, and changes no block.
// Not one generic type with Scripted, which is no plainer: no script here, and a write keeps the Vec itself, not its blocks alone.
#[derive(Drop)]
pub struct Doomed {
    blocks: Vec<Block>,
    on: bool,
}

impl Doomed {
    // A device with these blocks and power off.
    pub fn new(blocks: Vec<Block>) -> Doomed
        ensures blocks { result.blocks ≡ blocks }
        ensures off { result.on ≡ false }
    {
        Doomed { blocks, on: false }
    }
}

impl Device for Doomed {
    ghost blocks = { doomed_blocks };

    ghost powered = { λ d. d.on };

    ghost raises = { DoomedRaises };

    ghost reads = { DoomedReads };

    ghost writes = { DoomedWrites };

    ghost raised = { Prim.search rules };

    ghost reading = { rule.doomed_reading };

    ghost writing = { rule.doomed_writing };

    ghost unread = { Prim.search rules };

    ghost unwritten = { Prim.search rules };

    fn block_count(&self) -> usize {
        self.blocks.len()
    }

    fn is_on(&self) -> bool {
        self.on
    }

    fn power_up(&mut self) {
        self.on = true;
    }

    fn read(&mut self, at: usize) -> Result<Block, DeviceFault> {
        self.admit(at)?;
        self.on = false;
        Err(DeviceFault::PowerLost { block: at })
    }

    fn write(&mut self, at: usize, _bytes: [u8; 32]) -> Result<(), DeviceFault> {
        self.admit(at)?;
        self.on = false;
        Err(DeviceFault::PowerLost { block: at })
    }
}
