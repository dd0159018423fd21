// A block device that may lose power at any access: what it means, what it may answer, and what a list of accesses
// made of it comes to.
#![tactic(auto)]

ghost use Rattle.std.specs.Prelude.{◌≡◌, ℕ, Bool, true, List, length, Err, Result};
ghost use Rattle.device.specs.declared.Block.{Block};
ghost use Rattle.device.specs.declared.DeviceFault.{DeviceFault};
ghost use Rattle.device.specs.declared.DeviceFault.TheVariants.{Refused};
ghost use Rattle.device.specs.Power.{ReadAnswer, WriteAnswer};
ghost use Rattle.device.specs.Reach.{Admits};
ghost use Rattle.device.specs.Reports.{device_report};

mod laws;

use fault::Report;
pub use laws::accesses_keep_the_rule;

// A block is good with its bytes, or damaged.
// No Option, which is no plainer: a damaged block is there too, and Ok(None) of a read would not say that it is damaged.
#[derive(Clone, Copy, PartialEq, Eq, Debug)]
pub enum Block {
    Good([u8; 32]),
    Damaged,
}

// Why an access was not carried out: power failed at it, in this block; or it was refused, with power off or past the
// last block. Which of the two is settled by power and block before the access.
#[derive(Clone, Copy, PartialEq, Eq, Debug)]
pub enum DeviceFault {
    PowerLost { block: usize },
    Refused,
}

impl DeviceFault {
    // Refusal 36 with the block as its cause. A refused access has no number, nor has a block past 32 bits, so there is no From.
    pub fn report(self) -> Option<Report>
        ensures { result ≡ device_report self }
    {
        match self {
            DeviceFault::PowerLost { block } => u32::try_from(block)
                .ok()
                .map(|cause| Report::plain(36).because(cause)),
            DeviceFault::Refused => None,
        }
    }
}

pub trait Device {
    // The blocks, as many as ever; and whether power is on.
    ghost blocks: { Self → List Block };

    ghost powered: { Self → Bool };

    // The device's own steps: the device before, what was asked, the answer, the device after.
    ghost raises: { Self → Self → Type 0 };

    ghost reads: { Self → ℕ → Result Block DeviceFault → Self → Type 0 };

    ghost writes: { Self → ℕ → List ℕ → Result Unit DeviceFault → Self → Type 0 };

    fn block_count(&self) -> usize
        ensures { result ≡ length (blocks self.now) };

    fn is_on(&self) -> bool
        ensures { result ≡ powered self.now };

    fn power_up(&mut self)
        ensures { raises self.old self.new };

    fn read(&mut self, at: usize) -> Result<Block, DeviceFault>
        ensures { reads self.old at result self.new };

    fn write(&mut self, at: usize, bytes: [u8; 32]) -> Result<(), DeviceFault>
        ensures { writes self.old at bytes result self.new };

    // Lets an access of a block through: power has to be on and the block there.
    fn admit(&self, at: usize) -> Result<(), DeviceFault>
        ensures { Admits (blocks self.now) (powered self.now) at result }
    {
        if self.is_on() && at < self.block_count() {
            Ok(())
        } else {
            Err(DeviceFault::Refused)
        }
    }

    // The power rule.
    ghost raised: { (d e : Self) → raises d e → (blocks e ≡ blocks d) × (powered e ≡ true) };

    ghost reading: { (d e : Self) (at : ℕ) (r : Result Block DeviceFault) → reads d at r e → ReadAnswer (blocks d) (powered d) at r (blocks e) (powered e) };

    ghost writing: { (d e : Self) (at : ℕ) (bytes : List ℕ) (r : Result Unit DeviceFault) → writes d at bytes r e → WriteAnswer (blocks d) (powered d) at bytes r (blocks e) (powered e) };

    // A refused access leaves the device as it is, not its blocks alone.
    ghost unread: { (d e : Self) (at : ℕ) → reads d at (Err Refused) e → e ≡ d };

    ghost unwritten: { (d e : Self) (at : ℕ) (bytes : List ℕ) → writes d at bytes (Err Refused) e → e ≡ d };
}
