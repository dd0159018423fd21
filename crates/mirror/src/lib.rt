// A device of two sides that hold the same blocks, so that a block is lost only where both sides lose it.
#![tactic(auto)]

ghost use Rattle.std.specs.Prelude.{◌≡◌, ◌&&◌, Err};
ghost use Rattle.std.proofs.Common.{ap, ◌∙◌};
ghost use Rattle.device.specs.Reach.{UnlessRefused};
ghost use Rattle.mirror.specs.Sides.{merged, both, both_on, BothRead, BothWrite};
ghost use Rattle.std.proofs.lemmas.Bool.{and_from};
ghost use Rattle.device.proofs.Reach.{read_by_reach, write_by_reach, same_if_refused};
ghost use Rattle.mirror.specs.Rule.{read_rule, write_rule, read_made, write_made};
ghost use Rattle.device.specs.declared.DeviceFault.TheVariants.{Refused};

use device::{Block, Device, DeviceFault};

// Two devices of any kind. A block is the first side's where that is good, else the second's.
#[derive(Drop)]
pub struct Mirror<A, B> {
    first: A,
    second: B,
}

impl<A: Device, B: Device> Mirror<A, B> {
    pub fn new(first: A, second: B) -> Mirror<A, B>
        ensures first { result.first ≡ first }
        ensures second { result.second ≡ second }
    {
        Mirror { first, second }
    }
}

impl<A: Device, B: Device> Device for Mirror<A, B> {
    ghost blocks = { λ m. both A.Device B.Device m.first m.second };

    ghost powered = { λ m. both_on A.Device B.Device m.first m.second };

    ghost raises = { λ m n. A.Device.raises m.first n.first × B.Device.raises m.second n.second };

    ghost reads = { λ m at r n. UnlessRefused (both A.Device B.Device m.first m.second) (both_on A.Device B.Device m.first m.second) at (BothRead A.Device B.Device m.first m.second at r n.first n.second) r m n };

    ghost writes = { λ m at bytes r n. UnlessRefused (both A.Device B.Device m.first m.second) (both_on A.Device B.Device m.first m.second) at (BothWrite A.Device B.Device m.first m.second at bytes r n.first n.second) r m n };

    ghost raised = { λ d e w.
        let one = A.Device.raised d.first e.first w.0 in
        let two = B.Device.raised d.second e.second w.1 in
        (ap (λ x. merged x (B.Device.blocks e.second)) one.0 ∙ ap (merged (A.Device.blocks d.first)) two.0, and_from (A.Device.powered e.first) (B.Device.powered e.second) one.1 two.1) };

    ghost reading = { λ d e at r w. read_by_reach (λ m. both A.Device.own B.Device.own m.first m.second) (λ m. both_on A.Device.own B.Device.own m.first m.second) d e at _ r w (λ on here m. read_rule A.Device.own B.Device.own A.Device.reading A.Device.writing B.Device.reading B.Device.writing on here m) };

    ghost writing = { λ d e at bytes r w. write_by_reach (λ m. both A.Device.own B.Device.own m.first m.second) (λ m. both_on A.Device.own B.Device.own m.first m.second) d e at _ bytes r w (λ on here m. write_rule A.Device.own B.Device.own A.Device.reading A.Device.writing B.Device.reading B.Device.writing on here m) };

    ghost unread = { λ d e at w. same_if_refused (both A.Device.own B.Device.own d.first d.second) (both_on A.Device.own B.Device.own d.first d.second) at _ (Err Refused) d e w (λ on here m. read_made A.Device.own B.Device.own A.Device.reading A.Device.writing B.Device.reading B.Device.writing on here m) };

    ghost unwritten = { λ d e at bytes w. same_if_refused (both A.Device.own B.Device.own d.first d.second) (both_on A.Device.own B.Device.own d.first d.second) at _ (Err Refused) d e w (λ on here m. write_made A.Device.own B.Device.own A.Device.reading A.Device.writing B.Device.reading B.Device.writing on here m) };

    // As large as the smaller side.
    fn block_count(&self) -> usize {
        self.first.block_count().min(self.second.block_count())
    }

    fn is_on(&self) -> bool {
        self.first.is_on() && self.second.is_on()
    }

    fn power_up(&mut self) {
        self.first.power_up();
        self.second.power_up();
    }

    // The second side is read only where the first is damaged.
    fn read(&mut self, at: usize) -> Result<Block, DeviceFault> {
        self.admit(at)?;
        match self.first.read(at)? {
            Block::Good(bytes) => Ok(Block::Good(bytes)),
            Block::Damaged => self.second.read(at),
        }
    }

    // A good block of the first side is written last, so that one of the sides has the old bytes or the new.
    fn write(&mut self, at: usize, bytes: [u8; 32]) -> Result<(), DeviceFault> {
        self.admit(at)?;
        match self.first.read(at)? {
            Block::Good(_) => {
                self.second.write(at, bytes)?;
                self.first.write(at, bytes)
            }
            Block::Damaged => {
                self.first.write(at, bytes)?;
                self.second.write(at, bytes)
            }
        }
    }
}
