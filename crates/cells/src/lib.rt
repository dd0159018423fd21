// A device whose blocks stand in bytes, one cell of bytes after the other, and are written byte by byte under a supply.
#![tactic(auto)]

ghost use Rattle.std.specs.Prelude.{◌≡◌, ◌/◌, ◌<◌, ◌≤◌, ℕ, false, length, take, vec_len};
ghost use Rattle.std.proofs.Common.{ap};
ghost use Rattle.device.specs.declared.Block.TheVariants.{Damaged};
ghost use Rattle.supply.specs.Cells.{blocks_by};
ghost use Rattle.cells.specs.Device.{cells_blocks, cells_on, cells_cuts, CellsRaises, CellsReads, CellsWrites};
ghost use Rattle.cells.specs.Layout.{Layout, Lawful};
ghost use Rattle.cells.specs.Rule as rule;
ghost use Rattle.supply.specs.Writing.{Asks};

use device::{Block, Device, DeviceFault};
use std::marker::PhantomData;
use supply::Supply;

// A kind of cells: how many bytes a cell has, what they mean, and how they are written.
pub trait Cell {
    const SIZE: usize;

    ghost SIZE: { ℕ };

    ghost layout: { Layout };

    // Writes a payload into the cell at the front of `part`, until power fails. A part with no room for a cell stays.
    fn write(part: &mut [u8], payload: [u8; 32], supply: &mut Supply) -> bool
        ensures room { layout.size ≤ length part.old → Asks layout.steps (λ k. layout.after k part.old payload) supply.old result part.new supply.new }
        ensures short { length part.old < layout.size → (result ≡ false) × (part.new ≡ part.old) × (supply.new ≡ supply.old) };

    // The block in the cell at the front of `part`, damaged where there is no room for a cell.
    fn block(part: &[u8]) -> Block
        ensures room { layout.size ≤ length part.now → result ≡ layout.content (take layout.size part.now) }
        ensures short { length part.now < layout.size → result ≡ Damaged };

    ghost sized: { SIZE ≡ layout.size };

    ghost lawful: { Lawful layout };
}

// The bytes of cells of one kind, and the power that writes them.
#[derive(Drop)]
pub struct Cells<C> {
    bytes: Vec<u8>,
    supply: Supply,
    kind: PhantomData<C>,
}

impl<C: Cell> Cells<C> {
    // A device of these bytes with power off.
    pub fn new(bytes: Vec<u8>, cuts: Vec<u32>) -> Cells<C>
        ensures bytes { result.bytes ≡ bytes }
        ensures cuts { cells_cuts result ≡ cuts.items }
        ensures off { cells_on result ≡ false }
    {
        Cells {
            bytes,
            supply: Supply::new(cuts),
            kind: PhantomData,
        }
    }

    pub fn bytes(&self) -> &[u8]
        ensures { result.now ≡ self.now.bytes.items }
    {
        self.bytes.as_slice()
    }
}

impl<C: Cell> Device for Cells<C> {
    ghost blocks = { cells_blocks C.layout };

    ghost powered = { cells_on };

    ghost raises = { CellsRaises };

    ghost reads = { CellsReads C.layout };

    ghost writes = { CellsWrites C.layout };

    ghost raised = { λ d e w. (ap (λ v. blocks_by C.layout.size C.layout.content v.items) w.bytes, w.supply.on) };

    ghost reading = { rule.reading C.layout };

    ghost writing = { rule.writing C.layout C.lawful };

    ghost unread = { λ d e at w. w.same };

    ghost unwritten = { rule.unwritten C.layout };

    fn block_count(&self) -> usize
        ensures blocks { result ≡ length (cells_blocks C.layout self.now) }
        ensures fit { result ≡ vec_len self.now.bytes / C.SIZE }
    {
        self.bytes.len() / C::SIZE
    }

    fn is_on(&self) -> bool {
        self.supply.is_on()
    }

    fn power_up(&mut self) {
        self.supply.raise();
    }

    fn read(&mut self, at: usize) -> Result<Block, DeviceFault> {
        self.admit(at)?;
        Ok(C::block(&self.bytes[C::SIZE * at..]))
    }

    fn write(&mut self, at: usize, bytes: [u8; 32]) -> Result<(), DeviceFault> {
        self.admit(at)?;
        if C::write(&mut self.bytes[C::SIZE * at..], bytes, &mut self.supply) {
            Ok(())
        } else {
            Err(DeviceFault::PowerLost { block: at })
        }
    }
}
