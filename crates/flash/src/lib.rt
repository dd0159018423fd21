// A device in flash memory: block i takes the 33 bytes from 33 times i, 32 payload bytes and a mark, and is good exactly
// when the mark is 0x00. Erasing a byte gives 0xFF, and programming one only clears bits.
#![tactic(auto)]

ghost use Rattle.std.specs.Prelude.{◌≡◌, ◌≤◌, ℕ, List, length, bit_and, cond, Result, refl};
ghost use Rattle.supply.specs.Budget.{Asked};
ghost use Rattle.flash.specs.Cell.{erase_steps, program_steps, flash_layout, EveryCut, InOrder};
ghost use Rattle.flash.specs.Ran.{RanAsked};
ghost use Rattle.flash.specs.Rule as rule;
ghost use Rattle.flash.specs.Steps.{flash_blocks, flash_on, FlashRaises, FlashReads, FlashWrites};
ghost use Rattle.flash.specs.declared.Marked.{Marked};
ghost use Rattle.cells.specs.declared.Cells.{Cells};
ghost use Rattle.device.specs.declared.Block.{Block};
ghost use Rattle.device.specs.declared.DeviceFault.{DeviceFault};

use cells::{Cell, Cells};
use device::{Block, Device};
use supply::Supply;

const MARK: usize = 32;

const ERASED: u8 = 0xFF;

const WRITTEN: u8 = 0x00;

// Erases the cell at the front of `part`, the mark first, until power fails.
fn erase_cell(part: &mut [u8], supply: &mut Supply) -> bool
    requires { 33 ≤ length part.old }
    ensures { RanAsked erase_steps part.old supply.old result part.new supply.new }
{
    supply.write(&mut part[MARK], ERASED) && supply.write_all(part, &[ERASED; MARK])
}

// Programs one byte, unless power fails at it.
fn program(slot: &mut u8, byte: u8, supply: &mut Supply) -> bool
    ensures slot { slot.new ≡ cond result (bit_and slot.old byte) slot.old }
    ensures power { Asked 1 supply.old result supply.new }
{
    let both = *slot & byte;
    supply.write(slot, both)
}

// Programs the cell at the front of `part`, the mark last, until power fails.
fn program_cell(part: &mut [u8], payload: [u8; 32], supply: &mut Supply) -> bool
    requires { 33 ≤ length part.old }
    ensures { RanAsked (program_steps payload) part.old supply.old result part.new supply.new }
{
    // By index: of the slice behind a zipped `iter_mut` nothing is known in the end.
    for (i, byte) in payload.iter().enumerate() {
        if !program(&mut part[i], *byte, supply) {
            return false;
        }
    }
    program(&mut part[MARK], WRITTEN, supply)
}

// Cells with a mark.
#[derive(Drop)]
pub struct Marked;

// The bytes, and the power that writes them.
pub type Flash = Cells<Marked>;

impl Cell for Marked {
    const SIZE: usize = 33;

    ghost SIZE = { 33 };

    ghost layout = { flash_layout };

    ghost sized = { refl };

    ghost lawful = { rule.lawful };

    fn write(part: &mut [u8], payload: [u8; 32], supply: &mut Supply) -> bool {
        if part.len() < Self::SIZE {
            return false;
        }
        erase_cell(part, supply) && program_cell(part, payload, supply)
    }

    fn block(part: &[u8]) -> Block {
        if part.len() < Self::SIZE {
            return Block::Damaged;
        }
        if part[MARK] != WRITTEN {
            return Block::Damaged;
        }
        let mut payload = [0; 32];
        payload.copy_from_slice(&part[0..MARK]);
        Block::Good(payload)
    }
}

// law: a cell with some of its 66 byte writes done is as before, damaged, or good with the new bytes; and no byte outside
// the cell is touched. As a device a flash is what is stated of flashes.
pub fn byte_steps() -> u8
    ensures tears { EveryCut }
    ensures order { InOrder }
    ensures views { (d : Cells Marked) → (⟦<Flash as Device>⟧.blocks d ≡ flash_blocks d) × (⟦<Flash as Device>⟧.powered d ≡ flash_on d) }
    ensures raises { (d e : Cells Marked) → ⟦<Flash as Device>⟧.raises d e → FlashRaises d e }
    ensures reads { (d e : Cells Marked) (at : ℕ) (r : Result Block DeviceFault) → ⟦<Flash as Device>⟧.reads d at r e → FlashReads d at r e }
    ensures writes { (d e : Cells Marked) (at : ℕ) (bytes : List ℕ) (r : Result Unit DeviceFault) → ⟦<Flash as Device>⟧.writes d at bytes r e → FlashWrites d at bytes r e }
{
    0
}
