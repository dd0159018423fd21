// A device in a byte image: block i takes the 34 bytes from 34 times i, a front byte, 32 payload bytes and a back byte,
// and is good exactly when front and back are equal.
#![tactic(auto)]

ghost use Rattle.std.specs.Prelude.{◌≡◌, ℕ, List, [], ◌∷◌, ◌++◌, Result, refl};
ghost use Rattle.image.specs.Cell.{image_layout, EveryCut, InOrder};
ghost use Rattle.image.specs.Rule as rule;
ghost use Rattle.image.specs.Steps.{image_blocks, image_on, ImageRaises, ImageReads, ImageWrites};
ghost use Rattle.image.specs.declared.Framed.{Framed};
ghost use Rattle.cells.specs.declared.Cells.{Cells};
ghost use Rattle.device.specs.declared.Block.{Block};
ghost use Rattle.device.specs.declared.DeviceFault.{DeviceFault};

use cells::{Cell, Cells};
use device::{Block, Device};
use supply::Supply;

const BACK: usize = 33;

// What a write of a payload writes, byte by byte: front, payload, back.
fn stamped(stamp: u8, payload: [u8; 32]) -> [u8; 34]
    ensures { result ≡ stamp ∷ (payload ++ stamp ∷ []) }
{
    let mut cell = [stamp; 34];
    cell[1..BACK].copy_from_slice(&payload);
    cell
}

// Cells with a front byte and a back byte.
#[derive(Drop)]
pub struct Framed;

// The bytes, and the power that writes them.
pub type Image = Cells<Framed>;

impl Cell for Framed {
    const SIZE: usize = 34;

    ghost SIZE = { 34 };

    ghost layout = { image_layout };

    ghost sized = { refl };

    ghost lawful = { rule.lawful };

    // In byte order. Front and back get the old back byte plus 1.
    fn write(part: &mut [u8], payload: [u8; 32], supply: &mut Supply) -> bool {
        if part.len() < Self::SIZE {
            return false;
        }
        let cell = stamped(part[BACK].wrapping_add(1), payload);
        supply.write_all(part, &cell)
    }

    fn block(part: &[u8]) -> Block {
        if part.len() < Self::SIZE {
            return Block::Damaged;
        }
        if part[0] != part[BACK] {
            return Block::Damaged;
        }
        let mut payload = [0; 32];
        payload.copy_from_slice(&part[1..BACK]);
        Block::Good(payload)
    }
}

// law: a cell with some of its byte writes done is as before, damaged, or good with the new bytes; and each byte of an
// image is written or kept. As a device an image is what is stated of images.
pub fn byte_order() -> u8
    ensures tears { EveryCut }
    ensures order { InOrder }
    ensures views { (d : Cells Framed) → (⟦<Image as Device>⟧.blocks d ≡ image_blocks d) × (⟦<Image as Device>⟧.powered d ≡ image_on d) }
    ensures raises { (d e : Cells Framed) → ⟦<Image as Device>⟧.raises d e → ImageRaises d e }
    ensures reads { (d e : Cells Framed) (at : ℕ) (r : Result Block DeviceFault) → ⟦<Image as Device>⟧.reads d at r e → ImageReads d at r e }
    ensures writes { (d e : Cells Framed) (at : ℕ) (bytes : List ℕ) (r : Result Unit DeviceFault) → ⟦<Image as Device>⟧.writes d at bytes r e → ImageWrites d at bytes r e }
{
    0
}
