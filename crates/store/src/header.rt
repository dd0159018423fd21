// The header of the journal.
ghost use Rattle.journal.specs.Layout.{header_of, parse, rising};
ghost use Rattle.std.specs.Option.{option_map};
ghost use Rattle.store.specs.Targets.{listed};
ghost use Rattle.std.specs.Prelude.{◌≡◌, take, drop};

use crate::layout::{BLOCKS, FIRST_HOME, HOMES};
use crate::targets::Targets;
use table::Slots;

// The count of the targets, the targets, and zeros.
pub(crate) fn header(targets: &Targets) -> [u8; 32]
    ensures { result ≡ header_of (listed targets.now) }
{
    let blocks = targets.blocks.as_slice();
    let mut bytes = [0; 32];
    bytes[0] = blocks.len() as u8;
    bytes[1..1 + blocks.len()].copy_from_slice(blocks);
    bytes
}

// The blocks are home blocks in strictly rising order.
// Tried as `is_sorted_by` and `all`: what their closures compute stayed open.
fn rise(blocks: &[u8]) -> bool
    ensures { result ≡ rising 26 blocks.now }
{
    let mut least = FIRST_HOME;
    for block in blocks {
        let at = usize::from(*block);
        if at < least || at >= BLOCKS {
            return false;
        }
        least = at + 1;
    }
    true
}

// The places of the targets.
fn target_bytes(bytes: &[u8; 32]) -> [u8; HOMES]
    ensures { result ≡ take 25 (drop 1 bytes.now) }
{
    let mut blocks = [0; HOMES];
    blocks.copy_from_slice(&bytes[1..1 + HOMES]);
    blocks
}

// The targets that a header names, if the bytes are of a header's form.
pub(crate) fn parse_header(bytes: &[u8; 32]) -> Option<Targets>
    ensures { option_map listed result ≡ parse bytes.now }
{
    let blocks = Slots::first(target_bytes(bytes), usize::from(bytes[0]));
    if !rise(blocks.as_slice()) {
        return None;
    }
    let targets = Targets { blocks };
    (header(&targets) == *bytes).then_some(targets)
}
