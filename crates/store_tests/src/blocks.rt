// Blocks as a format leaves them, and changes to them.
use crate::pairs::Pair;
use device::Block;
use scripted::Scripted;
use std::alloc::{AllocError, Global};
use store::format;

// Home block 27 of the stored configuration: interface 4 and its MTU of 1500.
const ENTRIES: [u8; 32] = [
    1, 0, 0, 0, 0, 0, 0, 4, 0, 0, 0, 0, 0, 0, 0, 0, 2, 0, 0, 0, 0, 0, 0, 4, 0, 0, 0, 0, 0, 0, 5,
    220,
];

// These bytes, and zeros after them.
fn padded(front: &[u8]) -> [u8; 32] {
    let mut bytes = [0; 32];
    let count = front.len().min(32);
    bytes[..count].copy_from_slice(&front[..count]);
    bytes
}

// A block of these bytes, and zeros after them.
pub(crate) fn page(front: &[u8]) -> Block {
    Block::Good(padded(front))
}

// Home block 27 with other bytes at some places.
pub(crate) fn entries_but(changes: &[(usize, u8)]) -> Block {
    let mut bytes = ENTRIES;
    for (at, byte) in changes {
        if let Some(place) = bytes.get_mut(*at) {
            *place = *byte;
        }
    }
    Block::Good(bytes)
}

// These bytes, zeros after them, and 1 as the last byte.
pub(crate) fn last_byte(front: &[u8]) -> Block {
    let mut bytes = padded(front);
    bytes[31] = 1;
    Block::Good(bytes)
}

pub(crate) fn put(blocks: &mut Vec<Block>, at: usize, block: Block) {
    if let Some(place) = blocks.get_mut(at) {
        *place = block;
    }
}

// The same block in some places.
pub(crate) fn fill(blocks: &mut Vec<Block>, from: usize, end: usize, block: Block) {
    for place in blocks.iter_mut().take(end).skip(from) {
        *place = block;
    }
}

// The blocks that a format of the pair's new configuration leaves where all were damaged.
pub(crate) fn formatted(heap: Global, pair: &Pair) -> Result<Vec<Block>, AllocError> {
    let mut device = Scripted::new(vec![in heap; Block::Damaged; 51]?, Vec::new(heap));
    let _ = format(&mut device, &pair.new);
    device.blocks().to_vec(heap)
}

// What they have to be: an empty header, damaged records, the version and the count, the entries, zeros.
pub(crate) fn by_the_rules(heap: Global) -> Result<Vec<Block>, AllocError> {
    let mut blocks = vec![in heap; page(&[]); 51]?;
    fill(&mut blocks, 1, 26, Block::Damaged);
    put(&mut blocks, 26, page(&[1, 2]));
    put(&mut blocks, 27, entries_but(&[]));
    Ok(blocks)
}
