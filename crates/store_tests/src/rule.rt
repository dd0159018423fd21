// What the rules say of a replacement that power cuts, and of the recovery after it.
//
// With c home blocks to change a replacement makes 2 c + 2 writes: c records, the header, c home blocks, the empty header. From
// the header on the new configuration stands. Until the header is empty or damaged again, a recovery reads c records and makes
// c + 1 writes: c home blocks, the empty header.
use crate::pairs::Pair;

// What a cut write leaves in its block.
#[derive(Clone, Copy, PartialEq, Eq, Debug)]
pub(crate) enum Left {
    Before,
    New,
    Damaged,
}

// Which configuration stands, and whether the header names home blocks.
#[derive(Clone, Copy)]
pub(crate) struct Standing {
    pub(crate) new: bool,
    pub(crate) named: bool,
}

// The number of writes of a replacement.
pub(crate) fn writes(pair: &Pair) -> u32 {
    2 * u32::from(pair.changed) + 2
}

// The block of a replacement's write.
pub(crate) fn replaced_block(pair: &Pair, write: u32) -> u32 {
    let c = pair.count();
    if write < c {
        return write.saturating_add(1);
    }
    if write == c {
        return 0;
    }
    recovered_block(pair, write - c - 1)
}

// The block of a recovery's write.
pub(crate) fn recovered_block(pair: &Pair, write: u32) -> u32 {
    if write < pair.count() {
        pair.target(write)
    } else {
        0
    }
}

// The number of writes of a recovery.
pub(crate) fn recovery_writes(pair: &Pair, standing: Standing) -> u32 {
    if standing.named {
        u32::from(pair.changed) + 1
    } else {
        0
    }
}

// What stands once a write of the replacement was cut.
pub(crate) fn after_cut(pair: &Pair, write: u32, left: Left) -> Standing {
    let c = pair.count();
    let header = write == c && left == Left::New;
    let last = write.saturating_add(1) == writes(pair);
    Standing {
        new: header || write > c,
        named: header || write > c && !(last && left != Left::Before),
    }
}

// The number of records that a recovery reads.
fn records(pair: &Pair, standing: Standing) -> u32 {
    if standing.named { pair.count() } else { 0 }
}

// The block of a recovery's access, a read or a write.
pub(crate) fn accessed_block(pair: &Pair, standing: Standing, access: u32) -> u32 {
    let records = records(pair, standing);
    if access <= records {
        return access;
    }
    let write = access - records - 1;
    let writes = recovery_writes(pair, standing);
    if write < writes {
        recovered_block(pair, write)
    } else {
        (write - writes).saturating_add(26)
    }
}

// The number of a recovery's accesses: the header, the records, the writes, 25 home blocks.
pub(crate) fn accesses(pair: &Pair, standing: Standing) -> u32 {
    recovery_writes(pair, standing)
        .saturating_add(records(pair, standing))
        .saturating_add(26)
}
