// Every cut of a replacement, access by access, and every cut of the recovery after it, at reads too: on a device that leaves a
// cut write's block as before, new or damaged.
use crate::pairs::Pair;
use crate::rule::{Left, Standing, accessed_block, accesses, after_cut, replaced_block, writes};
use crate::show::show_sweep;
use crate::trial::{Seen, Tally, Trial, lost_at, try_pair};
use device::Block;
use schema::Schema;
use scripted::{Outcome, Scripted};
use std::alloc::{AllocError, Global};

const LOSSES: [(Outcome, Left); 3] = [
    (Outcome::LostBefore, Left::Before),
    (Outcome::LostWritten, Left::New),
    (Outcome::LostTorn, Left::Damaged),
];

// The outcomes so far, then so many accesses that are done, then a loss.
fn then(script: &mut Vec<Outcome>, done: u32, loss: Outcome) -> Result<(), AllocError> {
    for _ in 0..done {
        script.push(Outcome::Done)?;
    }
    script.push(loss)?;
    Ok(())
}

// The outcomes of a format and of a replacement that is lost at this write.
fn lost_write(heap: Global, write: u32, loss: Outcome) -> Result<Vec<Outcome>, AllocError> {
    let mut script = Vec::new(heap);
    then(&mut script, write.saturating_add(26), loss)?;
    Ok(script)
}

fn run(
    heap: Global,
    schema: &Schema,
    pair: &Pair,
    script: Vec<Outcome>,
) -> Result<Trial, AllocError> {
    let blocks = vec![in heap; Block::Damaged; 51]?;
    Ok(try_pair(&mut Scripted::new(blocks, script), schema, pair))
}

// The recoveries after a replacement that was lost so: cut at each of their accesses.
fn recoveries(
    heap: Global,
    schema: &Schema,
    pair: &Pair,
    lost: (u32, Outcome),
    after: Standing,
    again: &mut Tally,
) -> Result<(), AllocError> {
    let mut expected = expected_trial(pair, lost.0, after);
    for access in 0..accesses(pair, after) {
        expected.recovered = lost_at(accessed_block(pair, after, access));
        for (loss, _) in LOSSES {
            let mut script = lost_write(heap, lost.0, lost.1)?;
            then(&mut script, access, loss)?;
            again.note(run(heap, schema, pair, script)?, expected);
        }
    }
    Ok(())
}

// A replacement lost at this write, and a finished recovery.
fn expected_trial(pair: &Pair, write: u32, after: Standing) -> Trial {
    Trial {
        replaced: lost_at(replaced_block(pair, write)),
        recovered: None,
        seen: if after.new { Seen::New } else { Seen::Old },
    }
}

// By the rules: each of 2 c + 2 writes in three ways; the records and two ways of the header leave the old configuration.
fn expected_cuts(pair: &Pair) -> Tally {
    let c = u32::from(pair.changed);
    Tally {
        cuts: 6 * c + 6,
        old: 3 * c + 2,
        new: 3 * c + 4,
        other: 0,
    }
}

// By the rules: a recovery of the old configuration has 26 accesses, each lost in three ways; with targets, which are named after
// 3 c + 2 of the cuts, it has 2 c + 27; two ways of the last write leave none.
fn expected_again(pair: &Pair) -> Tally {
    let c = u32::from(pair.changed);
    let named = 3 * c + 2;
    let old = named * 78;
    let new = named.saturating_mul(6 * c + 81).saturating_add(156);
    Tally {
        cuts: old.saturating_add(new),
        old,
        new,
        other: 0,
    }
}

pub(crate) fn sweep_scripted(rt: &HostRuntime, schema: &Schema, pair: &Pair) -> anyhow::Result<()> {
    let heap = rt.alloc();
    let mut cut = Tally::none();
    let mut again = Tally::none();
    for write in 0..writes(pair) {
        for (loss, left) in LOSSES {
            let after = after_cut(pair, write, left);
            let script = lost_write(heap, write, loss)?;
            cut.note(
                run(heap, schema, pair, script)?,
                expected_trial(pair, write, after),
            );
            recoveries(heap, schema, pair, (write, loss), after, &mut again)?;
        }
    }
    let good = cut == expected_cuts(pair) && again == expected_again(pair);
    show_sweep(rt, "scripted", pair, (cut, again), good)
}
