// Every cut of a replacement, byte by byte, and every cut of the recovery after it.
use crate::kinds::{Kind, Side};
use crate::pairs::Pair;
use crate::rule::{Standing, after_cut, recovered_block, recovery_writes, replaced_block, writes};
use crate::show::show_sweep;
use crate::trial::{Seen, Tally, Trial, lost_at};
use fault::Report;
use schema::Schema;
use std::alloc::{AllocError, Global};

// What a trial is about, and what was seen of the cuts of the replacement and of those of the recovery.
#[derive(Drop)]
struct Sweep {
    kind: Kind,
    schema: Schema,
    pair: Pair,
    cut: Tally,
    again: Tally,
}

fn stands(new: bool) -> Seen {
    if new { Seen::New } else { Seen::Old }
}

impl Sweep {
    // The recoveries after a replacement that ended so: cut at each of their byte writes, and finished.
    fn recoveries(
        &mut self,
        heap: Global,
        cut: u32,
        replaced: Option<Report>,
        after: Standing,
    ) -> Result<(), AllocError> {
        let mut expected = Trial {
            replaced,
            recovered: None,
            seen: stands(after.new),
        };
        let mut q = 0u32;
        for write in 0..recovery_writes(&self.pair, after) {
            expected.recovered = lost_at(recovered_block(&self.pair, write));
            for _ in 0..self.kind.second().width() {
                let trial = self.kind.trial(heap, &self.schema, &self.pair, (cut, q))?;
                self.again.note(trial, expected);
                q = q.saturating_add(1);
            }
        }
        expected.recovered = None;
        let trial = self.kind.trial(heap, &self.schema, &self.pair, (cut, q))?;
        self.cut.note(trial, expected);
        Ok(())
    }

    fn run(&mut self, heap: Global) -> Result<(), AllocError> {
        let mut p = 0u32;
        for write in 0..writes(&self.pair) {
            let replaced = lost_at(replaced_block(&self.pair, write));
            for bytes in 0..self.kind.first().width() {
                let after = after_cut(&self.pair, write, self.kind.leaves(bytes));
                self.recoveries(heap, p, replaced, after)?;
                p = p.saturating_add(1);
            }
        }
        Ok(())
    }
}

// Whether power that lasts for all byte writes of a replacement, and not for one more, lets it finish.
fn lasts(heap: Global, kind: Kind, schema: &Schema, pair: &Pair) -> Result<bool, AllocError> {
    let mut tally = Tally::none();
    let expected = Trial {
        replaced: None,
        recovered: None,
        seen: Seen::New,
    };
    let p = writes(pair).saturating_mul(kind.first().width());
    tally.note(kind.trial(heap, schema, pair, (p, 0))?, expected);
    Ok(tally.new == 1)
}

// The cuts of a replacement by the rules. With w byte writes to a block there are (2 c + 2) w; the first (c + 1) w leave the old
// configuration. A mirror that loses its image has the new header once the image's first byte is written, after c w + 1.
fn expected_cuts(kind: Kind, pair: &Pair) -> Tally {
    let w = kind.first().width();
    let c = pair.count();
    let cuts = writes(pair).saturating_mul(w);
    let old = match kind {
        Kind::Mirror(Side::Image, _) => c.saturating_mul(w).saturating_add(1),
        _ => c.saturating_add(1).saturating_mul(w),
    };
    Tally {
        cuts,
        old,
        new: cuts.saturating_sub(old),
        other: 0,
    }
}

// The cuts of recoveries by the rules: (c + 1) w for each cut that leaves a header with targets. There are c w + 1 such cuts, up
// to the first byte of the empty header; of a mirror (c + 1) w.
fn expected_again(kind: Kind, pair: &Pair) -> Tally {
    let w = kind.first().width();
    let c = pair.count();
    let named = match kind {
        Kind::One(_) => c.saturating_mul(w).saturating_add(1),
        Kind::Mirror(_, _) => c.saturating_add(1).saturating_mul(w),
    };
    let each = c.saturating_add(1).saturating_mul(kind.second().width());
    let cuts = named.saturating_mul(each);
    Tally {
        cuts,
        old: 0,
        new: cuts,
        other: 0,
    }
}

pub(crate) fn sweep_bytes(
    rt: &HostRuntime,
    kind: Kind,
    schema: &Schema,
    pair: &Pair,
) -> anyhow::Result<()> {
    let heap = rt.alloc();
    let mut sweep = Sweep {
        kind,
        schema: *schema,
        pair: *pair,
        cut: Tally::none(),
        again: Tally::none(),
    };
    sweep.run(heap)?;
    let good = lasts(heap, kind, schema, pair)?
        && sweep.cut == expected_cuts(kind, pair)
        && sweep.again == expected_again(kind, pair);
    show_sweep(rt, kind.name(), pair, (sweep.cut, sweep.again), good)
}
