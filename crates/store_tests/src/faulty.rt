// What a recovery says of blocks that are at fault, and what it leaves of them.
use crate::blocks::{by_the_rules, entries_but, fill, last_byte, page, put};
use crate::show::word;
use crate::trial::refusal;
use config::Config;
use device::Block;
use fault::Report;
use schema::Schema;
use scripted::Scripted;
use store::{StoreFault, recover};

// What became of the blocks.
fn left(before: &[Block], after: &[Block]) -> &'static str {
    if after == before {
        return "blocks kept";
    }
    match after.first() {
        Some(header) if *header == page(&[]) => "header emptied",
        _ => "blocks changed",
    }
}

fn show_answer(rt: &impl Print, answer: Result<Config, StoreFault>) -> anyhow::Result<()> {
    match answer {
        Ok(config) => {
            for entry in config.entries() {
                print!(rt; " [{}]", *entry)?;
            }
        }
        Err(fault) => match fault.report() {
            Some(report) => print!(rt; " no {report}")?,
            None => print!(rt; " refused")?,
        },
    }
    Ok(())
}

// Recovers from these blocks.
fn show_recovery(
    rt: &HostRuntime,
    schema: &Schema,
    what: &str,
    blocks: Vec<Block>,
) -> anyhow::Result<()> {
    let before = blocks.as_slice().to_vec(rt.alloc())?;
    let mut device = Scripted::new(blocks, Vec::new(rt.alloc()));
    print!(rt; "{what}:")?;
    show_answer(rt, recover(&mut device, schema))?;
    println!(rt; ", {}", left(&before, device.blocks()))?;
    Ok(())
}

// With this header and good records.
fn header(rt: &HostRuntime, schema: &Schema, what: &str, front: Block) -> anyhow::Result<()> {
    let mut blocks = by_the_rules(rt.alloc())?;
    fill(&mut blocks, 1, 26, entries_but(&[]));
    put(&mut blocks, 0, front);
    show_recovery(rt, schema, what, blocks)
}

// With this home block.
fn home(
    rt: &HostRuntime,
    schema: &Schema,
    what: &str,
    at: usize,
    block: Block,
) -> anyhow::Result<()> {
    let mut blocks = by_the_rules(rt.alloc())?;
    put(&mut blocks, at, block);
    show_recovery(rt, schema, what, blocks)
}

// A header with so many targets, from a first one on.
fn targets(count: u8, first: u8) -> Block {
    let mut front = [0; 32];
    front[0] = count;
    for (target, i) in front[1..].iter_mut().zip(0..count) {
        *target = first.wrapping_add(i);
    }
    Block::Good(front)
}

pub(crate) fn headers(rt: &HostRuntime, schema: &Schema) -> anyhow::Result<()> {
    header(rt, schema, "header, count 26", targets(26, 26))?;
    header(rt, schema, "header, count 255", targets(255, 26))?;
    header(rt, schema, "header, target 25", targets(1, 25))?;
    header(rt, schema, "header, target 51", targets(1, 51))?;
    header(rt, schema, "header, targets 50 and 51", targets(2, 50))?;
    header(rt, schema, "header, targets 28 and 27", page(&[2, 28, 27]))?;
    header(rt, schema, "header, target 27 twice", page(&[2, 27, 27]))?;
    header(
        rt,
        schema,
        "header, a target past the count",
        page(&[1, 27, 28]),
    )?;
    header(rt, schema, "header, a target and no count", page(&[0, 27]))?;
    header(rt, schema, "header, its last byte", last_byte(&[1, 27]))?;
    header(rt, schema, "empty header, its last byte", last_byte(&[]))
}

pub(crate) fn images(rt: &HostRuntime, schema: &Schema) -> anyhow::Result<()> {
    home(rt, schema, "version 0", 26, page(&[0, 2]))?;
    home(rt, schema, "version 2", 26, page(&[2, 2]))?;
    home(rt, schema, "count 49", 26, page(&[1, 49]))?;
    home(rt, schema, "count 255", 26, page(&[1, 255]))?;
    home(rt, schema, "count 3 of two entries", 26, page(&[1, 3]))?;
    home(rt, schema, "count 1 of two entries", 26, page(&[1, 1]))?;
    home(rt, schema, "block 26, its third byte", 26, page(&[1, 2, 1]))?;
    home(
        rt,
        schema,
        "block 26, its last byte",
        26,
        last_byte(&[1, 2]),
    )?;
    home(rt, schema, "block 28, its first byte", 28, page(&[1]))?;
    home(rt, schema, "block 50, its last byte", 50, last_byte(&[]))?;
    home(rt, schema, "entry, a zero byte", 27, entries_but(&[(1, 1)]))?;
    home(rt, schema, "entry, node 3", 27, entries_but(&[(16, 3)]))?;
    home(rt, schema, "entry, key 10", 27, entries_but(&[(7, 10)]))?;
    home(rt, schema, "entry, MTU 1501", 27, entries_but(&[(31, 221)]))?;
    home(
        rt,
        schema,
        "entry, no list entry",
        27,
        entries_but(&[(23, 5)]),
    )?;
    let twice = entries_but(&[(16, 1), (30, 0), (31, 0)]);
    home(rt, schema, "entry, twice", 27, twice)?;
    home(
        rt,
        schema,
        "entry, MTU 64",
        27,
        entries_but(&[(30, 0), (31, 64)]),
    )
}

// What is not at fault, or is at fault twice.
pub(crate) fn mixed(rt: &HostRuntime, schema: &Schema) -> anyhow::Result<()> {
    home(rt, schema, "damaged header", 0, Block::Damaged)?;
    home(rt, schema, "damaged record, no target", 1, Block::Damaged)?;
    let mut blocks = by_the_rules(rt.alloc())?;
    put(&mut blocks, 0, page(&[1, 27]));
    put(&mut blocks, 1, entries_but(&[(30, 4), (31, 176)]));
    show_recovery(rt, schema, "MTU 1200 journalled, record 2 damaged", blocks)?;
    let mut blocks = by_the_rules(rt.alloc())?;
    put(&mut blocks, 0, page(&[1, 50]));
    put(&mut blocks, 1, page(&[]));
    put(&mut blocks, 50, Block::Damaged);
    show_recovery(rt, schema, "block 50 damaged and journalled", blocks)?;
    let mut blocks = by_the_rules(rt.alloc())?;
    put(&mut blocks, 26, page(&[2, 2]));
    put(&mut blocks, 50, Block::Damaged);
    show_recovery(rt, schema, "version 2, block 50 damaged", blocks)?;
    let mut blocks = by_the_rules(rt.alloc())?;
    put(&mut blocks, 0, page(&[1, 26]));
    put(&mut blocks, 1, page(&[2, 2]));
    show_recovery(rt, schema, "version 2 journalled", blocks)
}

// Whether these blocks are refused by 37 with this cause, and kept.
fn told(
    rt: &HostRuntime,
    schema: &Schema,
    blocks: Vec<Block>,
    cause: usize,
) -> anyhow::Result<bool> {
    let before = blocks.as_slice().to_vec(rt.alloc())?;
    let mut device = Scripted::new(blocks, Vec::new(rt.alloc()));
    let report = refusal(recover(&mut device, schema));
    let expected = u32::try_from(cause)
        .ok()
        .map(|block| Report::plain(37).because(block));
    Ok(report == expected && device.blocks() == before.as_slice())
}

// The first damaged record of 25, and the first damaged home block, is told wherever it stands.
pub(crate) fn damaged(rt: &HostRuntime, schema: &Schema) -> anyhow::Result<()> {
    let mut good = true;
    for record in 1..26 {
        let mut blocks = by_the_rules(rt.alloc())?;
        put(&mut blocks, 0, targets(25, 26));
        fill(&mut blocks, 1, record, page(&[]));
        good = told(rt, schema, blocks, record)? && good;
    }
    println!(rt; "damaged from each record on: {}", word(good))?;
    good = true;
    for block in 26..51 {
        let mut blocks = by_the_rules(rt.alloc())?;
        fill(&mut blocks, block, 51, Block::Damaged);
        good = told(rt, schema, blocks, block)? && good;
    }
    println!(rt; "damaged from each home block on: {}", word(good))?;
    Ok(())
}
