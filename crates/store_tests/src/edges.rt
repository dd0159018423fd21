// Formats that power cuts; devices that are too small, off, or only lose power; and replacements of a configuration by itself.
use crate::blocks::{by_the_rules, formatted};
use crate::kinds;
use crate::kinds::Side;
use crate::pairs::Pair;
use crate::show::word;
use crate::trial::{lost_at, refusal};
use config::Config;
use device::{Block, Device};
use fault::Report;
use flash::Flash;
use image::Image;
use mirror::Mirror;
use schema::Schema;
use scripted::{Doomed, Scripted};
use std::alloc::{AllocError, Global};
use store::{StoreFault, format, recover, replace};

// An image of so many blocks and 33 bytes more.
fn image(heap: Global, blocks: u8, cut: u32) -> Result<Image, AllocError> {
    kinds::image(heap, 34 * usize::from(blocks) + 33, &[cut])
}

// A flash of so many blocks and 32 bytes more.
fn flash(heap: Global, blocks: u8, cut: u32) -> Result<Flash, AllocError> {
    kinds::flash(heap, 33 * usize::from(blocks) + 32, &[cut])
}

// A format that is cut tells this block; formatted again, the device gives the configuration.
fn format_again<D: Device>(device: &mut D, schema: &Schema, pair: &Pair, block: u32) -> bool {
    let first = refusal(format(device, &pair.old));
    let second = format(device, &pair.new).is_ok();
    let seen = recover(device, schema) == Ok(pair.new);
    first == lost_at(block) && second && seen
}

// Every cut of a format.
pub(crate) fn formats(
    rt: &HostRuntime,
    schema: &Schema,
    pair: &Pair,
    side: Side,
) -> anyhow::Result<()> {
    let heap = rt.alloc();
    let mut cut = 0u32;
    let mut good = true;
    for write in 0..26 {
        let block = if write < 25 { 26 + write } else { 0 };
        for _ in 0..side.width() {
            let again = match side {
                Side::Image => format_again(&mut image(heap, 51, cut)?, schema, pair, block),
                Side::Flash => format_again(&mut flash(heap, 51, cut)?, schema, pair, block),
            };
            good = again && good;
            cut = cut.saturating_add(1);
        }
    }
    println!(rt; "{cut} cuts of a format: {}", word(good))?;
    Ok(())
}

fn show<T: Drop>(rt: &impl Print, what: &str, answer: Result<T, StoreFault>) -> anyhow::Result<()> {
    match answer {
        Ok(_) => println!(rt; "  {what}: done")?,
        Err(fault) => match fault.report() {
            Some(report) => println!(rt; "  {what}: no {report}")?,
            None => println!(rt; "  {what}: refused access")?,
        },
    }
    Ok(())
}

// Each call of the store, and whether the device is on after it.
fn calls<D: Device>(
    rt: &impl Print,
    what: &str,
    device: &mut D,
    schema: &Schema,
    pair: &Pair,
) -> anyhow::Result<()> {
    println!(rt; "{what}")?;
    show(rt, "unchanged", replace(device, &pair.new, &pair.new))?;
    show(rt, "replace", replace(device, &pair.old, &pair.new))?;
    println!(rt; "  on: {}", device.is_on())?;
    show(rt, "format", format(device, &pair.new))?;
    println!(rt; "  on: {}", device.is_on())?;
    show(rt, "recover", recover(device, schema))?;
    println!(rt; "  on: {}", device.is_on())?;
    Ok(())
}

pub(crate) fn small(rt: &HostRuntime, schema: &Schema, pair: &Pair) -> anyhow::Result<()> {
    let heap = rt.alloc();
    calls(
        rt,
        "image of 50 blocks",
        &mut image(heap, 50, 0)?,
        schema,
        pair,
    )?;
    calls(
        rt,
        "flash of 50 blocks",
        &mut flash(heap, 50, 0)?,
        schema,
        pair,
    )?;
    let mut mirror = Mirror::new(image(heap, 51, 0)?, flash(heap, 50, 0)?);
    calls(rt, "mirror of 51 and 50 blocks", &mut mirror, schema, pair)?;
    let mut none = Image::new(Vec::new(heap), Vec::new(heap));
    calls(rt, "image of no block", &mut none, schema, pair)?;
    let mut doomed = Doomed::new(vec![in heap; Block::Damaged; 51]?);
    calls(
        rt,
        "device that only loses power",
        &mut doomed,
        schema,
        pair,
    )?;
    let mut scripted = Scripted::new(vec![in heap; Block::Damaged; 51]?, Vec::new(heap));
    calls(
        rt,
        "device of 51 blocks, off at first",
        &mut scripted,
        schema,
        pair,
    )
}

// A format leaves these blocks; and a configuration is replaced by itself without a byte write.
pub(crate) fn stored(rt: &HostRuntime, schema: &Schema, pair: &Pair) -> anyhow::Result<()> {
    let heap = rt.alloc();
    let good = formatted(heap, pair)? == by_the_rules(heap)?;
    println!(rt; "blocks after a format: {}", word(good))?;
    let mut device = image(heap, 51, 26 * 34)?;
    let done = format(&mut device, &pair.new).is_ok();
    let before = device.bytes().to_vec(heap)?;
    let same = replace(&mut device, &pair.new, &pair.new).is_ok();
    let kept = device.bytes() == before.as_slice() && device.is_on();
    println!(rt; "unchanged, no byte left: {}", word(done && same && kept))?;
    show(
        rt,
        "replace",
        replace(&mut device, &pair.new, &Config::empty()),
    )?;
    show(rt, "recover", recover(&mut device, schema))
}
