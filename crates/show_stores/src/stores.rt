// A configuration stored on each device and replaced by another while power fails, and recovered while power fails again.
use config::{Config, Entry};
use device::Device;
use flash::Flash;
use image::Image;
use mirror::Mirror;
use sample::Listed;
use schema::{Path, Schema};
use std::alloc::{AllocError, Global};
use store::StoreFault;

// More byte writes than there are here.
const LASTING: u32 = 1_000_000;

// The store's tests make devices too, of other sizes and cuts: a crate for these two makers would be no plainer.

// An image of 51 blocks. Power lasts so many byte writes past those of a format, and so many after the next power-up.
fn image(heap: Global, first: u32, second: u32) -> Result<Image, AllocError> {
    let cuts = [first.saturating_add(26 * 34), second].to_vec(heap)?;
    Ok(Image::new(vec![in heap; 0; 51 * 34]?, cuts))
}

// The same of an erased flash.
fn flash(heap: Global, first: u32, second: u32) -> Result<Flash, AllocError> {
    let cuts = [first.saturating_add(26 * 66), second].to_vec(heap)?;
    Ok(Flash::new(vec![in heap; 255; 51 * 33]?, cuts))
}

fn show_fault(rt: &impl Print, what: &str, fault: StoreFault) -> anyhow::Result<()> {
    match fault.report() {
        Some(report) => println!(rt; "  {what} no {report}")?,
        None => println!(rt; "  {what} refused")?,
    }
    Ok(())
}

fn show_answer(rt: &impl Print, what: &str, answer: Result<(), StoreFault>) -> anyhow::Result<()> {
    match answer {
        Ok(()) => println!(rt; "  {what} ok")?,
        Err(fault) => show_fault(rt, what, fault)?,
    }
    Ok(())
}

fn show_recovery<D: Device>(
    rt: &impl Print,
    device: &mut D,
    schema: &Schema,
) -> anyhow::Result<()> {
    match store::recover(device, schema) {
        Ok(config) => {
            print!(rt; "  recover ok\n{}", Listed(&config))?;
            Ok(())
        }
        Err(fault) => show_fault(rt, "recover", fault),
    }
}

// Formats with the old configuration, replaces it by the new, and recovers twice.
fn store_on<D: Device>(
    rt: &impl Print,
    device: &mut D,
    schema: &Schema,
    old: &Config,
    new: &Config,
) -> anyhow::Result<()> {
    show_answer(rt, "format", store::format(device, old))?;
    show_answer(rt, "replace", store::replace(device, old, new))?;
    show_recovery(rt, device, schema)?;
    show_recovery(rt, device, schema)
}

// The uplink is new: blocks 26 and 28 differ. Power fails in the first record, or in block 28 after records, header and block 26
// were written and then in block 26 of the repair.
pub(crate) fn show_stores<R: Print + AllocGlobal>(
    rt: &R,
    schema: &Schema,
    old: &Config,
) -> anyhow::Result<()> {
    let heap = rt.alloc();
    let mut new = *old;
    let _ = new.put(Entry {
        path: Path {
            node: 3,
            k1: 0,
            k2: 0,
        },
        value: 4,
    });
    println!(rt; "store on an image, cut in a record")?;
    store_on(rt, &mut image(heap, 20, LASTING)?, schema, old, &new)?;
    println!(rt; "store on an image, cut in a home block and in the repair")?;
    store_on(rt, &mut image(heap, 4 * 34 + 20, 10)?, schema, old, &new)?;
    println!(rt; "store on a flash, cut in a home block and in the repair")?;
    store_on(rt, &mut flash(heap, 4 * 66 + 20, 10)?, schema, old, &new)?;
    println!(rt; "store on a mirror, its flash cut in a home block and in the repair")?;
    let mut mirror = Mirror::new(
        image(heap, LASTING, LASTING)?,
        flash(heap, 4 * 66 + 20, 10)?,
    );
    store_on(rt, &mut mirror, schema, old, &new)
}
