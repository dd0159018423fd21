// A write on each device with power cut at a chosen byte, and what reads back.
use device::{Block, Device};
use flash::Flash;
use image::Image;
use mirror::Mirror;
use std::alloc::{AllocError, Global};

// An image of one block of zeros.
fn image(heap: Global, cut: u32) -> Result<Image, AllocError> {
    Ok(Image::new([0u8; 34].to_vec(heap)?, [cut].to_vec(heap)?))
}

// An erased flash of one block.
fn flash(heap: Global, cut: u32) -> Result<Flash, AllocError> {
    Ok(Flash::new([255u8; 33].to_vec(heap)?, [cut].to_vec(heap)?))
}

// Powers up, writes block 0, powers up again and reads it.
fn cut_write<D: Device>(rt: &impl Print, what: &str, device: &mut D) -> anyhow::Result<()> {
    device.power_up();
    match device.write(0, [0xA6; 32]) {
        Ok(()) => println!(rt; "{what}: write ok")?,
        Err(fault) => match fault.report() {
            Some(report) => println!(rt; "{what}: write no {report}")?,
            None => println!(rt; "{what}: write refused")?,
        },
    }
    device.power_up();
    match device.read(0) {
        Ok(Block::Good(bytes)) => println!(rt; "  reads back {:02x} ..", bytes[0])?,
        Ok(Block::Damaged) => println!(rt; "  reads back damaged")?,
        Err(_) => println!(rt; "  not read")?,
    }
    Ok(())
}

pub(crate) fn show_devices<R: Print + AllocGlobal>(rt: &R) -> anyhow::Result<()> {
    let heap = rt.alloc();
    cut_write(rt, "image, power cut after 20 bytes", &mut image(heap, 20)?)?;
    cut_write(rt, "image, power cut after 34 bytes", &mut image(heap, 34)?)?;
    cut_write(rt, "flash, power cut after 65 bytes", &mut flash(heap, 65)?)?;
    cut_write(rt, "flash, power cut after 66 bytes", &mut flash(heap, 66)?)?;
    let mut mirror = Mirror::new(image(heap, 34)?, flash(heap, 20)?);
    cut_write(rt, "mirror, its flash cut after 20 bytes", &mut mirror)
}
