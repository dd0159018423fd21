// Writes a block on each device with power cut at every byte, and prints what reads back.
//
// A letter stands for a block: o as before, n new, d damaged, x anything else. It is a capital where the write was done.
#![tactic(auto)]

use cells::{Cell, Cells};
use device::{Block, Device, DeviceFault};
use flash::Flash;
use image::Image;
use mirror::Mirror;
use scripted::{Doomed, Outcome, Scripted};
use std::alloc::{AllocError, Global};

const OLD: u8 = 0x35;

const NEW: u8 = 0xA6;

// An image of one block and two bytes that fill none.
fn image(heap: Global, good: bool, cut: u32) -> Result<Image, AllocError> {
    let mut bytes = [OLD; 36];
    bytes[0] = 0xFF;
    bytes[33] = if good { 0xFF } else { 0x00 };
    Ok(Image::new(bytes.to_vec(heap)?, [cut].to_vec(heap)?))
}

// A flash of one block and two bytes that fill none.
fn flash(heap: Global, good: bool, cut: u32) -> Result<Flash, AllocError> {
    let mut bytes = [OLD; 35];
    bytes[32] = if good { 0x00 } else { 0x7F };
    Ok(Flash::new(bytes.to_vec(heap)?, [cut].to_vec(heap)?))
}

// What a read of block 0 shows.
fn letter(read: Result<Block, DeviceFault>) -> char {
    match read {
        Ok(Block::Damaged) => 'd',
        Ok(Block::Good(bytes)) => {
            if bytes == [OLD; 32] {
                'o'
            } else if bytes == [NEW; 32] {
                'n'
            } else {
                'x'
            }
        }
        Err(_) => 'x',
    }
}

// Writes block 0 after one power-up and reads it after another.
fn cut_write<D: Device>(device: &mut D) -> char {
    device.power_up();
    let done = device.write(0, [NEW; 32]).is_ok();
    let on = device.is_on();
    device.power_up();
    match letter(device.read(0)) {
        'n' if done && on => 'N',
        seen if !done && !on => seen,
        _ => 'x',
    }
}

// Cuts power after each number of byte writes, each on a new device. An x is also where bytes that fill no block changed.
fn sweep<C: Cell + Drop, F: Fn(Global, bool, u32) -> Result<Cells<C>, AllocError> + Drop>(
    rt: &HostRuntime,
    make: F,
    good: bool,
    cuts: u32,
) -> anyhow::Result<()>
    requires { F.IsAlwaysCallable make }
{
    for cut in 0..cuts {
        let mut device = make(rt.alloc(), good, cut)?;
        let seen = cut_write(&mut device);
        let kept = matches!(device.bytes().get(C::SIZE..), Some([OLD, OLD]));
        print!(rt; "{}", if kept { seen } else { 'x' })?;
    }
    println!(rt; "")?;
    Ok(())
}

// How often a mirror's block was as before, new, damaged or anything else, and how often the write was done.
#[derive(Drop)]
struct Tally {
    old: u32,
    new: u32,
    damaged: u32,
    other: u32,
    done: u32,
}

impl Tally {
    fn note(&mut self, seen: char) {
        match seen {
            'o' => self.old = self.old.saturating_add(1),
            'n' => self.new = self.new.saturating_add(1),
            'd' => self.damaged = self.damaged.saturating_add(1),
            'N' => self.done = self.done.saturating_add(1),
            _ => self.other = self.other.saturating_add(1),
        }
    }
}

fn name(good: bool) -> &'static str {
    if good { "good" } else { "damaged" }
}

// Every cut of either side.
fn sweep_mirror(rt: &HostRuntime, first: bool, second: bool) -> anyhow::Result<()> {
    let mut tally = Tally {
        old: 0,
        new: 0,
        damaged: 0,
        other: 0,
        done: 0,
    };
    for cut in 0..36 {
        for other in 0..68 {
            let a = image(rt.alloc(), first, cut)?;
            let b = flash(rt.alloc(), second, other)?;
            tally.note(cut_write(&mut Mirror::new(a, b)));
        }
    }
    let Tally {
        old,
        new,
        damaged,
        other,
        done,
    } = tally;
    let a = name(first);
    let b = name(second);
    println!(rt;
        "{a} {b}: before {old}, new {new}, damaged {damaged}, done {done}, other {other}"
    )?;
    Ok(())
}

fn answer<T: Drop>(r: Result<T, DeviceFault>) -> &'static str {
    match r {
        Ok(_) => "done",
        Err(DeviceFault::PowerLost { block: 0 }) => "lost at 0",
        Err(DeviceFault::PowerLost { block: _ }) => "lost",
        Err(DeviceFault::Refused) => "refused",
    }
}

// Blocks that fit so many bytes, and accesses before power-up and past the end.
fn edges(rt: &HostRuntime, len: usize) -> anyhow::Result<()> {
    let mut a = Image::new(vec![in rt.alloc(); 0; len]?, Vec::new(rt.alloc()));
    let mut b = Flash::new(vec![in rt.alloc(); 0; len]?, Vec::new(rt.alloc()));
    let off = answer(a.read(0));
    a.power_up();
    b.power_up();
    let i = a.block_count();
    let f = b.block_count();
    let past = answer(b.write(f, [NEW; 32]));
    println!(rt; "{len} bytes: image {i}, flash {f}, off {off}, past the end {past}")?;
    let mut both = Mirror::new(a, b);
    let n = both.block_count();
    let past = answer(both.write(n, [NEW; 32]));
    println!(rt; "  mirror {n}, past the end {past}")?;
    Ok(())
}

// Each power-up takes the next cut count, whether the one before was used up or not.
fn counts(rt: &HostRuntime) -> anyhow::Result<()> {
    let cuts = [33, 35, 0].to_vec(rt.alloc())?;
    let mut device = Image::new(vec![in rt.alloc(); 0; 34]?, cuts);
    for _ in 0..5 {
        device.power_up();
        let first = answer(device.write(0, [NEW; 32]));
        let second = answer(device.write(0, [OLD; 32]));
        println!(rt; "{first}, {second}")?;
    }
    Ok(())
}

fn script(rt: &HostRuntime, outcome: Outcome) -> anyhow::Result<()> {
    let blocks = [Block::Good([OLD; 32])].to_vec(rt.alloc())?;
    let mut device = Scripted::new(
        blocks,
        [Outcome::Done, outcome, outcome].to_vec(rt.alloc())?,
    );
    device.power_up();
    let read = answer(device.read(0));
    let write = answer(device.write(0, [NEW; 32]));
    device.power_up();
    let again = answer(device.read(0));
    device.power_up();
    let seen = letter(device.read(0));
    println!(rt; "{read}, {write}, {again}, {seen}")?;
    Ok(())
}

fn doomed(rt: &HostRuntime) -> anyhow::Result<()> {
    let mut device = Doomed::new([Block::Damaged].to_vec(rt.alloc())?);
    let off = answer(device.read(0));
    device.power_up();
    let read = answer(device.read(0));
    device.power_up();
    let write = answer(device.write(0, [NEW; 32]));
    let on = device.is_on();
    println!(rt; "{off}, {read}, {write}, on {on}")?;
    Ok(())
}

fn run(rt: &HostRuntime) -> anyhow::Result<()> {
    println!(rt; "image, from a good block and from a damaged one")?;
    sweep(rt, image, true, 36)?;
    sweep(rt, image, false, 36)?;
    println!(rt; "flash, from a good block and from a damaged one")?;
    sweep(rt, flash, true, 68)?;
    sweep(rt, flash, false, 68)?;
    println!(rt; "mirror of an image and a flash, every cut of either")?;
    for first in [true, false] {
        for second in [true, false] {
            sweep_mirror(rt, first, second)?;
        }
    }
    println!(rt; "blocks that fit")?;
    for len in [0, 32, 33, 34, 68, 69] {
        edges(rt, len)?;
    }
    println!(rt; "cut counts 33, 35, 0, each with two writes")?;
    counts(rt)
}

fn main(rt: HostRuntime) -> anyhow::Result<()> {
    run(&rt)?;
    println!(rt; "scripted")?;
    for outcome in [
        Outcome::Done,
        Outcome::LostBefore,
        Outcome::LostWritten,
        Outcome::LostTorn,
    ] {
        script(&rt, outcome)?;
    }
    doomed(&rt)
}
