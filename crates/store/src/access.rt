// Runs of accesses of any device, up to the first that is not done.
ghost use Rattle.std.specs.Prelude.{◌+◌, ◌≤◌, length};
ghost use Rattle.journal.specs.Plans.{as_writes, closed, run_from};
ghost use Rattle.store.specs.Running.{CarriedOn, RanOn};
ghost use Rattle.store.specs.Targets.{written};

use crate::faults::StoreFault;
use crate::layout::HEADER;
use crate::targets::Changes;
use device::{Block, Device, DeviceFault};

// A header that names nothing.
pub(crate) const EMPTY: [u8; 32] = [0; 32];

// Writes the rows to consecutive blocks.
pub(crate) fn write_run<D: Device>(
    device: &mut D,
    first: usize,
    rows: &[[u8; 32]],
) -> Result<(), DeviceFault>
    requires few { first + length rows.now ≤ 51 }
    ensures { CarriedOn D.Device device.old (as_writes (run_from first rows.now)) result device.new }
{
    for (i, row) in rows.iter().enumerate() {
        device.write(first + i, *row)?;
    }
    Ok(())
}

// Writes each target's bytes to it.
fn write_home<D: Device>(device: &mut D, changes: &Changes) -> Result<(), DeviceFault>
    ensures { CarriedOn D.Device device.old (as_writes (written changes.now)) result device.new }
{
    let blocks = changes.targets.blocks.as_slice();
    for (block, row) in blocks.iter().zip(changes.rows.as_slice()) {
        device.write(usize::from(*block), *row)?;
    }
    Ok(())
}

// Writes each target's bytes to it, and then an empty header, or nothing where there is no target.
pub(crate) fn complete<D: Device>(device: &mut D, changes: &Changes) -> Result<(), DeviceFault>
    ensures { CarriedOn D.Device device.old (as_writes (closed (written changes.now))) result device.new }
{
    if changes.rows.as_slice().is_empty() {
        return Ok(());
    }
    write_home(device, changes)?;
    device.write(HEADER, EMPTY)
}

// Reads consecutive blocks into the rows, up to the first that is damaged.
pub(crate) fn read_run<D: Device>(
    device: &mut D,
    first: usize,
    rows: &mut [[u8; 32]],
) -> Result<(), StoreFault>
    requires few { first + length rows.old ≤ 51 }
    ensures { RanOn D.Device device.old first rows.old result rows.new device.new }
{
    for (i, row) in rows.iter_mut().enumerate() {
        match device.read(first + i)? {
            Block::Good(bytes) => *row = bytes,
            Block::Damaged => {
                return Err(StoreFault::Corrupt {
                    block: (first + i) as u8,
                });
            }
        }
    }
    Ok(())
}
