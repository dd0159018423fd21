// The calls of the store.
ghost use Rattle.std.specs.Prelude.{◌≡◌, ◌<◌, ◌≤◌, length, MatchResult};
ghost use Rattle.config.specs.Configs.{used};
ghost use Rattle.journal.specs.Plans.{as_writes, journalled};
ghost use Rattle.schema.specs.Nodes.{nodes};
ghost use Rattle.store.specs.Calls.{FormattedOn, RecoveredOn, ReplacedOn};
ghost use Rattle.store.specs.Mending.{MendedOn, RedoneOn};
ghost use Rattle.store.specs.Running.{CarriedOn};
ghost use Rattle.store.specs.Targets.{listed, written};

use crate::accept::accept;
use crate::access::{EMPTY, complete, read_run, write_run};
use crate::changed::changed;
use crate::faults::StoreFault;
use crate::header::{header, parse_header};
use crate::layout::{BLOCKS, FIRST_HOME, FIRST_RECORD, HEADER, HOMES};
use crate::pages::pages;
use crate::targets::{Changes, Targets};
use config::Config;
use device::{Block, Device, DeviceFault};
use schema::Schema;
use table::Slots;

// A device that is too small is refused.
fn has_room<D: Device>(device: &D) -> Result<(), StoreFault>
    ensures { MatchResult result (λ done. 51 ≤ length (D.Device.blocks device.now)) (λ fault. (length (D.Device.blocks device.now) < 51) × (fault ≡ StoreFault.TooSmall)) }
{
    if device.block_count() < BLOCKS {
        return Err(StoreFault::TooSmall);
    }
    Ok(())
}

// Writes a configuration the first time: powers up, writes the home blocks and then an empty header.
pub fn format<D: Device>(device: &mut D, config: &Config) -> Result<(), StoreFault>
    ensures { FormattedOn D.Device device.old (used config.now) result device.new }
{
    has_room(device)?;
    device.power_up();
    write_run(device, FIRST_HOME, &pages(config))?;
    device.write(HEADER, EMPTY)?;
    Ok(())
}

// Writes the records, the header, the writes home and the empty header, or nothing where nothing changes.
fn commit<D: Device>(device: &mut D, changes: &Changes) -> Result<(), DeviceFault>
    ensures { CarriedOn D.Device device.old (as_writes (journalled (written changes.now))) result device.new }
{
    let rows = changes.rows.as_slice();
    if rows.is_empty() {
        return Ok(());
    }
    write_run(device, FIRST_RECORD, rows)?;
    device.write(HEADER, header(&changes.targets))?;
    complete(device, changes)
}

// Replaces the standing configuration `old` by `new`: writes what differs by way of the journal, and nothing where nothing does.
pub fn replace<D: Device>(device: &mut D, old: &Config, new: &Config) -> Result<(), StoreFault>
    ensures { ReplacedOn D.Device device.old (used old.now) (used new.now) result device.new }
{
    has_room(device)?;
    let before = pages(old);
    let after = pages(new);
    if before == after {
        return Ok(());
    }
    commit(device, &changed(&before, &after))?;
    Ok(())
}

// Reads all records of the targets, then writes them home and empties the header.
fn redo<D: Device>(device: &mut D, targets: Targets) -> Result<(), StoreFault>
    ensures { RedoneOn D.Device (listed targets) device.old result device.new }
{
    let count = targets.blocks.as_slice().len();
    // No heap: the records are read into a buffer, and their number comes beside it.
    let mut rows = [EMPTY; HOMES];
    read_run(device, FIRST_RECORD, &mut rows[..count])?;
    let rows = Slots::first(rows, count);
    complete(device, &Changes { targets, rows })?;
    Ok(())
}

// Reads the header and does what it asks for. A damaged header asks for nothing and is not written.
fn mend<D: Device>(device: &mut D) -> Result<(), StoreFault>
    ensures { MendedOn D.Device device.old result device.new }
{
    let Block::Good(bytes) = device.read(HEADER)? else {
        return Ok(());
    };
    let targets = parse_header(&bytes).ok_or(StoreFault::Corrupt {
        block: HEADER as u8,
    })?;
    redo(device, targets)
}

// Powers up, finishes a commit that power cut, and gives the standing configuration.
pub fn recover<D: Device>(device: &mut D, schema: &Schema) -> Result<Config, StoreFault>
    ensures { RecoveredOn D.Device (nodes schema.now) device.old result device.new }
{
    has_room(device)?;
    device.power_up();
    mend(device)?;
    let mut homes = [EMPTY; HOMES];
    read_run(device, FIRST_HOME, &mut homes)?;
    accept(schema, &homes).ok_or(StoreFault::Corrupt {
        block: FIRST_HOME as u8,
    })
}
