// What follows from the calls' contracts, on any device.
ghost use Rattle.store.specs.Standing.{BlocksAfterOn, OffReplacesOn, StandsOn};

use device::Device;

// law: every block after each call; what stands after each call, done or cut; and what a device that is off answers.
pub fn calls_stand<D: Device>() -> u8
    ensures blocks { BlocksAfterOn D.Device }
    ensures off { OffReplacesOn D.Device }
    ensures stands { StandsOn D.Device }
{
    0
}
