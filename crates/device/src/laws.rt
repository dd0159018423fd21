// What follows from the power rule.
ghost use Rattle.device.specs.Views.{OffRefusesOn, ViewsOn};

use crate::Device;

// law: accesses made of any device that is on, all of blocks that it has, are all done, or power fails at one of them,
// and the blocks are then those of the power rule.
pub fn accesses_keep_the_rule<D: Device>() -> u8
    ensures views { ViewsOn D.Device }
    ensures off { OffRefusesOn D.Device }
{
    0
}
