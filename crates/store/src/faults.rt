// Why a call of the store was not performed.
ghost use Rattle.store.specs.Faults.{store_report};
ghost use Rattle.store.specs.declared.faults.StoreFault.TheVariants.{Device as of-device};
ghost use Rattle.std.specs.Prelude.{◌≡◌};

use device::DeviceFault;
use fault::Report;

// The device has fewer than 51 blocks; an access of it was not done; or what it holds is at fault, which is told by the block.
#[derive(Clone, Copy, PartialEq, Eq, Debug)]
pub enum StoreFault {
    TooSmall,
    Device(DeviceFault),
    Corrupt { block: u8 },
}

// A device's fault stays whole.
impl From<DeviceFault> for StoreFault {
    ghost from_gives = { λ f r. r ≡ of-device f };

    fn from(fault: DeviceFault) -> StoreFault {
        StoreFault::Device(fault)
    }
}

impl StoreFault {
    // Refusal 35, the device's, or 37 with the block as its cause. A method and no `From`, since a refused access has no report.
    pub fn report(self) -> Option<Report>
        ensures { result ≡ store_report self }
    {
        match self {
            StoreFault::TooSmall => Some(Report::plain(35)),
            StoreFault::Device(fault) => fault.report(),
            StoreFault::Corrupt { block } => Some(Report::plain(37).because(u32::from(block))),
        }
    }
}
