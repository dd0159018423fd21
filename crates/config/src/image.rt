// The image of a configuration as bytes.
ghost use Rattle.config.specs.Configs.{used};
ghost use Rattle.config.specs.Images.{Decoded, Encoded, Read};
ghost use Rattle.config.specs.Order.{rising};
ghost use Rattle.fault.specs.Reports.{plain};
ghost use Rattle.schema.specs.Nodes.{nodes};
ghost use Rattle.std.specs.Prelude.{◌≡◌};

use crate::config::Config;
use crate::entries::UNUSED;
use crate::entry::Entry;
use encoding::NoRoom;
use fault::Report;
use schema::Schema;
use table::Slots;

// The bytes are no image of a configuration that the schema allows.
#[derive(Clone, Copy, PartialEq, Eq, Debug)]
pub struct ImageFault;

// Each path comes before the next one.
fn rise(entries: &[Entry]) -> bool
    ensures { result ≡ rising entries.now }
{
    entries.is_sorted_by(|a, b| a.path < b.path)
}

impl Config {
    // Writes the image to the front of the output, and answers its length. An output has room with 769 bytes, the length of the
    // largest image.
    pub fn encode(&self, out: &mut [u8]) -> Result<usize, NoRoom>
        ensures { Encoded (used self.now) out.old out.new result }
    {
        if out.len() < 769 {
            return Err(NoRoom);
        }
        encoding::encode(self.entries(), out)
    }

    // The entries of an image, if it has the form of one and the paths rise.
    fn decode(image: &[u8]) -> Option<Config>
        ensures { Decoded image.now result }
    {
        // No heap: the entries are read into a buffer, and their number comes beside it.
        let mut entries = [UNUSED; 48];
        let count = encoding::decode(image, &mut entries)?;
        let table = Slots::first(entries, count);
        if rise(table.as_slice()) {
            Some(Config { table })
        } else {
            None
        }
    }

    // The configuration whose image the bytes are, if the schema allows it.
    pub fn read(schema: &Schema, image: &[u8]) -> Result<Config, ImageFault>
        ensures { Read (nodes schema.now) image.now result }
    {
        let config = Config::decode(image).ok_or(ImageFault)?;
        if config.is_lawful(schema) {
            Ok(config)
        } else {
            Err(ImageFault)
        }
    }
}

impl ImageFault {
    // Refusal 12. A method and no From, as of every fault: some answer an Option or take a path.
    pub fn report(self) -> Report
        ensures { result ≡ plain 12 }
    {
        Report::plain(12)
    }
}
