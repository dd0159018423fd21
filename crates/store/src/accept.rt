// The configuration that home blocks hold.
ghost use Rattle.schema.specs.Nodes.{nodes};
ghost use Rattle.store.specs.Accepting.{Accepts, image_bytes};
ghost use Rattle.std.specs.Prelude.{◌≡◌};

use crate::layout::HOMES;
use crate::pages::pages;
use config::Config;
use schema::Schema;

// The entry count and the entries as they lie in the home blocks.
fn image_in(homes: &[[u8; 32]; HOMES]) -> [u8; 769]
    ensures { result ≡ image_bytes homes.now }
{
    let mut image = [homes[0][1]; 769];
    image[1..].copy_from_slice(homes[1..].as_flattened());
    image
}

// The configuration whose home blocks these are, byte for byte, if the schema allows one.
pub(crate) fn accept(schema: &Schema, homes: &[[u8; 32]; HOMES]) -> Option<Config>
    ensures { Accepts (nodes schema.now) homes.now result }
{
    let image = image_in(homes);
    let entries = image.get(..1 + 16 * usize::from(image[0]))?;
    let config = Config::read(schema, entries).ok()?;
    (pages(&config) == *homes).then_some(config)
}
