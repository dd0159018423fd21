// The home blocks of a configuration.
ghost use Rattle.std.specs.Prelude.{◌≡◌, ◌-◌, ◌*◌, ◌∷◌, ◌++◌, length};
ghost use Rattle.config.specs.Configs.{used};
ghost use Rattle.config.specs.Images.{image};
ghost use Rattle.journal.specs.Layout.{home_pages, zeros};

use crate::layout::HOMES;
use config::Config;

// The image of a configuration, and zeros after it.
fn image_of(config: &Config) -> [u8; 769]
    ensures { result ≡ image (used config.now) ++ zeros (768 - 16 * length (used config.now)) }
{
    let mut out = [0u8; 769];
    let _ = config.encode(&mut out);
    out
}

// Version 1, the entry count, and zeros.
fn first_page(count: u8) -> [u8; 32]
    ensures { result ≡ 1 ∷ (count ∷ zeros 30) }
{
    let mut page = [0; 32];
    page[0] = 1;
    page[1] = count;
    page
}

// The home blocks of a configuration in their order.
pub(crate) fn pages(config: &Config) -> [[u8; 32]; HOMES]
    ensures { result ≡ home_pages (used config.now) }
{
    let bytes = image_of(config);
    let (entries, _) = bytes[1..].as_chunks::<32>();
    let mut pages = [first_page(bytes[0]); HOMES];
    pages[1..].copy_from_slice(entries);
    pages
}
