// The entries of a configuration as text.
ghost use Rattle.config.specs.Configs.{used};
ghost use Rattle.sample.specs.Listing.{listing};
ghost use Rattle.std.specs.Prelude.{Some};

use config::Config;
use std::fmt;

// A line for each entry, behind two spaces.
#[derive(Clone, Copy)]
pub struct Listed<'a>(pub &'a Config);

impl<'a> fmt::Display for Listed<'a> {
    ghost output = { λ l. Some (listing (used l.0.now)) };

    fn fmt<W: fmt::Write>(&self, f: &mut fmt::Formatter<W>) -> fmt::Result {
        for entry in self.0.entries() {
            writeln!(f, "  {}", *entry)?;
        }
        Ok(())
    }
}
