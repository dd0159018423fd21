// Keeping some of the entries, chosen by their paths.
ghost use Rattle.config.specs.Configs.{Retained, used};
ghost use Rattle.schema.specs.declared.path.Path.{Path};
ghost use Rattle.std.specs.Prelude.{◌≡◌, Bool};

use crate::config::Config;
use crate::entries::UNUSED;
use schema::Path;
use table::Slots;

// A choice of paths. No closure: a public function that takes one would ask its caller to show that every call of it is allowed.
pub trait Choice {
    ghost chosen: { Self → Path → Bool };

    fn keeps(&self, path: Path) -> bool
        ensures { result ≡ chosen self.now path };
}

impl Config {
    // Keeps the entries whose paths are chosen, and takes the others out.
    pub fn retain<C: Choice>(&mut self, choice: &C)
        ensures { Retained (C.Choice.chosen choice.now) (used self.old) (used self.new) }
    {
        // No list is filled by `push`: its count, kept in memory, made this the slowest part of an edit.
        let mut kept = [UNUSED; 48];
        let mut count = 0;
        for entry in self.entries() {
            if choice.keeps(entry.path) {
                kept[count] = *entry;
                count += 1;
            }
        }
        let table = Slots::first(kept, count);
        *self = Config { table };
    }
}
