// What a configuration holds, and how entries are put in and taken out.
ghost use Rattle.config.specs.Configs.{found, PutAnswer, TakeAnswer, used};
ghost use Rattle.std.specs.Prelude.{◌≡◌, []};

use crate::config::Config;
use crate::entry::Entry;
use schema::Path;
use table::{Full, Slots};

pub(crate) const UNUSED: Entry = Entry {
    path: Path {
        node: 0,
        k1: 0,
        k2: 0,
    },
    value: 0,
};

impl Config {
    // The configuration without entries.
    pub fn empty() -> Self
        ensures { used result ≡ [] }
    {
        Config {
            table: Slots::new(UNUSED),
        }
    }

    // The entries in rising order.
    pub fn entries(&self) -> &[Entry]
        ensures { result.now ≡ used self.now }
    {
        self.table.as_slice()
    }

    // The entry at a path.
    pub fn get(&self, path: Path) -> Option<Entry>
        ensures { result ≡ found (used self.now) path }
    {
        self.table.get(path)
    }

    // Puts the entry in, instead of the one at its path if there is one.
    pub fn put(&mut self, entry: Entry) -> Result<(), Full>
        ensures { PutAnswer self.old entry self.new result }
    {
        self.table.put(entry)
    }

    // Takes the entry at a path out.
    pub fn take_out(&mut self, path: Path) -> Option<Entry>
        ensures { TakeAnswer self.old path self.new result }
    {
        self.table.take_out(path)
    }
}
