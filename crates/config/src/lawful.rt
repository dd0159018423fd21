// Which configurations a schema allows.
ghost use Rattle.config.specs.Configs.{used};
ghost use Rattle.config.specs.Lawful.{EntryLawful, Lawful, held};
ghost use Rattle.schema.specs.Nodes.{nodes};
ghost use Rattle.std.specs.Prelude.{◌≡◌, Decides};

use crate::config::Config;
use crate::entry::Entry;
use schema::{Path, Schema};

impl Config {
    // The entry of the list around a path is there, or the path is at the top.
    pub fn holds(&self, schema: &Schema, path: Path) -> bool
        ensures { result ≡ held (nodes schema.now) (used self.now) path }
    {
        schema
            .around(path)
            .is_none_or(|list| self.get(list).is_some())
    }

    fn entry_lawful(&self, schema: &Schema, entry: Entry) -> bool
        ensures { Decides result (EntryLawful (nodes schema.now) (used self.now) entry) }
    {
        schema.check_entry(entry.path, entry.value).is_ok() && self.holds(schema, entry.path)
    }

    // Each entry has lawful keys, a lawful value and the entry of the list around it.
    pub fn is_lawful(&self, schema: &Schema) -> bool
        ensures { Decides result (Lawful (nodes schema.now) (used self.now)) }
    {
        self.entries()
            .iter()
            .all(|entry| self.entry_lawful(schema, *entry))
    }
}
