// What follows from the contracts, in the subject's own words.
ghost use Rattle.config.specs.Configs.{used};
ghost use Rattle.config.specs.Equal.{same_config, same_entry};
ghost use Rattle.config.specs.Order.{path_sooner};
ghost use Rattle.std.specs.Ordering.{partial_lt};
ghost use Rattle.config.specs.Laws.{ImagesDecide, PathsDecide, ReadsBack};
ghost use Rattle.std.specs.Prelude.{◌≡◌, Decides};

use crate::config::Config;
use crate::entry::Entry;
use schema::Path;

// law: entries are equal exactly if they are the same, and configurations exactly if their entries are. Paths come before one
// another by node, then by k1, then by k2.
pub fn entries_compare()
    ensures entries { (a b : Entry) → ⟦<Entry as PartialEq>⟧.eq a b ≡ same_entry a b }
    ensures entries_decide { (a b : Entry) → Decides (⟦<Entry as PartialEq>⟧.eq a b) (a ≡ b) }
    ensures configs { (a b : Config) → ⟦<Config as PartialEq>⟧.eq a b ≡ same_config a b }
    ensures configs_decide { (a b : Config) → Decides (⟦<Config as PartialEq>⟧.eq a b) (used a ≡ used b) }
    ensures before { (a b : Path) → partial_lt ⟦<Path as PartialOrd>⟧.partial_cmp a b ≡ path_sooner a b }
{}

// law: what a configuration has at every path says which configuration it is.
pub fn paths_decide()
    ensures { PathsDecide }
{}

// law: two configurations with one image are one.
pub fn images_decide()
    ensures { ImagesDecide }
{}

// law: reading the image of a lawful configuration gives that configuration.
pub fn reads_back()
    ensures { ReadsBack }
{}
