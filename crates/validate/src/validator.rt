// Any validator.
ghost use Rattle.config.specs.Configs.{used};
ghost use Rattle.config.specs.declared.entry.Entry.{Entry};
ghost use Rattle.std.specs.Prelude.{◌≡◌, List, Result};
ghost use Rattle.validate.specs.declared.broken.Broken.{Broken};

use crate::broken::Broken;
use config::Config;

// `verdict` is its meaning: for the entries of each configuration yes, or no with a rule and a path.
pub trait Validator {
    ghost verdict: { Self → List Entry → Result Unit Broken };

    fn check(&self, config: &Config) -> Result<(), Broken>
        ensures { result ≡ verdict self.now (used config.now) };
}
