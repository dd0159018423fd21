// Two validators as one.
ghost use Rattle.validate.specs.Rules.{first_no};

use crate::broken::Broken;
use crate::validator::Validator;
use config::Config;

// Asks the first validator, and then the second.
#[derive(Clone, Copy)]
pub struct Both<First, Second> {
    pub first: First,
    pub second: Second,
}

impl<First: Validator, Second: Validator> Validator for Both<First, Second> {
    ghost verdict = { λ s es. first_no (First.Validator.verdict s.first es) (Second.Validator.verdict s.second es) };

    fn check(&self, config: &Config) -> Result<(), Broken> {
        self.first.check(config)?;
        self.second.check(config)
    }
}
