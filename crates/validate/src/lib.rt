// Validators: what says whether a configuration may run.
//
// A validator says yes to a configuration, or no with a rule and a path. What it says depends on the configuration alone.
#![tactic(auto)]

mod both;
mod bound;
mod broken;
mod laws;
mod required;
mod schema_rules;
mod validator;
mod values;

pub use both::Both;
pub use bound::Bound;
pub use broken::{Broken, Rule};
pub use laws::{required_told, schema_told};
pub use required::{Required, RequiredFault};
pub use schema_rules::SchemaRules;
pub use validator::Validator;
