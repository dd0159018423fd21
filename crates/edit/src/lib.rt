// Edits of a configuration: items, edit lists, and the three error options.
//
// An item has an operation, a target and a value. It is judged when its turn comes, on the configuration that the items before
// it left. The error option says what a refused item does to the others.
#![tactic(auto)]

mod faults;
mod held;
mod item;
mod laws;
mod list;
mod one;
mod option;
mod run;

pub use faults::ItemFault;
pub use held::EditList;
pub use item::{Item, Operation, UnknownOperation};
pub use laws::{items_decide, lists_read_back, options_are, stays_lawful};
pub use list::ListFault;
pub use one::apply;
pub use option::{ErrorOption, UnknownOption};
pub use run::{EditFault, edit};
