// Byte forms: counted records of 16 bytes.
//
// A form is four head bytes and three numbers of 32 bits, the most significant byte first. A counted list is a count byte and
// then the form of each record. It is read strictly: bytes are accepted only if they are the counted list of some records, and
// these come out.
#![tactic(auto)]

mod counted;
mod form;

pub use counted::{Coded, NoRoom, decode, encode};
pub use form::Form;
