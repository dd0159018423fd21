// Configurations: entries at paths in rising order, and their images as bytes.
#![tactic(auto)]

mod choice;
mod config;
mod entries;
mod entry;
mod image;
mod lawful;
mod laws;

pub use choice::Choice;
pub use config::Config;
pub use encoding::NoRoom;
pub use entry::Entry;
pub use image::ImageFault;
pub use laws::{entries_compare, images_decide, paths_decide, reads_back};
pub use table::Full;
