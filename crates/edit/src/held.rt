// An edit list in fixed memory.
use crate::item::Item;
use table::Slots;

// Up to 16 items in the order in which they are performed.
#[derive(Clone, Copy)]
pub struct EditList {
    pub(crate) items: Slots<Item, 16>,
}
