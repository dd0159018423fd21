// Edit lists.
ghost use Rattle.std.specs.Prelude.{◌≡◌, ◌≤◌, length};
ghost use Rattle.encoding.specs.Counts.{Encoded};
ghost use Rattle.edit.specs.Items.{item_form};
ghost use Rattle.edit.specs.Lists.{ListRead, items};
ghost use Rattle.fault.specs.Reports.{plain};

use crate::held::EditList;
use crate::item::Item;
use encoding::NoRoom;
use fault::Report;
use schema::Path;
use table::Slots;

// The bytes are no edit list.
#[derive(Clone, Copy, PartialEq, Eq, Debug)]
pub struct ListFault;

const UNUSED: Item = Item {
    operation: 0,
    path: Path {
        node: 0,
        k1: 0,
        k2: 0,
    },
    value: 0,
};

impl EditList {
    // The items of these bytes, if they are an edit list of at most 16 items.
    pub fn read(form: &[u8]) -> Result<Self, ListFault>
        ensures { ListRead form.now result }
    {
        // No heap: the items are read into a buffer, and their number comes beside it.
        let mut items = [UNUSED; 16];
        let count = encoding::decode(form, &mut items).ok_or(ListFault)?;
        Ok(EditList {
            items: Slots::first(items, count),
        })
    }

    // The items in their order.
    pub fn items(&self) -> &[Item]
        ensures items { result.now ≡ items self.now }
        ensures few { length result.now ≤ 16 }
    {
        self.items.as_slice()
    }

    // Writes the edit list to the front of the output, and answers its length.
    pub fn encode(&self, out: &mut [u8]) -> Result<usize, NoRoom>
        ensures { Encoded item_form (items self.now) out.old out.new result }
    {
        encoding::encode(self.items(), out)
    }
}

impl ListFault {
    // Refusal 1. Some reports answer an Option or take a path, so one name for all is plainer than `From` for some.
    pub fn report(self) -> Report
        ensures { result ≡ plain 1 }
    {
        Report::plain(1)
    }
}
