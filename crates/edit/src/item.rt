// One item of an edit list.
ghost use Rattle.edit.specs.Items.{item_form, operation_number};
ghost use Rattle.edit.specs.Numbers.{operation_at};
ghost use Rattle.fault.specs.Codes.{Named};
ghost use Rattle.std.specs.Prelude.{◌≡◌};
ghost use Rattle.std.specs.Result.{result_ok};
ghost use Rattle.std.proofs.Common.{rules};

use encoding::{Coded, Form};
use schema::Path;

// What an item does to its target.
#[derive(Clone, Copy, PartialEq, Eq, Debug)]
pub enum Operation {
    Merge = 1,
    Replace = 2,
    Create = 3,
    Delete = 4,
    Remove = 5,
}

// A number that no operation has.
#[derive(Clone, Copy, PartialEq, Eq, Debug)]
pub struct UnknownOperation(pub u8);

// The operation of a number.
impl TryFrom<u8> for Operation {
    type Error = UnknownOperation;

    ghost try_from_gives = { λ n r. Named operation_number (λ e. e.0) n r × (result_ok r ≡ operation_at n) };

    fn try_from(number: u8) -> Result<Self, UnknownOperation> {
        match number {
            1 => Ok(Operation::Merge),
            2 => Ok(Operation::Replace),
            3 => Ok(Operation::Create),
            4 => Ok(Operation::Delete),
            5 => Ok(Operation::Remove),
            _ => Err(UnknownOperation(number)),
        }
    }
}

// An item as it is handed in: the number of an operation, the target and a value. The number is plain, as the caller gives it:
// it is judged when the item's turn comes.
#[derive(Clone, Copy, PartialEq, Eq, Debug)]
pub struct Item {
    pub operation: u8,
    pub path: Path,
    pub value: u32,
}

// Operation, node, two zero bytes, k1, k2 and value.
impl Coded for Item {
    ghost form = { item_form };

    ghost known = { Prim.search rules };

    fn to_form(&self) -> Form {
        let Path { node, k1, k2 } = self.path;
        Form {
            a: self.operation,
            b: node,
            c: 0,
            d: 0,
            k1,
            k2,
            value: self.value,
        }
    }

    fn from_form(of: Form) -> Option<Item> {
        if of.c != 0 || of.d != 0 {
            return None;
        }
        let path = Path {
            node: of.b,
            k1: of.k1,
            k2: of.k2,
        };
        Some(Item {
            operation: of.a,
            path,
            value: of.value,
        })
    }
}
