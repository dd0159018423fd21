// The rows of a schema as they are handed in, and its typed nodes.
ghost use Rattle.std.specs.Prelude.{◌≡◌, ◌<◌};
ghost use Rattle.fault.specs.Codes.{Named};
ghost use Rattle.schema.specs.Nodes.{kind_number, node_of, optional};
ghost use Rattle.schema.specs.Rows.{at};

// The kinds of nodes.
#[derive(Clone, Copy, PartialEq, Eq, Debug)]
pub enum Kind {
    List = 1,
    Leaf = 2,
}

// A number that no kind of nodes has.
#[derive(Clone, Copy, PartialEq, Eq, Debug)]
pub struct UnknownKind(pub u32);

impl TryFrom<u32> for Kind {
    type Error = UnknownKind;

    ghost try_from_gives = { Named kind_number (λ e. e.0) };

    // The kind of this number.
    fn try_from(number: u32) -> Result<Self, UnknownKind> {
        match number {
            1 => Ok(Kind::List),
            2 => Ok(Kind::Leaf),
            _ => Err(UnknownKind(number)),
        }
    }
}

// A node as it is handed in, all of it plain numbers. Kind 1 is a list, kind 2 a leaf. Parent 0 is the top, and another
// parent the number of a list; nodes are numbered from 1. Of a list, lo and hi bound its key, and maximum 0 is none. Of a
// leaf, they bound its value, mandatory is a mark of 0 or 1, and reference 0 is none.
// Stays plain numbers, as the caller gives them: they may break any rule, and the check has to tell which row does.
#[derive(Clone, Copy, PartialEq, Eq, Debug)]
pub struct NodeRow {
    pub kind: u32,
    pub parent: u32,
    pub lo: u32,
    pub hi: u32,
    pub mandatory: u32,
    pub reference: u32,
    pub maximum: u32,
}

// The numbers from lo to hi, both included.
#[derive(Clone, Copy, PartialEq, Eq, Debug)]
pub struct Range {
    pub lo: u32,
    pub hi: u32,
}

// A list: the list that it stands in, unless at the top; the range of its key; the most entries in one parent entry.
#[derive(Clone, Copy, PartialEq, Eq, Debug)]
pub struct ListNode {
    pub parent: Option<u8>,
    pub keys: Range,
    pub maximum: Option<u32>,
}

// A leaf: the list that it stands in, unless at the top; the range of its value; whether it has to be there; the list
// whose key its value has to be.
#[derive(Clone, Copy, PartialEq, Eq, Debug)]
pub struct LeafNode {
    pub parent: Option<u8>,
    pub values: Range,
    pub mandatory: bool,
    pub reference: Option<u8>,
}

#[derive(Clone, Copy, PartialEq, Eq, Debug)]
pub enum Node {
    List(ListNode),
    Leaf(LeafNode),
}

// What the places of a schema without a node hold.
pub(crate) const UNUSED: Node = Node::Leaf(LeafNode {
    parent: None,
    values: Range { lo: 0, hi: 0 },
    mandatory: false,
    reference: None,
});

// What has this number among the items, counted from 1.
pub(crate) fn numbered<T: Copy>(items: &[T], number: u32) -> Option<T>
    ensures { result ≡ at items.now number }
{
    let place = (number as usize).checked_sub(1)?;
    items.get(place).copied()
}

// 0 stands for none.
fn optional(number: u32) -> Option<u32>
    ensures { result ≡ optional number }
{
    (number != 0).then_some(number)
}

// The node of this number, 0 for none.
fn named(number: u32) -> Option<u8>
    requires { number < 256 }
    ensures { result ≡ optional number }
{
    optional(number).map(|node| node as u8)
}

// The typed node of a row. The nodes that it names have numbers below 256.
pub(crate) fn node_of(row: NodeRow) -> Node
    requires { (row.parent < 256) × (row.reference < 256) }
    ensures { result ≡ node_of row }
{
    let range = Range {
        lo: row.lo,
        hi: row.hi,
    };
    if row.kind == Kind::List as u32 {
        return Node::List(ListNode {
            parent: named(row.parent),
            keys: range,
            maximum: optional(row.maximum),
        });
    }
    Node::Leaf(LeafNode {
        parent: named(row.parent),
        values: range,
        mandatory: row.mandatory == 1,
        reference: named(row.reference),
    })
}
