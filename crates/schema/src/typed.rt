// A schema that was found lawful.
ghost use Rattle.std.specs.Prelude.{◌≡◌, true};
ghost use Rattle.schema.specs.Depth.{two_deep};
ghost use Rattle.table.specs.Slots.{items};

use crate::nodes::Node;
use table::Slots;

// The nodes of a schema, numbered from 1 in this order. Lists nest at most two deep.
#[derive(Clone, Copy)]
pub struct Schema {
    pub(crate) nodes: Slots<Node, 16>,
    ghost nested: { two_deep (items nodes) ≡ true },
}

// The first bad node of a schema, 0 where the number of nodes is wrong: a plain number, as the rules tell it, which the report and
// every caller that looks at the field rely on.
#[derive(Clone, Copy, PartialEq, Eq, Debug)]
pub struct SchemaFault {
    pub node: u32,
}
