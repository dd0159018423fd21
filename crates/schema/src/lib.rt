// The schema: which nodes there are, and which keys and values they take.
//
// A schema is handed in as rows of plain numbers. The check gives a typed schema, or the first row that breaks a rule. A
// path names a node and the keys of the lists around or at it; the schema says whether a path and its value are lawful.
#![tactic(auto)]

mod check;
mod laws;
mod nodes;
mod path;
mod typed;

pub use laws::paths_compare;
pub use nodes::{Kind, LeafNode, ListNode, Node, NodeRow, Range, UnknownKind};
pub use path::{Path, PathFault};
pub use typed::{Schema, SchemaFault};
