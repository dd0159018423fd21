// Which keys and which value a path takes.
ghost use Rattle.fault.specs.Reports.{at_path, plain};
ghost use Rattle.schema.specs.Nodes.{nodes};
ghost use Rattle.schema.specs.Paths.{around, entry_answer, fault_number, in_range, inside_keys, key_ranges, list_keys, list_range, path_answer, value_range};
ghost use Rattle.schema.specs.Rows.{at};
ghost use Rattle.std.specs.Prelude.{◌≡◌};

use crate::nodes::{ListNode, Node, Range, numbered};
use crate::typed::Schema;
use fault::Report;

// A node and the keys of the lists around or at it, outermost first, 0 for none.
#[derive(Clone, Copy, PartialEq, Eq, PartialOrd, Ord, Debug)]
pub struct Path {
    pub node: u8,
    pub k1: u32,
    pub k2: u32,
}

// Why a path or its value is refused, with the refusal's number.
#[derive(Clone, Copy, PartialEq, Eq, Debug)]
pub enum PathFault {
    Node = 7,
    Keys = 8,
    Value = 9,
}

const NONE: Range = Range { lo: 0, hi: 0 };

impl Range {
    // The number lies in the range.
    pub fn has(self, number: u32) -> bool
        ensures { result ≡ in_range self number }
    {
        self.lo <= number && number <= self.hi
    }
}

impl Node {
    // The range of the value at this node: a list has value 0.
    pub fn values(self) -> Range
        ensures { result ≡ value_range self }
    {
        match self {
            Node::List(_) => NONE,
            Node::Leaf(leaf) => leaf.values,
        }
    }
}

impl Schema {
    // The node of this number.
    pub fn node(&self, number: u8) -> Option<Node>
        ensures { result ≡ at (nodes self.now) number }
    {
        numbered(self.nodes.as_slice(), u32::from(number))
    }

    // The range of the key of the list of this number.
    fn list_range(&self, number: u8) -> Range
        ensures { result ≡ list_range (at (nodes self.now) number) }
    {
        match self.node(number) {
            Some(Node::List(list)) => list.keys,
            _ => NONE,
        }
    }

    // The ranges of both keys of a list's entries, the outer list's first.
    fn list_keys(&self, list: ListNode) -> (Range, Range)
        ensures { result ≡ list_keys (nodes self.now) list.parent list.keys }
    {
        list.parent.map_or(
            (list.keys, NONE),
            |outer| (self.list_range(outer), list.keys),
        )
    }

    // The ranges of both keys inside an entry of the list of this number.
    fn inside_keys(&self, number: u8) -> (Range, Range)
        ensures { result ≡ inside_keys (nodes self.now) (at (nodes self.now) number) }
    {
        match self.node(number) {
            Some(Node::List(list)) => self.list_keys(list),
            _ => (NONE, NONE),
        }
    }

    // The ranges of both keys of a node: those of the lists around or at it, outermost first, and 0 to 0 for none.
    pub fn key_ranges(&self, node: Node) -> (Range, Range)
        ensures { result ≡ key_ranges (nodes self.now) node }
    {
        match node {
            Node::List(list) => self.list_keys(list),
            Node::Leaf(leaf) => leaf
                .parent
                .map_or((NONE, NONE), |list| self.inside_keys(list)),
        }
    }

    // The path of the entry of the list around a path, none at the top.
    pub fn around(&self, path: Path) -> Option<Path>
        ensures { result ≡ around (nodes self.now) path }
    {
        let (list, k2) = match self.node(path.node)? {
            Node::List(list) => (list.parent?, 0),
            Node::Leaf(leaf) => (leaf.parent?, path.k2),
        };
        Some(Path {
            node: list,
            k1: path.k1,
            k2,
        })
    }

    // The node of a lawful path, or what is wrong with it.
    pub fn check_path(&self, path: Path) -> Result<Node, PathFault>
        ensures { result ≡ path_answer (nodes self.now) path }
    {
        let node = self.node(path.node).ok_or(PathFault::Node)?;
        let (first, second) = self.key_ranges(node);
        if first.has(path.k1) && second.has(path.k2) {
            Ok(node)
        } else {
            Err(PathFault::Keys)
        }
    }

    // Whether a path and its value are lawful, or what is wrong with them.
    pub fn check_entry(&self, path: Path, value: u32) -> Result<(), PathFault>
        ensures { result ≡ entry_answer (nodes self.now) path value }
    {
        let node = self.check_path(path)?;
        if node.values().has(value) {
            Ok(())
        } else {
            Err(PathFault::Value)
        }
    }
}

impl PathFault {
    // Refusal 7, 8 or 9, at this path. A method and not `From`, as it takes the path; the other reports have its name.
    pub fn report(self, path: Path) -> Report
        ensures { result ≡ at_path (plain (fault_number self)) path.node path.k1 path.k2 }
    {
        Report::plain(self as u32).at_path(u32::from(path.node), path.k1, path.k2)
    }
}
