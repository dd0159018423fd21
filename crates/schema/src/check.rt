// Which rows make a schema.
ghost use Rattle.std.specs.Prelude.{◌≡◌, Decides, map, MatchResult};
ghost use Rattle.fault.specs.Reports.{at_path, plain};
ghost use Rattle.schema.specs.Checks.{Answered, FirstBad};
ghost use Rattle.schema.specs.Nodes.{node_of};
ghost use Rattle.schema.specs.Rows.{kind_at, parent_at};
ghost use Rattle.table.specs.Slots.{items};
ghost use Rattle.schema.specs.Rules.{ParentLawful, ReferenceLawful, ListLawful, LeafLawful, Lawful, NodeLawful};

use crate::nodes::{Kind, Node, NodeRow, UNUSED, node_of, numbered};
use crate::typed::{Schema, SchemaFault};
use fault::Report;
use table::Slots;

// A row of a schema, with all rows and its number among them.
#[derive(Clone, Copy)]
struct Placed<'a> {
    rows: &'a [NodeRow],
    number: u32,
    row: NodeRow,
}

impl Placed<'_> {
    // The node of this number is a list.
    fn is_list(&self, number: u32) -> bool
        ensures { Decides result (kind_at self.now.rows.now number ≡ 1) }
    {
        numbered(self.rows, number).is_some_and(|row| row.kind == Kind::List as u32)
    }

    // The node of this number, if there is one, is at the top.
    fn is_at_top(&self, number: u32) -> bool
        ensures { Decides result (parent_at self.now.rows.now number ≡ 0) }
    {
        numbered(self.rows, number).is_none_or(|row| row.parent == 0)
    }

    // The node stands at the top or in a list of a lower number.
    fn parent_lawful(&self) -> bool
        ensures { Decides result (ParentLawful self.now.rows.now self.now.number self.now.row) }
    {
        let parent = self.row.parent;
        parent == 0 || parent < self.number && self.is_list(parent)
    }

    // The leaf refers to nothing or to a list at the top.
    fn reference_lawful(&self) -> bool
        ensures { Decides result (ReferenceLawful self.now.rows.now self.now.row) }
    {
        let list = self.row.reference;
        list == 0 || self.is_list(list) && self.is_at_top(list)
    }

    fn list_lawful(&self) -> bool
        ensures { Decides result (ListLawful self.now.rows.now self.now.number self.now.row) }
    {
        let row = self.row;
        self.parent_lawful()
            && self.is_at_top(row.parent)
            && 1 <= row.lo
            && row.lo <= row.hi
            && row.mandatory == 0
            && row.reference == 0
            && row.maximum <= 48
    }

    fn leaf_lawful(&self) -> bool
        ensures { Decides result (LeafLawful self.now.rows.now self.now.number self.now.row) }
    {
        let row = self.row;
        self.parent_lawful()
            && self.reference_lawful()
            && row.lo <= row.hi
            && row.mandatory <= 1
            && row.maximum == 0
    }

    fn lawful(&self) -> bool
        ensures { Decides result (NodeLawful self.now.rows.now self.now.number self.now.row) }
    {
        match Kind::try_from(self.row.kind) {
            Ok(Kind::List) => self.list_lawful(),
            Ok(Kind::Leaf) => self.leaf_lawful(),
            Err(_) => false,
        }
    }
}

// The rows are lawful, or the lowest node that breaks a rule, 0 where there are too few or too many nodes.
fn check_rows(rows: &[NodeRow]) -> Result<(), SchemaFault>
    ensures { MatchResult result (λ _. Lawful rows.now) (λ f. FirstBad rows.now f.node) }
{
    if rows.is_empty() || rows.len() > 16 {
        return Err(SchemaFault { node: 0 });
    }
    for (i, row) in rows.iter().enumerate() {
        let node = i as u32 + 1;
        let placed = Placed {
            rows,
            number: node,
            row: *row,
        };
        if !placed.lawful() {
            return Err(SchemaFault { node });
        }
    }
    Ok(())
}

// The typed nodes of the rows.
fn nodes_of(rows: &[NodeRow]) -> Slots<Node, 16>
    requires { Lawful rows.now }
    ensures { items result ≡ map node_of rows.now }
{
    let mut nodes = Slots::new(UNUSED);
    for row in rows {
        nodes.push(node_of(*row)).unwrap();
    }
    nodes
}

impl Schema {
    // The schema of these rows, or the first bad node.
    pub fn check(rows: &[NodeRow]) -> Result<Self, SchemaFault>
        ensures { Answered rows.now result }
    {
        check_rows(rows)?;
        Ok(Schema {
            nodes: nodes_of(rows),
        })
    }
}

impl SchemaFault {
    // Refusal 11, with the bad node as node. A method and no From: other faults have no report, or
    // need a path for it.
    pub fn report(self) -> Report
        ensures { result ≡ at_path (plain 11) self.node 0 0 }
    {
        Report::plain(11).at_path(self.node, 0, 0)
    }
}
