// Which rows make a schema, and which node is told where they do not.
use super::given::row;
use schema::{Node, NodeRow, Schema};
use std::process::Abort;
use std::test::Fail;

const MAX: u32 = u32::MAX;

// A list, a list in it, a leaf in that, a leaf at the top and a list at the top: all lawful.
const LAWFUL: [[u32; 7]; 5] = [
    [1, 0, 3, 9, 0, 0, 7],
    [1, 1, 1, 5, 0, 0, 0],
    [2, 2, 0, 7, 1, 1, 0],
    [2, 0, 0, 0, 0, 0, 0],
    [1, 0, 1, 1, 0, 0, 48],
];

// Other numbers for one of these nodes, and the first bad node then.
type Case = (usize, [u32; 7], Option<u32>);

const KINDS: [Case; 7] = [
    (5, [0, 0, 1, 1, 0, 0, 0], Some(5)),
    (5, [1, 0, 1, 1, 0, 0, 0], None),
    (5, [2, 0, 1, 1, 0, 0, 0], None),
    (5, [3, 0, 1, 1, 0, 0, 0], Some(5)),
    (5, [MAX, 0, 1, 1, 0, 0, 0], Some(5)),
    (1, [0, 0, 3, 9, 0, 0, 0], Some(1)),
    (1, [2, 0, 3, 9, 0, 0, 0], Some(2)), // the node inside is no more in a list
];

const LISTS: [Case; 14] = [
    (5, [1, 0, 0, 9, 0, 0, 0], Some(5)),
    (5, [1, 0, 0, 0, 0, 0, 0], Some(5)),
    (5, [1, 0, 2, 2, 0, 0, 0], None),
    (5, [1, 0, 2, 1, 0, 0, 0], Some(5)),
    (5, [1, 0, 1, MAX, 0, 0, 0], None),
    (5, [1, 0, MAX, MAX, 0, 0, 0], None),
    (5, [1, 0, 1, 1, 1, 0, 0], Some(5)),
    (5, [1, 0, 1, 1, 2, 0, 0], Some(5)),
    (5, [1, 0, 1, 1, 0, 1, 0], Some(5)),
    (5, [1, 0, 1, 1, 0, 5, 0], Some(5)),
    (5, [1, 0, 1, 1, 0, 0, 1], None),
    (5, [1, 0, 1, 1, 0, 0, 48], None),
    (5, [1, 0, 1, 1, 0, 0, 49], Some(5)),
    (5, [1, 0, 1, 1, 0, 0, MAX], Some(5)),
];

const LEAVES: [Case; 9] = [
    (4, [2, 0, 0, MAX, 0, 0, 0], None),
    (4, [2, 0, MAX, MAX, 0, 0, 0], None),
    (4, [2, 0, 5, 4, 0, 0, 0], Some(4)),
    (4, [2, 0, 0, 0, 1, 0, 0], None),
    (4, [2, 0, 0, 0, 2, 0, 0], Some(4)),
    (4, [2, 0, 0, 0, MAX, 0, 0], Some(4)),
    (4, [2, 0, 0, 0, 0, 0, 1], Some(4)),
    (4, [2, 0, 0, 0, 0, 0, 48], Some(4)),
    (4, [2, 0, 0, 0, 0, 0, MAX], Some(4)),
];

// A list: in a list, in a nested one, in a leaf, in itself, past the end, in a higher one. Then the same of a leaf.
const PARENTS: [Case; 15] = [
    (5, [1, 1, 1, 1, 0, 0, 0], None),
    (5, [1, 2, 1, 1, 0, 0, 0], Some(5)),
    (5, [1, 3, 1, 1, 0, 0, 0], Some(5)),
    (5, [1, 5, 1, 1, 0, 0, 0], Some(5)),
    (5, [1, 6, 1, 1, 0, 0, 0], Some(5)),
    (5, [1, MAX, 1, 1, 0, 0, 0], Some(5)),
    (2, [1, 5, 1, 5, 0, 0, 0], Some(2)),
    (1, [1, 1, 3, 9, 0, 0, 0], Some(1)),
    (4, [2, 1, 0, 0, 0, 0, 0], None),
    (4, [2, 2, 0, 0, 0, 0, 0], None),
    (4, [2, 3, 0, 0, 0, 0, 0], Some(4)),
    (4, [2, 4, 0, 0, 0, 0, 0], Some(4)),
    (4, [2, 5, 0, 0, 0, 0, 0], Some(4)),
    (4, [2, 6, 0, 0, 0, 0, 0], Some(4)),
    (4, [2, MAX, 0, 0, 0, 0, 0], Some(4)),
];

// To a list at the top, lower and higher, to a nested list, to a leaf, to itself, past the end.
const REFERENCES: [Case; 7] = [
    (4, [2, 0, 0, 0, 0, 1, 0], None),
    (4, [2, 0, 0, 0, 0, 5, 0], None),
    (4, [2, 0, 0, 0, 0, 2, 0], Some(4)),
    (4, [2, 0, 0, 0, 0, 3, 0], Some(4)),
    (4, [2, 0, 0, 0, 0, 4, 0], Some(4)),
    (4, [2, 0, 0, 0, 0, 6, 0], Some(4)),
    (4, [2, 0, 0, 0, 0, MAX, 0], Some(4)),
];

// The first bad node, which the report has to tell, or none where the rows are lawful.
fn first_bad(rt: &impl Abort, rows: &[NodeRow]) -> Result<Option<u32>, Fail> {
    match Schema::check(rows) {
        Ok(_) => Ok(None),
        Err(fault) => {
            let node = fault.node;
            assert_eq!(rt; fault.report().fields(), [11, 3, 0, 0, 0, node, 0, 0]);
            Ok(Some(node))
        }
    }
}

fn lawful_rows() -> [NodeRow; 5] {
    LAWFUL.map(row)
}

fn hold(rt: &impl Abort, cases: &[Case]) -> Result<(), Fail> {
    for &(number, numbers, expected) in cases {
        let mut rows = lawful_rows();
        assert!(rt; 1 <= number && number <= 5);
        rows[number - 1] = row(numbers);
        let told = first_bad(rt, &rows)?;
        assert_eq!(rt; told, expected, "node {number} as {numbers:?}");
    }
    Ok(())
}

#[test]
fn single_nodes(rt: HostRuntime) -> Result<(), Fail> {
    assert_eq!(rt; first_bad(&rt, &lawful_rows())?, None);
    hold(&rt, &KINDS)?;
    hold(&rt, &LISTS)?;
    hold(&rt, &LEAVES)?;
    hold(&rt, &PARENTS)?;
    hold(&rt, &REFERENCES)
}

// So many leaves, and the first bad node: 1 to 16 nodes are a schema, and a wrong count goes before any bad node.
const COUNTS: [(usize, Option<u32>); 5] = [
    (0, Some(0)),
    (1, None),
    (15, None),
    (16, None),
    (17, Some(0)),
];

// The same where leaf 16 is bad.
const COUNTS_AND_BAD: [(usize, Option<u32>); 4] = [
    (15, None),
    (16, Some(16)),
    (17, Some(0)),
    (18, Some(0)),
];

fn count(rt: &impl Abort, rows: [NodeRow; 18], cases: &[(usize, Option<u32>)]) -> Result<(), Fail> {
    for &(count, expected) in cases {
        assert!(rt; count <= 18);
        assert_eq!(rt; first_bad(rt, &rows[0..count])?, expected, "{count} nodes");
    }
    Ok(())
}

#[test]
fn counts(rt: HostRuntime) -> Result<(), Fail> {
    let mut rows = [row([2, 0, 0, 0, 0, 0, 0]); 18];
    count(&rt, rows, &COUNTS)?;
    rows[15] = row([3, 0, 0, 0, 0, 0, 0]);
    count(&rt, rows, &COUNTS_AND_BAD)
}

// The lowest bad node is told. A leaf is not bad because the list that it refers to has bad bounds.
#[test]
fn two_bad_nodes(rt: HostRuntime) -> Result<(), Fail> {
    let mut rows = lawful_rows();
    rows[3] = row([2, 0, 0, 0, 0, 5, 0]);
    rows[4] = row([1, 0, 0, 9, 0, 0, 0]);
    assert_eq!(rt; first_bad(&rt, &rows)?, Some(5));
    rows[3] = row([2, 0, 0, 0, 0, 6, 0]);
    assert_eq!(rt; first_bad(&rt, &rows)?, Some(4));
    rows[4] = row([1, 1, 1, 1, 0, 0, 0]);
    rows[3] = row([2, 0, 0, 0, 0, 5, 0]);
    assert_eq!(rt;
        first_bad(&rt, &rows)?,
        Some(4),
        "the list that it refers to is nested"
    );
    rows[1] = row([1, 1, 5, 1, 0, 0, 0]);
    assert_eq!(rt; first_bad(&rt, &rows)?, Some(2));
    Ok(())
}

// The numbers of a typed node: kind, parent, lo, hi, mandatory, reference and maximum.
fn numbers(node: Option<Node>) -> [u32; 7] {
    match node {
        Some(Node::List(list)) => {
            let parent = u32::from(list.parent.unwrap_or(0));
            let maximum = list.maximum.unwrap_or(0);
            [1, parent, list.keys.lo, list.keys.hi, 0, 0, maximum]
        }
        Some(Node::Leaf(leaf)) => {
            let parent = u32::from(leaf.parent.unwrap_or(0));
            let mandatory = u32::from(leaf.mandatory);
            let reference = u32::from(leaf.reference.unwrap_or(0));
            [
                2,
                parent,
                leaf.values.lo,
                leaf.values.hi,
                mandatory,
                reference,
                0,
            ]
        }
        None => [0; 7],
    }
}

// The typed nodes say what the rows say.
#[test]
fn typed_nodes(rt: HostRuntime) -> Result<(), Fail> {
    let schema = Schema::check(&lawful_rows()).map_err(|_| Fail::new("the rows are lawful"))?;
    for (i, &row) in LAWFUL.iter().enumerate() {
        let number = i as u8 + 1;
        assert_eq!(rt; numbers(schema.node(number)), row, "node {number}");
    }
    for none in [0, 6, 16, 17, 255] {
        assert!(rt; schema.node(none).is_none(), "node {none}");
    }
    Ok(())
}
