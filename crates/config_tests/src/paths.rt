// Which keys and which value a path takes.
use super::given::{Numbers, path, schema};
use schema::{Path, Schema};
use std::process::Abort;
use std::test::Fail;

// Node, k1, k2 and value, and the refusal number, 0 for none.
type Case = (Numbers, u32);

const NODES: [Case; 4] = [
    ((0, 0, 0, 0), 7),
    ((6, 0, 0, 0), 7),
    ((6, 1, 1, 1), 7),
    ((255, 3, 0, 0), 7),
];

const OUTER_LIST: [Case; 9] = [
    ((1, 3, 0, 0), 0),
    ((1, 9, 0, 0), 0),
    ((1, 2, 0, 0), 8),
    ((1, 10, 0, 0), 8),
    ((1, 0, 0, 0), 8),
    ((1, 3, 1, 0), 8),
    ((1, 3, 10, 0), 8),
    ((1, 3, 0, 1), 9),
    ((1, 2, 0, 1), 8),
];

const INNER_LIST: [Case; 9] = [
    ((2, 3, 10, 0), 0),
    ((2, 9, 20, 0), 0),
    ((2, 2, 10, 0), 8),
    ((2, 10, 10, 0), 8),
    ((2, 3, 9, 0), 8),
    ((2, 3, 21, 0), 8),
    ((2, 3, 0, 0), 8),
    ((2, 10, 3, 0), 8),
    ((2, 3, 10, 1), 9),
];

const INNER_LEAF: [Case; 10] = [
    ((3, 3, 10, 30), 0),
    ((3, 9, 20, 40), 0),
    ((3, 3, 10, 29), 9),
    ((3, 3, 10, 41), 9),
    ((3, 2, 10, 30), 8),
    ((3, 10, 10, 30), 8),
    ((3, 3, 9, 30), 8),
    ((3, 3, 21, 30), 8),
    ((3, 3, 0, 30), 8),
    ((3, 0, 0, 0), 8),
];

const TOP_LEAF: [Case; 7] = [
    ((4, 0, 0, 50), 0),
    ((4, 0, 0, 60), 0),
    ((4, 0, 0, 49), 9),
    ((4, 0, 0, 61), 9),
    ((4, 1, 0, 50), 8),
    ((4, 0, 1, 50), 8),
    ((4, 3, 10, 0), 8),
];

const OUTER_LEAF: [Case; 9] = [
    ((5, 3, 0, 70), 0),
    ((5, 9, 0, 80), 0),
    ((5, 3, 0, 69), 9),
    ((5, 9, 0, 81), 9),
    ((5, 2, 0, 70), 8),
    ((5, 10, 0, 70), 8),
    ((5, 3, 1, 70), 8),
    ((5, 3, 10, 70), 8),
    ((5, 0, 0, 70), 8),
];

fn refusal(schema: &Schema, at: Path, value: u32) -> [u32; 8] {
    match schema.check_entry(at, value) {
        Ok(()) => [0; 8],
        Err(fault) => fault.report(at).fields(),
    }
}

fn hold(rt: &impl Abort, schema: &Schema, cases: &[Case]) {
    for &((node, k1, k2, value), number) in cases {
        let expected = match number {
            0 => [0; 8],
            _ => [number, 3, 0, 0, 0, u32::from(node), k1, k2],
        };
        let at = path(node, k1, k2);
        assert_eq!(rt; refusal(schema, at, value), expected);
        let lawful_path = number == 0 || number == 9;
        assert_eq!(rt; schema.check_path(at).is_ok(), lawful_path);
    }
}

#[test]
fn keys_and_values(rt: HostRuntime) -> Result<(), Fail> {
    let schema = schema()?;
    hold(&rt, &schema, &NODES);
    hold(&rt, &schema, &OUTER_LIST);
    hold(&rt, &schema, &INNER_LIST);
    hold(&rt, &schema, &INNER_LEAF);
    hold(&rt, &schema, &TOP_LEAF);
    hold(&rt, &schema, &OUTER_LEAF);
    Ok(())
}

#[test]
fn lists_around(rt: HostRuntime) -> Result<(), Fail> {
    let schema = schema()?;
    assert_eq!(rt; schema.around(path(2, 3, 10)), Some(path(1, 3, 0)));
    assert_eq!(rt; schema.around(path(3, 3, 10)), Some(path(2, 3, 10)));
    assert_eq!(rt; schema.around(path(5, 3, 0)), Some(path(1, 3, 0)));
    assert!(rt; schema.around(path(1, 3, 0)).is_none());
    assert!(rt; schema.around(path(4, 0, 0)).is_none());
    assert!(rt; schema.around(path(0, 3, 0)).is_none());
    assert!(rt; schema.around(path(6, 3, 0)).is_none());
    Ok(())
}
