// What the tests share: entries, items and edit lists by their numbers, and a schema.
// `config_tests` has four such helpers too: a crate of their own for these would be no plainer.
use config::{Config, Entry};
use edit::{EditFault, EditList, Item, apply};
use schema::{NodeRow, Path, Schema};
use std::alloc::{AllocError, Global};
use std::fmt::Debug;
use std::process::Abort;
use std::test::Fail;

// Node, k1, k2 and value.
pub(super) type Numbers = (u8, u32, u32, u32);

// Operation, node, k1, k2 and value.
pub(super) type Step = (u8, u8, u32, u32, u32);

pub(super) const MERGE: u8 = 1;

pub(super) const REPLACE: u8 = 2;

pub(super) const CREATE: u8 = 3;

pub(super) const DELETE: u8 = 4;

pub(super) const REMOVE: u8 = 5;

fn row(kind: u32, parent: u32, lo: u32, hi: u32) -> NodeRow {
    NodeRow {
        kind,
        parent,
        lo,
        hi,
        mandatory: 0,
        reference: 0,
        maximum: 0,
    }
}

// List 1 with keys 2 to 60, in it list 2 with keys 10 to 20, in that leaf 3 with values 30 to 40; leaves 4 and 6 at the top
// with values 50 to 60, and leaf 5 in list 1 with values 70 to 80.
pub(super) fn schema() -> Result<Schema, Fail> {
    let rows = [
        row(1, 0, 2, 60),
        row(1, 1, 10, 20),
        row(2, 2, 30, 40),
        row(2, 0, 50, 60),
        row(2, 1, 70, 80),
        row(2, 0, 50, 60),
    ];
    Schema::check(&rows).map_err(|_| Fail::new("the schema is lawful"))
}

pub(super) fn entry(numbers: Numbers) -> Entry {
    let (node, k1, k2, value) = numbers;
    Entry {
        path: Path { node, k1, k2 },
        value,
    }
}

pub(super) fn item(step: Step) -> Item {
    let (operation, node, k1, k2, value) = step;
    Item {
        operation,
        path: Path { node, k1, k2 },
        value,
    }
}

pub(super) fn config(rt: &impl Abort, entries: &[Numbers]) -> Config {
    let mut config = Config::empty();
    for &numbers in entries {
        assert!(rt; config.put(entry(numbers)).is_ok(), "there is a place");
    }
    config
}

// Performs the item on the configuration. Its refusal number is this one, or 0 where it is performed.
pub(super) fn perform(
    rt: &impl Abort,
    schema: &Schema,
    config: &mut Config,
    step: Step,
    number: u32,
) {
    let told = match apply(schema, config, item(step)) {
        Ok(()) => 0,
        Err(fault) => fault.number(),
    };
    assert_eq!(rt; told, number, "{step:?}");
}

// The configuration has these entries and no others. The step is told where it has not.
pub(super) fn has(rt: &impl Abort, config: &Config, expected: &[Numbers], step: &impl Debug) {
    let entries = config.entries();
    assert!(rt;
        entries.len() == expected.len(),
        "{step:?}: how many entries"
    );
    for (i, (&held, &numbers)) in entries.iter().zip(expected).enumerate() {
        assert!(rt; held == entry(numbers), "{step:?}: place {i}");
    }
}

// Entries of the outer list with the keys 2 to `last`.
pub(super) fn keys_to(rt: &impl Abort, last: u32) -> Config {
    let mut config = Config::empty();
    for k1 in 2..=last {
        assert!(rt;
            config.put(entry((1, k1, 0, 0))).is_ok(),
            "there is a place"
        );
    }
    config
}

// The configuration has these entries of the outer list, then those of `rest`, and no others.
pub(super) fn has_keys_to(
    rt: &impl Abort,
    config: &Config,
    last: u32,
    rest: &[Numbers],
    step: &impl Debug,
) {
    let mut expected = keys_to(rt, last);
    for &numbers in rest {
        assert!(rt; expected.put(entry(numbers)).is_ok(), "there is a place");
    }
    assert!(rt; *config == expected, "{step:?}");
}

// The bytes of an edit list, by hand: the count, then operation, node, two zero bytes, k1, k2 and value of each item.
pub(super) fn bytes(heap: Global, count: u8, steps: &[Step]) -> Result<Vec<u8>, AllocError> {
    let mut bytes = Vec::new(heap);
    bytes.push(count)?;
    for &(operation, node, k1, k2, value) in steps {
        bytes.extend_from_slice(&[operation, node, 0, 0])?;
        bytes.extend_from_slice(&k1.to_be_bytes())?;
        bytes.extend_from_slice(&k2.to_be_bytes())?;
        bytes.extend_from_slice(&value.to_be_bytes())?;
    }
    Ok(bytes)
}

pub(super) fn list(heap: Global, count: u8, steps: &[Step]) -> Result<EditList, Fail> {
    let bytes = bytes(heap, count, steps)?;
    EditList::read(bytes.as_slice()).map_err(|_| Fail::new("an edit list is read"))
}

// What the tests know of an answer: the eight numbers of a refusal, or zeros where all is done.
pub(super) fn told(answer: Result<(), EditFault>) -> [u32; 8] {
    match answer {
        Ok(()) => [0; 8],
        Err(fault) => fault.report().fields(),
    }
}
