// What the tests share: rows, paths and entries by their numbers, and a schema.
use config::{Config, Entry};
use schema::{NodeRow, Path, Schema};
use std::alloc::{AllocError, Global};
use std::process::Abort;
use std::test::Fail;

// Node, k1, k2 and value.
pub(super) type Numbers = (u8, u32, u32, u32);

pub(super) fn row(numbers: [u32; 7]) -> NodeRow {
    let [kind, parent, lo, hi, mandatory, reference, maximum] = numbers;
    NodeRow {
        kind,
        parent,
        lo,
        hi,
        mandatory,
        reference,
        maximum,
    }
}

pub(super) fn path(node: u8, k1: u32, k2: u32) -> Path {
    Path { node, k1, k2 }
}

pub(super) fn entry(numbers: Numbers) -> Entry {
    let (node, k1, k2, value) = numbers;
    Entry {
        path: path(node, k1, k2),
        value,
    }
}

// A list with keys 3 to 9, in it a list with keys 10 to 20, in that a leaf with values 30 to 40; then a leaf at the top
// with values 50 to 60, and a leaf in the outer list with values 70 to 80.
pub(super) fn schema() -> Result<Schema, Fail> {
    let rows = [
        row([1, 0, 3, 9, 0, 0, 0]),
        row([1, 1, 10, 20, 0, 0, 0]),
        row([2, 2, 30, 40, 0, 0, 0]),
        row([2, 0, 50, 60, 0, 0, 0]),
        row([2, 1, 70, 80, 0, 0, 0]),
    ];
    Schema::check(&rows).map_err(|_| Fail::new("the schema is lawful"))
}

// A list with keys 1 to 60.
pub(super) fn long_list() -> Result<Schema, Fail> {
    Schema::check(&[row([1, 0, 1, 60, 0, 0, 48])]).map_err(|_| Fail::new("the schema is lawful"))
}

// Entries of the list at the top, with keys 1 to `count`.
pub(super) fn counted(rt: &impl Abort, count: u32) -> Config {
    let mut config = Config::empty();
    for k1 in 1..=count {
        assert!(rt;
            config.put(entry((1, k1, 0, 0))).is_ok(),
            "there is a place"
        );
    }
    config
}

// The bytes of an image, by hand: the count, then node, three zero bytes, k1, k2 and value of each entry.
pub(super) fn image(heap: Global, count: u8, entries: &[Numbers]) -> Result<Vec<u8>, AllocError> {
    let mut bytes = Vec::new(heap);
    bytes.push(count)?;
    for &numbers in entries {
        add(&mut bytes, numbers)?;
    }
    Ok(bytes)
}

pub(super) fn add(bytes: &mut Vec<u8>, numbers: Numbers) -> Result<(), AllocError> {
    let (node, k1, k2, value) = numbers;
    bytes.extend_from_slice(&[node, 0, 0, 0])?;
    bytes.extend_from_slice(&k1.to_be_bytes())?;
    bytes.extend_from_slice(&k2.to_be_bytes())?;
    bytes.extend_from_slice(&value.to_be_bytes())
}
