// Which bytes are an image of a configuration.
use super::given::{Numbers, add, counted, image, long_list, schema};
use config::Config;
use schema::Schema;
use std::alloc::Global;
use std::process::Abort;
use std::test::Fail;

// Encodes into a longer output, and holds every byte of it to the image and to what stood there.
fn encodes(rt: &impl Abort, config: &Config, expected: &[u8]) {
    let mut out = [170u8; 800];
    assert_eq!(rt; config.encode(&mut out).ok(), Some(expected.len()));
    for (i, &byte) in out.iter().enumerate() {
        let wanted = expected.get(i).copied().unwrap_or(170);
        assert_eq!(rt; byte, wanted, "byte {i}");
    }
}

// True where the bytes are accepted, and then what is read encodes to them again. False where they are refused by 12.
fn accepted(rt: &impl Abort, schema: &Schema, bytes: &[u8]) -> Result<bool, Fail> {
    match Config::read(schema, bytes) {
        Ok(config) => {
            encodes(rt, &config, bytes);
            Ok(true)
        }
        Err(fault) => {
            assert_eq!(rt; fault.report().fields(), [12, 3, 0, 0, 0, 0, 0, 0]);
            Ok(false)
        }
    }
}

// An entry, and whether an image of it alone is accepted: keys and values at both ends and one past.
const ALONE: [(Numbers, bool); 17] = [
    ((4, 0, 0, 50), true),
    ((4, 0, 0, 60), true),
    ((4, 0, 0, 49), false),
    ((4, 0, 0, 61), false),
    ((4, 0, 1, 50), false),
    ((4, 1, 0, 50), false),
    ((1, 3, 0, 0), true),
    ((1, 9, 0, 0), true),
    ((1, 2, 0, 0), false),
    ((1, 10, 0, 0), false),
    ((1, 3, 1, 0), false),
    ((1, 3, 0, 1), false),
    ((0, 0, 0, 0), false),
    ((6, 0, 0, 0), false),
    ((2, 3, 10, 0), false),
    ((3, 3, 10, 30), false),
    ((5, 3, 0, 70), false),
];

// A second entry after entry (1, 3, 0), and whether the image of both is accepted.
const SECOND: [(Numbers, bool); 13] = [
    ((2, 3, 10, 0), true),
    ((2, 3, 20, 0), true),
    ((2, 3, 9, 0), false),
    ((2, 3, 21, 0), false),
    ((2, 3, 10, 1), false),
    ((2, 4, 10, 0), false),
    ((3, 3, 10, 30), false),
    ((5, 3, 0, 70), true),
    ((5, 4, 0, 70), false),
    ((1, 4, 0, 0), true),
    ((1, 3, 0, 0), false),
    ((1, 3, 0, 1), false),
    ((0, 0, 0, 0), false),
];

// A third entry after entries (1, 4, 0) and (2, 4, 11).
const THIRD: [(Numbers, bool); 10] = [
    ((3, 4, 11, 30), true),
    ((3, 4, 11, 40), true),
    ((3, 4, 11, 29), false),
    ((3, 4, 11, 41), false),
    ((3, 4, 10, 30), false),
    ((2, 4, 12, 0), true),
    ((2, 4, 11, 0), false),
    ((2, 4, 10, 0), false),
    ((2, 3, 12, 0), false),
    ((1, 5, 0, 0), false),
];

// The paths rise, each entry is lawful, and the list around it is there.
fn hold(
    rt: &impl Abort,
    heap: Global,
    before: &[Numbers],
    count: u8,
    cases: &[(Numbers, bool)],
) -> Result<(), Fail> {
    let schema = schema()?;
    for &(numbers, expected) in cases {
        let mut bytes = image(heap, count, before)?;
        add(&mut bytes, numbers)?;
        let told = accepted(rt, &schema, bytes.as_slice())?;
        assert_eq!(rt; told, expected, "last {numbers:?}");
    }
    Ok(())
}

#[test]
fn few_entries(rt: HostRuntime) -> Result<(), Fail> {
    hold(&rt, rt.alloc(), &[], 1, &ALONE)?;
    hold(&rt, rt.alloc(), &[(1, 3, 0, 0)], 2, &SECOND)?;
    hold(&rt, rt.alloc(), &[(1, 4, 0, 0), (2, 4, 11, 0)], 3, &THIRD)
}

const THREE: [Numbers; 3] = [(1, 3, 0, 0), (2, 3, 10, 0), (3, 3, 10, 30)];

// A place in the image of these three, a byte to stand there, and whether the image is then accepted.
const BYTES: [(usize, u8, bool); 21] = [
    (0, 3, true),
    (0, 0, false),
    (0, 2, false),
    (0, 4, false),
    (0, 255, false),
    (2, 1, false),
    (3, 1, false),
    (4, 1, false),
    (34, 255, false),
    (35, 255, false),
    (36, 255, false),
    (8, 4, false), // no list around the second
    (7, 1, false),
    (44, 11, false), // no list around the third
    (16, 1, false),
    (32, 1, false),
    (13, 1, false),
    (48, 40, true),
    (48, 41, false),
    (48, 29, false),
    (47, 1, false),
];

#[test]
fn other_bytes(rt: HostRuntime) -> Result<(), Fail> {
    let schema = schema()?;
    for (place, byte, expected) in BYTES {
        let mut bytes = image(rt.alloc(), 3, &THREE)?;
        assert!(rt; place < bytes.len());
        bytes[place] = byte;
        let told = accepted(&rt, &schema, bytes.as_slice())?;
        assert_eq!(rt; told, expected, "{byte} at {place}");
    }
    Ok(())
}

// No shorter and no longer bytes are accepted, the empty byte string among them.
#[test]
fn lengths(rt: HostRuntime) -> Result<(), Fail> {
    let schema = schema()?;
    let mut bytes = image(rt.alloc(), 3, &THREE)?;
    assert_eq!(rt; bytes.len(), 49);
    for n in 0..bytes.len() {
        assert!(rt; !accepted(&rt, &schema, &bytes[0..n])?, "{n} bytes");
    }
    bytes.push(0)?;
    assert!(rt; !accepted(&rt, &schema, bytes.as_slice())?);
    Ok(())
}

// A count byte, how many entries stand after it, and whether the bytes are accepted.
const COUNTS: [(u8, u32, bool); 12] = [
    (0, 0, true),
    (0, 1, false),
    (1, 0, false),
    (1, 1, true),
    (47, 47, true),
    (48, 48, true),
    (48, 47, false),
    (48, 49, false),
    (49, 48, false),
    (49, 49, false),
    (60, 60, false),
    (255, 255, false),
];

// A count byte, and entries of a list with the keys 1 to `count`.
fn long(heap: Global, byte: u8, count: u32) -> Result<Vec<u8>, Fail> {
    let mut bytes = image(heap, byte, &[])?;
    for k1 in 1..=count {
        add(&mut bytes, (1, k1, 0, 0))?;
    }
    Ok(bytes)
}

#[test]
fn many_entries(rt: HostRuntime) -> Result<(), Fail> {
    let schema = long_list()?;
    for (byte, count, expected) in COUNTS {
        let bytes = long(rt.alloc(), byte, count)?;
        let told = accepted(&rt, &schema, bytes.as_slice())?;
        assert_eq!(rt; told, expected, "count {byte} of {count}");
        if expected {
            encodes(&rt, &counted(&rt, count), bytes.as_slice());
        }
    }
    Ok(())
}

// Outputs by their lengths: 769 bytes are enough for every configuration, and 768 for none.
#[test]
fn outputs(rt: HostRuntime) {
    let config = counted(&rt, 48);
    let mut out = [7u8; 769];
    assert!(rt; config.encode(&mut out[0..768]).is_err());
    assert!(rt; Config::empty().encode(&mut out[0..0]).is_err());
    for byte in out {
        assert_eq!(rt; byte, 7, "a refusal changes nothing");
    }
    assert_eq!(rt; config.encode(&mut out).ok(), Some(769));
    assert_eq!(rt; Config::empty().encode(&mut out).ok(), Some(1));
    assert_eq!(rt; out[0], 0);
    assert_eq!(rt; out[1], 1, "past the image");
}
