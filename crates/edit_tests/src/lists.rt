// Which bytes are an edit list.
use super::given::{Step, bytes, item, list};
use edit::EditList;
use std::process::Abort;
use std::test::Fail;

// The list writes these bytes at the front of an output, and the rest of that stays.
fn encodes(rt: &impl Abort, list: &EditList, expected: &[u8]) {
    let mut out = [170u8; 300];
    assert_eq!(rt; list.encode(&mut out).ok(), Some(expected.len()));
    for (i, &byte) in out.iter().enumerate() {
        let wanted = expected.get(i).copied().unwrap_or(170);
        assert_eq!(rt; byte, wanted, "byte {i}");
    }
}

// True where the bytes are read, and then what is read writes them again. False where they are refused by 1.
fn accepted(rt: &impl Abort, bytes: &[u8]) -> Result<bool, Fail> {
    match EditList::read(bytes) {
        Ok(list) => {
            encodes(rt, &list, bytes);
            Ok(true)
        }
        Err(fault) => {
            assert_eq!(rt; fault.report().fields(), [1, 2, 0, 0, 0, 0, 0, 0]);
            Ok(false)
        }
    }
}

const MAX: u32 = u32::MAX;

// Any numbers are read, also those of no operation and no node.
const STEPS: [Step; 3] = [
    (1, 2, 3, 4, 5),
    (0, 0, 0, 0, 0),
    (255, 254, MAX, 65536, 256),
];

#[test]
fn items(rt: HostRuntime) -> Result<(), Fail> {
    let list = list(rt.alloc(), 3, &STEPS)?;
    let items = list.items();
    assert!(rt; items.len() == 3);
    for (&held, step) in items.iter().zip(STEPS) {
        assert_eq!(rt; held, item(step));
    }
    Ok(())
}

// An output of the list's own length is enough, and a shorter one is refused and stays.
#[test]
fn outputs(rt: HostRuntime) -> Result<(), Fail> {
    let three = list(rt.alloc(), 3, &STEPS)?;
    let none = list(rt.alloc(), 0, &[])?;
    let mut out = [170u8; 49];
    assert!(rt; three.encode(&mut out[0..48]).is_err());
    assert!(rt; none.encode(&mut out[0..0]).is_err());
    for byte in out {
        assert_eq!(rt; byte, 170);
    }
    assert_eq!(rt; three.encode(&mut out).ok(), Some(49));
    assert_eq!(rt; none.encode(&mut out[0..1]).ok(), Some(1));
    assert_eq!(rt; out[0], 0);
    assert_eq!(rt; out[1], 1, "past the list");
    Ok(())
}

// No shorter and no longer bytes are read, the empty byte string among them.
#[test]
fn lengths(rt: HostRuntime) -> Result<(), Fail> {
    let mut bytes = bytes(rt.alloc(), 3, &STEPS)?;
    assert!(rt; accepted(&rt, bytes.as_slice())?);
    for n in 0..bytes.len() {
        assert!(rt; !accepted(&rt, &bytes[0..n])?, "{n} bytes");
    }
    bytes.push(0)?;
    assert!(rt; !accepted(&rt, bytes.as_slice())?);
    Ok(())
}

// A count byte, how many items stand after it, and whether the bytes are read.
const COUNTS: [(u8, usize, bool); 11] = [
    (0, 0, true),
    (0, 1, false),
    (1, 0, false),
    (1, 1, true),
    (15, 15, true),
    (16, 16, true),
    (16, 15, false),
    (16, 17, false),
    (17, 16, false),
    (17, 17, false),
    (255, 17, false),
];

#[test]
fn counts(rt: HostRuntime) -> Result<(), Fail> {
    let steps = [(3, 1, 5, 0, 0); 17];
    for (byte, count, expected) in COUNTS {
        assert!(rt; count <= 17);
        let bytes = bytes(rt.alloc(), byte, &steps[0..count])?;
        assert_eq!(rt;
            accepted(&rt, bytes.as_slice())?,
            expected,
            "count {byte} of {count}"
        );
        if expected {
            assert_eq!(rt; read_count(bytes.as_slice()), Some(count));
        }
    }
    Ok(())
}

fn read_count(bytes: &[u8]) -> Option<usize> {
    Some(EditList::read(bytes).ok()?.items().len())
}

// A place in the bytes of the three items, a byte to stand there, and whether they are then read.
const BYTES: [(usize, u8, bool); 12] = [
    (0, 2, false),
    (0, 4, false),
    (3, 1, false),
    (4, 255, false),
    (19, 128, false),
    (20, 1, false),
    (35, 1, false),
    (36, 1, false),
    (1, 99, true),
    (2, 99, true),
    (5, 99, true),
    (48, 99, true),
];

#[test]
fn other_bytes(rt: HostRuntime) -> Result<(), Fail> {
    for (place, byte, expected) in BYTES {
        let mut bytes = bytes(rt.alloc(), 3, &STEPS)?;
        assert!(rt; place < bytes.len());
        bytes[place] = byte;
        assert_eq!(rt;
            accepted(&rt, bytes.as_slice())?,
            expected,
            "{byte} at {place}"
        );
    }
    Ok(())
}
