// The ordered table at its ends, by the two kinds of keys.
use super::given::{Numbers, entry, path};
use config::Entry;
use std::process::Abort;
use std::test::Fail;
use table::Named;

// Puts the row in, or takes out the row of its key. The answer is the number of rows in use then.
fn step(rows: &mut [Entry], used: usize, put: bool, row: Entry) -> Option<usize> {
    if put {
        return table::put(rows, used, row).ok();
    }
    match table::take_out(rows, used, row.path) {
        Some(taken) if taken.value == row.value => used.checked_sub(1),
        _ => None,
    }
}

// A row to put in or to take out of three rows, how many are in use then, and the values in all three places. A full table
// takes no new key, and a row of a key that it has. What is refused changes nothing, and a place past the rows in use stays.
const STEPS: [(bool, Numbers, Option<usize>, [u32; 3]); 9] = [
    (true, (2, 3, 11, 40), None, [10, 20, 30]),
    (true, (9, 0, 0, 40), None, [10, 20, 30]),
    (true, (2, 3, 10, 50), Some(3), [10, 50, 30]),
    (false, (2, 3, 11, 40), None, [10, 50, 30]),
    (false, (1, 3, 0, 10), Some(2), [50, 30, 30]),
    (false, (1, 3, 0, 10), None, [50, 30, 30]),
    (true, (2, 3, 11, 60), Some(3), [50, 60, 30]),
    (false, (2, 3, 12, 30), Some(2), [50, 60, 30]),
    (true, (0, 0, 0, 70), Some(3), [70, 50, 60]),
];

fn values(rows: &[Entry]) -> [u32; 3] {
    match rows {
        [a, b, c] => [a.value, b.value, c.value],
        _ => [0; 3],
    }
}

fn follow(rt: &impl Abort, rows: &mut [Entry]) {
    let mut used = 3;
    for (put, numbers, expected, after) in STEPS {
        assert_eq!(rt; step(rows, used, put, entry(numbers)), expected);
        used = expected.unwrap_or(used);
        assert_eq!(rt; values(rows), after, "{numbers:?}");
    }
}

#[test]
fn full_by_paths(rt: HostRuntime) {
    follow(
        &rt,
        &mut [
            entry((1, 3, 0, 10)),
            entry((2, 3, 10, 20)),
            entry((2, 3, 12, 30)),
        ],
    );
}

const NAMES: [[u8; 8]; 4] = [
    [255; 8],
    [0, 0, 0, 0, 0, 0, 0, 1],
    [0, 255, 0, 0, 0, 0, 0, 0],
    [1, 0, 0, 0, 0, 0, 0, 0],
];

// A name, and where it stands among these or would go: the first byte that differs decides.
const PLACES: [([u8; 8], Result<usize, usize>); 8] = [
    ([0; 8], Err(0)),
    ([0, 0, 0, 0, 0, 0, 0, 1], Ok(0)),
    ([0, 0, 0, 0, 0, 0, 0, 2], Err(1)),
    ([0, 255, 0, 0, 0, 0, 0, 0], Ok(1)),
    ([0, 255, 0, 0, 0, 0, 0, 1], Err(2)),
    ([1, 0, 0, 0, 0, 0, 0, 0], Ok(2)),
    ([255, 255, 255, 255, 255, 255, 255, 254], Err(3)),
    ([255; 8], Ok(3)),
];

fn sort_names(rt: &impl Abort, rows: &mut [Named]) -> Result<(), Fail> {
    let mut used = 0;
    for name in NAMES {
        used = table::put(rows, used, Named { name, value: 1 })?;
    }
    assert_eq!(rt; used, 4);
    Ok(())
}

#[test]
fn names_in_order(rt: HostRuntime) -> Result<(), Fail> {
    let mut rows = [Named {
        name: [7; 8],
        value: 0,
    }; 4];
    sort_names(&rt, &mut rows)?;
    for (name, place) in PLACES {
        assert!(rt; table::find(&rows, name) == place, "{name:?}");
        assert_eq!(rt; table::get(&rows, 9, name).is_some(), place.is_ok());
    }
    Ok(())
}

// An empty slice has no place, and nothing to find or to take out.
#[test]
fn no_rows(rt: HostRuntime) {
    let mut rows = [entry((0, 0, 0, 0)); 0];
    assert!(rt; table::put(&mut rows, 0, entry((4, 0, 0, 50))).is_err());
    assert!(rt; table::take_out(&mut rows, 0, path(4, 0, 0)).is_none());
    assert!(rt; table::find(&rows, path(4, 0, 0)) == Err(0));
}
