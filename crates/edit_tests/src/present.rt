// Each operation on a target that is there: at the top, in a list and in a list in a list.
use super::given::Numbers;
use super::one::{HELD, hold};
use std::process::Abort;
use std::test::Fail;

// A target, and the entries after merge, after replace, and after delete and remove.
type Case = (
    Numbers,
    &'static [Numbers],
    &'static [Numbers],
    &'static [Numbers],
);

// The entries without those under (1, 3, 0).
const OUTER_EMPTY: [Numbers; 5] = [
    (1, 3, 0, 0),
    (1, 4, 0, 0),
    (2, 4, 10, 0),
    (3, 4, 10, 31),
    (4, 0, 0, 50),
];

// Without (1, 3, 0) too.
const OUTER_GONE: [Numbers; 4] = [(1, 4, 0, 0), (2, 4, 10, 0), (3, 4, 10, 31), (4, 0, 0, 50)];

// The entries without the one under (2, 3, 10).
const INNER_EMPTY: [Numbers; 8] = [
    (1, 3, 0, 0),
    (1, 4, 0, 0),
    (2, 3, 10, 0),
    (2, 3, 11, 0),
    (2, 4, 10, 0),
    (3, 4, 10, 31),
    (4, 0, 0, 50),
    (5, 3, 0, 70),
];

// Without (2, 3, 10) too.
const INNER_GONE: [Numbers; 7] = [
    (1, 3, 0, 0),
    (1, 4, 0, 0),
    (2, 3, 11, 0),
    (2, 4, 10, 0),
    (3, 4, 10, 31),
    (4, 0, 0, 50),
    (5, 3, 0, 70),
];

const LISTS: [Case; 2] = [
    ((1, 3, 0, 0), &HELD, &OUTER_EMPTY, &OUTER_GONE),
    ((2, 3, 10, 0), &HELD, &INNER_EMPTY, &INNER_GONE),
];

// The entries with value 60 at (4, 0, 0).
const TOP_SET: [Numbers; 9] = [
    (1, 3, 0, 0),
    (1, 4, 0, 0),
    (2, 3, 10, 0),
    (2, 3, 11, 0),
    (2, 4, 10, 0),
    (3, 3, 10, 30),
    (3, 4, 10, 31),
    (4, 0, 0, 60),
    (5, 3, 0, 70),
];

const TOP_GONE: [Numbers; 8] = [
    (1, 3, 0, 0),
    (1, 4, 0, 0),
    (2, 3, 10, 0),
    (2, 3, 11, 0),
    (2, 4, 10, 0),
    (3, 3, 10, 30),
    (3, 4, 10, 31),
    (5, 3, 0, 70),
];

// The entries with value 80 at (5, 3, 0).
const OUTER_SET: [Numbers; 9] = [
    (1, 3, 0, 0),
    (1, 4, 0, 0),
    (2, 3, 10, 0),
    (2, 3, 11, 0),
    (2, 4, 10, 0),
    (3, 3, 10, 30),
    (3, 4, 10, 31),
    (4, 0, 0, 50),
    (5, 3, 0, 80),
];

const OUTER_WITHOUT: [Numbers; 8] = [
    (1, 3, 0, 0),
    (1, 4, 0, 0),
    (2, 3, 10, 0),
    (2, 3, 11, 0),
    (2, 4, 10, 0),
    (3, 3, 10, 30),
    (3, 4, 10, 31),
    (4, 0, 0, 50),
];

// The entries with value 40 at (3, 3, 10).
const INNER_SET: [Numbers; 9] = [
    (1, 3, 0, 0),
    (1, 4, 0, 0),
    (2, 3, 10, 0),
    (2, 3, 11, 0),
    (2, 4, 10, 0),
    (3, 3, 10, 40),
    (3, 4, 10, 31),
    (4, 0, 0, 50),
    (5, 3, 0, 70),
];

const LEAVES: [Case; 3] = [
    ((4, 0, 0, 60), &TOP_SET, &TOP_SET, &TOP_GONE),
    ((5, 3, 0, 80), &OUTER_SET, &OUTER_SET, &OUTER_WITHOUT),
    ((3, 3, 10, 40), &INNER_SET, &INNER_SET, &INNER_EMPTY),
];

// Create is refused.
fn change(rt: &impl Abort, cases: &[Case]) -> Result<(), Fail> {
    for &(target, merged, replaced, gone) in cases {
        hold(
            rt,
            target,
            [
                (0, merged),
                (0, replaced),
                (32, &HELD),
                (0, gone),
                (0, gone),
            ],
        )?;
    }
    Ok(())
}

// A list is emptied by replace, and taken out by delete and remove with all under it, two levels down.
#[test]
fn lists(rt: HostRuntime) -> Result<(), Fail> {
    change(&rt, &LISTS)
}

#[test]
fn leaves(rt: HostRuntime) -> Result<(), Fail> {
    change(&rt, &LEAVES)
}
