// Each operation on a target that is not there: at the top, in a list and in a list in a list.
use super::given::Numbers;
use super::one::{HELD, hold};
use std::process::Abort;
use std::test::Fail;

// A target, and the entries with it.
type Case = (Numbers, [Numbers; 10]);

const LISTS: [Case; 2] = [
    (
        (1, 5, 0, 0),
        [
            (1, 3, 0, 0),
            (1, 4, 0, 0),
            (1, 5, 0, 0),
            (2, 3, 10, 0),
            (2, 3, 11, 0),
            (2, 4, 10, 0),
            (3, 3, 10, 30),
            (3, 4, 10, 31),
            (4, 0, 0, 50),
            (5, 3, 0, 70),
        ],
    ),
    (
        (2, 3, 12, 0),
        [
            (1, 3, 0, 0),
            (1, 4, 0, 0),
            (2, 3, 10, 0),
            (2, 3, 11, 0),
            (2, 3, 12, 0),
            (2, 4, 10, 0),
            (3, 3, 10, 30),
            (3, 4, 10, 31),
            (4, 0, 0, 50),
            (5, 3, 0, 70),
        ],
    ),
];

const LEAVES: [Case; 3] = [
    (
        (6, 0, 0, 60),
        [
            (1, 3, 0, 0),
            (1, 4, 0, 0),
            (2, 3, 10, 0),
            (2, 3, 11, 0),
            (2, 4, 10, 0),
            (3, 3, 10, 30),
            (3, 4, 10, 31),
            (4, 0, 0, 50),
            (5, 3, 0, 70),
            (6, 0, 0, 60),
        ],
    ),
    (
        (5, 4, 0, 80),
        [
            (1, 3, 0, 0),
            (1, 4, 0, 0),
            (2, 3, 10, 0),
            (2, 3, 11, 0),
            (2, 4, 10, 0),
            (3, 3, 10, 30),
            (3, 4, 10, 31),
            (4, 0, 0, 50),
            (5, 3, 0, 70),
            (5, 4, 0, 80),
        ],
    ),
    (
        (3, 3, 11, 40),
        [
            (1, 3, 0, 0),
            (1, 4, 0, 0),
            (2, 3, 10, 0),
            (2, 3, 11, 0),
            (2, 4, 10, 0),
            (3, 3, 10, 30),
            (3, 3, 11, 40),
            (3, 4, 10, 31),
            (4, 0, 0, 50),
            (5, 3, 0, 70),
        ],
    ),
];

// Merge, replace and create put the target in. Delete is refused, and remove changes nothing.
fn put_in(rt: &impl Abort, cases: &[Case]) -> Result<(), Fail> {
    for (target, with) in cases {
        let put = (0, with.as_slice());
        hold(rt, *target, [put, put, put, (33, &HELD), (0, &HELD)])?;
    }
    Ok(())
}

#[test]
fn lists(rt: HostRuntime) -> Result<(), Fail> {
    put_in(&rt, &LISTS)
}

#[test]
fn leaves(rt: HostRuntime) -> Result<(), Fail> {
    put_in(&rt, &LEAVES)
}

// Targets whose list is not there.
const LONE: [Numbers; 4] = [
    (2, 5, 10, 0), // a list
    (5, 5, 0, 80), // a leaf
    (3, 3, 12, 40), // a leaf in a list in a list, the outer one there
    (3, 5, 10, 40), // and neither of them there
];

// What puts needs the list around the target, and remove does not.
#[test]
fn without_its_list(rt: HostRuntime) -> Result<(), Fail> {
    let refused = (33, HELD.as_slice());
    for target in LONE {
        hold(
            &rt,
            target,
            [refused, refused, refused, refused, (0, &HELD)],
        )?;
    }
    Ok(())
}
