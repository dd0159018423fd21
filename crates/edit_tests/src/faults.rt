// The faults of an item, with all eight fields, under each error option.
use super::given::{
    CREATE, DELETE, MERGE, Numbers, REMOVE, REPLACE, Step, has_keys_to, keys_to, list, schema, told,
};
use edit::{ErrorOption, edit};
use std::alloc::Global;
use std::process::Abort;
use std::test::Fail;

// The item stands third, where there are 48 entries. The two before it are performed, and of those after it all but the fifth.
fn third(step: Step) -> [Step; 7] {
    [
        (CREATE, 1, 48, 0, 0),
        (MERGE, 4, 0, 0, 50),
        step,
        (MERGE, 4, 0, 0, 60),
        (CREATE, 1, 48, 0, 0),
        (DELETE, 1, 48, 0, 0),
        (MERGE, 6, 0, 0, 60),
    ]
}

// An option, how many items it keeps where the third is refused, the highest key of the outer list's entries, which begin at
// 2, and the other entries.
const OPTIONS: [(ErrorOption, u32, u32, &'static [Numbers]); 3] = [
    (ErrorOption::Stop, 2, 48, &[(4, 0, 0, 50)]),
    (
        ErrorOption::Continue,
        5,
        47,
        &[(4, 0, 0, 60), (6, 0, 0, 60)],
    ),
    (ErrorOption::Rollback, 0, 47, &[]),
];

// An item, and its refusal number.
type Case = (Step, u32);

fn hold(rt: &impl Abort, heap: Global, cases: &[Case]) -> Result<(), Fail> {
    let schema = schema()?;
    for &(step, number) in cases {
        let (_, node, k1, k2, _) = step;
        let list = list(heap, 7, &third(step))?;
        for (option, kept, last, rest) in OPTIONS {
            let mut config = keys_to(rt, 47);
            assert_eq!(rt;
                told(edit(&schema, &mut config, &list, option)),
                [number, 3, 0, 3, kept, u32::from(node), k1, k2],
                "{step:?}"
            );
            has_keys_to(rt, &config, last, rest, &(step, kept));
        }
    }
    Ok(())
}

const OPERATION: [Case; 3] = [
    ((0, 1, 49, 0, 0), 6),
    ((6, 1, 49, 0, 0), 6),
    ((255, 4, 0, 0, 50), 6),
];

const NODE: [Case; 3] = [
    ((MERGE, 0, 0, 0, 0), 7),
    ((CREATE, 7, 2, 0, 0), 7),
    ((REMOVE, 255, 1, 2, 0), 7),
];

const KEYS: [Case; 7] = [
    ((CREATE, 1, 1, 0, 0), 8),
    ((CREATE, 1, 61, 0, 0), 8),
    ((DELETE, 1, 48, 10, 0), 8),
    ((REMOVE, 2, 48, 9, 0), 8),
    ((REMOVE, 2, 48, 21, 0), 8),
    ((MERGE, 4, 48, 0, 50), 8),
    ((REPLACE, 3, 48, 0, 30), 8),
];

const VALUE: [Case; 7] = [
    ((MERGE, 1, 48, 0, 1), 9),
    ((MERGE, 4, 0, 0, 49), 9),
    ((REPLACE, 4, 0, 0, 61), 9),
    ((CREATE, 6, 0, 0, 0), 9),
    ((DELETE, 4, 0, 0, 50), 9),
    ((REMOVE, 4, 0, 0, 50), 9),
    ((REMOVE, 6, 0, 0, 1), 9),
];

const PRESENT: [Case; 3] = [
    ((CREATE, 1, 2, 0, 0), 32),
    ((CREATE, 1, 48, 0, 0), 32),
    ((CREATE, 4, 0, 0, 51), 32),
];

const ABSENT: [Case; 7] = [
    ((DELETE, 1, 60, 0, 0), 33),
    ((DELETE, 6, 0, 0, 0), 33),
    ((DELETE, 3, 60, 20, 0), 33),
    ((MERGE, 5, 60, 0, 70), 33),
    ((REPLACE, 2, 60, 20, 0), 33),
    ((CREATE, 3, 48, 20, 40), 33),
    ((MERGE, 3, 60, 20, 40), 33),
];

const FULL: [Case; 5] = [
    ((CREATE, 1, 60, 0, 0), 34),
    ((MERGE, 2, 48, 20, 0), 34),
    ((REPLACE, 5, 48, 0, 70), 34),
    ((CREATE, 5, 2, 0, 80), 34),
    ((MERGE, 6, 0, 0, 50), 34),
];

// Items with more than one fault: the first is told.
const SEVERAL: [Case; 11] = [
    ((0, 0, 1, 1, 1), 6),
    ((6, 1, 61, 0, 1), 6),
    ((0, 1, 49, 0, 1), 6),
    ((CREATE, 7, 61, 21, 1), 7),
    ((DELETE, 0, 1, 1, 1), 7),
    ((CREATE, 1, 61, 0, 1), 8),
    ((DELETE, 1, 61, 0, 0), 8),
    ((CREATE, 4, 0, 0, 61), 9),
    ((DELETE, 1, 60, 0, 1), 9),
    ((MERGE, 5, 60, 0, 81), 9),
    ((CREATE, 1, 60, 0, 1), 9),
];

#[test]
fn of_the_item(rt: HostRuntime) -> Result<(), Fail> {
    hold(&rt, rt.alloc(), &OPERATION)?;
    hold(&rt, rt.alloc(), &NODE)?;
    hold(&rt, rt.alloc(), &KEYS)?;
    hold(&rt, rt.alloc(), &VALUE)
}

#[test]
fn of_the_moment(rt: HostRuntime) -> Result<(), Fail> {
    hold(&rt, rt.alloc(), &PRESENT)?;
    hold(&rt, rt.alloc(), &ABSENT)?;
    hold(&rt, rt.alloc(), &FULL)
}

#[test]
fn the_first(rt: HostRuntime) -> Result<(), Fail> {
    hold(&rt, rt.alloc(), &SEVERAL)
}
