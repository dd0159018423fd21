// What each error option keeps and leaves.
use super::given::{
    CREATE, DELETE, MERGE, Numbers, REMOVE, REPLACE, Step, config, has, list, schema, told,
};
use edit::{ErrorOption, Operation, UnknownOperation, UnknownOption, edit};
use std::alloc::Global;
use std::process::Abort;
use std::test::Fail;

const OPTIONS: [ErrorOption; 3] = [
    ErrorOption::Stop,
    ErrorOption::Continue,
    ErrorOption::Rollback,
];

const HELD: [Numbers; 2] = [(1, 3, 0, 0), (5, 3, 0, 70)];

// How many items are kept, and the entries afterwards.
type Left = (u32, &'static [Numbers]);

// What the report has beside layer and kept: number, item, node, k1 and k2, or zeros where all items are performed. Then what
// stop, continue and rollback leave.
fn hold(
    rt: &impl Abort,
    heap: Global,
    count: u8,
    steps: &[Step],
    first: [u32; 5],
    left: [Left; 3],
) -> Result<(), Fail> {
    let schema = schema()?;
    let list = list(heap, count, steps)?;
    let [number, item, node, k1, k2] = first;
    let layer = if number == 0 { 0 } else { 3 };
    for (&option, (kept, after)) in OPTIONS.iter().zip(left) {
        let mut config = config(rt, &HELD);
        assert_eq!(rt;
            told(edit(&schema, &mut config, &list, option)),
            [number, layer, 0, item, kept, node, k1, k2],
            "{option:?}"
        );
        has(rt, &config, after, &option);
    }
    Ok(())
}

const NONE: [u32; 5] = [0; 5];

#[test]
fn no_items(rt: HostRuntime) -> Result<(), Fail> {
    hold(&rt, rt.alloc(), 0, &[], NONE, [(0, &HELD); 3])
}

// Each item is judged on what those before it left.
const BUILT: [Step; 6] = [
    (DELETE, 1, 3, 0, 0),
    (CREATE, 1, 4, 0, 0),
    (CREATE, 2, 4, 10, 0),
    (CREATE, 3, 4, 10, 30),
    (REPLACE, 3, 4, 10, 40),
    (CREATE, 1, 3, 0, 0),
];

const BUILT_ENTRIES: [Numbers; 4] = [(1, 3, 0, 0), (1, 4, 0, 0), (2, 4, 10, 0), (3, 4, 10, 40)];

#[test]
fn all_performed(rt: HostRuntime) -> Result<(), Fail> {
    hold(&rt, rt.alloc(), 6, &BUILT, NONE, [(0, &BUILT_ENTRIES); 3])
}

const TWICE: [Step; 2] = [(CREATE, 1, 5, 0, 0), (CREATE, 1, 5, 0, 0)];

const WITH_FIVE: [Numbers; 3] = [(1, 3, 0, 0), (1, 5, 0, 0), (5, 3, 0, 70)];

// An item that changes nothing is performed and counts.
const NO_CHANGE: [Step; 5] = [
    (REMOVE, 6, 0, 0, 0),
    (MERGE, 1, 3, 0, 0),
    (REPLACE, 5, 3, 0, 70),
    (DELETE, 6, 0, 0, 0),
    (REMOVE, 3, 9, 10, 0),
];

// The list around a leaf is put in after the leaf was refused, and then the leaf.
const LEAF_FIRST: [Step; 4] = [
    (CREATE, 5, 4, 0, 71),
    (CREATE, 1, 4, 0, 0),
    (CREATE, 5, 4, 0, 72),
    (CREATE, 5, 4, 0, 73),
];

const WITH_LEAF: [Numbers; 4] = [(1, 3, 0, 0), (1, 4, 0, 0), (5, 3, 0, 70), (5, 4, 0, 72)];

#[test]
fn some_refused(rt: HostRuntime) -> Result<(), Fail> {
    hold(
        &rt,
        rt.alloc(),
        2,
        &TWICE,
        [32, 2, 1, 5, 0],
        [(1, &WITH_FIVE), (1, &WITH_FIVE), (0, &HELD)],
    )?;
    hold(
        &rt,
        rt.alloc(),
        5,
        &NO_CHANGE,
        [33, 4, 6, 0, 0],
        [(3, &HELD), (4, &HELD), (0, &HELD)],
    )?;
    hold(
        &rt,
        rt.alloc(),
        4,
        &LEAF_FIRST,
        [33, 1, 5, 4, 0],
        [(0, &HELD), (2, &WITH_LEAF), (0, &HELD)],
    )
}

const EMPTIED: [Numbers; 1] = [(1, 3, 0, 0)];

// Sixteen items, the first, the last or all of them refused.
#[test]
fn sixteen(rt: HostRuntime) -> Result<(), Fail> {
    let mut steps = [(REPLACE, 1, 3, 0, 0); 16];
    hold(&rt, rt.alloc(), 16, &steps, NONE, [(0, &EMPTIED); 3])?;
    steps[15] = (CREATE, 1, 3, 0, 0);
    hold(
        &rt,
        rt.alloc(),
        16,
        &steps,
        [32, 16, 1, 3, 0],
        [(15, &EMPTIED), (15, &EMPTIED), (0, &HELD)],
    )?;
    steps[0] = (DELETE, 2, 3, 10, 0);
    hold(
        &rt,
        rt.alloc(),
        16,
        &steps,
        [33, 1, 2, 3, 10],
        [(0, &HELD), (14, &EMPTIED), (0, &HELD)],
    )?;
    hold(
        &rt,
        rt.alloc(),
        16,
        &[(9, 1, 2, 3, 4); 16],
        [6, 1, 1, 2, 3],
        [(0, &HELD); 3],
    )
}

const OPERATIONS: [(u8, Operation); 5] = [
    (MERGE, Operation::Merge),
    (REPLACE, Operation::Replace),
    (CREATE, Operation::Create),
    (DELETE, Operation::Delete),
    (REMOVE, Operation::Remove),
];

#[test]
fn numbers(rt: HostRuntime) {
    for (&number, option) in [1, 2, 3].iter().zip(OPTIONS) {
        assert_eq!(rt; ErrorOption::try_from(number), Ok(option));
    }
    for number in [0, 4, 255, u32::MAX] {
        assert_eq!(rt; ErrorOption::try_from(number), Err(UnknownOption(number)));
    }
    for (number, operation) in OPERATIONS {
        assert_eq!(rt; Operation::try_from(number), Ok(operation));
    }
    for number in [0, 6, 255] {
        assert_eq!(rt; Operation::try_from(number), Err(UnknownOperation(number)));
    }
}
