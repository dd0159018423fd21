// Each operation on one target.
use super::given::{CREATE, DELETE, MERGE, Numbers, REMOVE, REPLACE, config, has, perform, schema};
use std::process::Abort;
use std::test::Fail;

// What the configuration has before each item.
pub(super) const HELD: [Numbers; 9] = [
    (1, 3, 0, 0),
    (1, 4, 0, 0),
    (2, 3, 10, 0),
    (2, 3, 11, 0),
    (2, 4, 10, 0),
    (3, 3, 10, 30),
    (3, 4, 10, 31),
    (4, 0, 0, 50),
    (5, 3, 0, 70),
];

// A refusal number, 0 for none, and the entries afterwards.
pub(super) type Outcome<'a> = (u32, &'a [Numbers]);

// Each operation, and whether its item carries the target's value: an item that takes out carries 0.
const OPERATIONS: [(u8, bool); 5] = [
    (MERGE, true),
    (REPLACE, true),
    (CREATE, true),
    (DELETE, false),
    (REMOVE, false),
];

// What merge, replace, create, delete and remove come to on the target.
pub(super) fn hold(
    rt: &impl Abort,
    target: Numbers,
    outcomes: [Outcome<'_>; 5],
) -> Result<(), Fail> {
    let schema = schema()?;
    let (node, k1, k2, value) = target;
    for (&(operation, puts), (number, after)) in OPERATIONS.iter().zip(outcomes) {
        let carried = if puts { value } else { 0 };
        let step = (operation, node, k1, k2, carried);
        let mut config = config(rt, &HELD);
        perform(rt, &schema, &mut config, step, number);
        has(rt, &config, after, &step);
    }
    Ok(())
}
